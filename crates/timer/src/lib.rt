// The clock of an MBC3: its registers where they stand in the RAM window, and clocks that pass.
#![tactic(auto)]

ghost use Rattle.std.specs.Prelude.{◌≡◌};
ghost use Rattle.timer.specs.ClockWindow.{on_clock, window_read, window_written};
ghost use Rattle.timer.specs.Advance.{from_clock, advance_of};
ghost use Rattle.clock.specs.Ticking as ticking;

use clock::AdvanceRefusal;
use facts::{both, either};
use mbc3::Mbc3;

// Whether a clock register stands in the RAM window.
pub fn on_clock(m: Mbc3) -> bool
    ensures { result ≡ on_clock m }
{
    both(m.timer, both(m.enabled, !m.memory))
}

// What the RAM window reads where RAM is not selected: the clock register, or 0xFF.
pub fn read(m: Mbc3) -> u8
    ensures { result ≡ window_read m }
{
    if on_clock(m) {
        let clock = m.clock;
        return clock.read(m.register).unwrap_or(0xFF);
    }
    0xFF
}

// A byte written to the RAM window where RAM is not selected.
pub fn write(m: Mbc3, byte: u8) -> Mbc3
    ensures { result ≡ window_written m byte }
{
    if on_clock(m) {
        let clock = m.clock;
        return match clock.write(m.register, byte) {
            Some(next) => Mbc3 { clock: next, ..m },
            None => m,
        };
    }
    m
}

// The clock alone n mapper clocks on.
fn advance_clock(m: Mbc3, n: u64) -> Result<Mbc3, AdvanceRefusal>
    ensures { result ≡ from_clock m (ticking.advance_of m.clock n) }
{
    let clock = m.clock.advance(n)?;
    Ok(Mbc3 { clock, ..m })
}

// n mapper clocks on. The clock tests itself, so only the rest is tested here.
pub fn advance(m: Mbc3, n: u64) -> Result<Mbc3, AdvanceRefusal>
    ensures { result ≡ advance_of m n }
{
    let banks = both(1 <= m.bank, m.ram <= 3);
    if !both(banks, either(!m.timer, m.register <= 4)) {
        return Err(AdvanceRefusal::Unfit);
    }
    if m.timer {
        return advance_clock(m, n);
    }
    Ok(m)
}
