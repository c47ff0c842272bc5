// The clock of an MBC3: its registers, a sub-second, the time in seconds, and a latch over a frozen copy.
// A clock goes in by value and the next one comes back. An advance is a closed form by division: no loop and no
// recursion, and one clock costs what 2^64 - 1 of them cost.
#![tactic(auto)]

ghost use Rattle.std.specs.Prelude.{◌≡◌, ◌<◌};
ghost use Rattle.clock.specs.Fit.{fit_clock};
ghost use Rattle.clock.specs.Ticking.{advance_of, number_of, Gone};
ghost use Rattle.clock.specs.Access.{start_at, sub_after, shown_of, written_of, latched_of};

use clock_registers::Registers;
use facts::{Counted, both, from_below};

// The number of mapper clocks in a second.
const ONE_SECOND_MAPPER_CLOCKS: u32 = 2_097_152;

const LAST_TIME: u64 = 0xFFFF_FFFF_FFFF_FFFF;

#[derive(Clone, Copy)]
pub struct Clock {
    pub running: Registers,
    pub sub: u32,
    pub time: u64,
    pub latched: bool,
    pub frozen: Registers,
}

// Why a clock is not advanced.
#[derive(Clone, Copy, Debug, PartialEq, Eq)]
pub enum AdvanceRefusal {
    // A register or the sub-second is beyond its width.
    Unfit,
    // The time would pass 2^64 - 1 seconds.
    Late,
}

impl AdvanceRefusal {
    pub fn number(self) -> u8
        ensures { result ≡ number_of self }
    {
        match self {
            AdvanceRefusal::Unfit => 13,
            AdvanceRefusal::Late => 17,
        }
    }
}

// The whole seconds in n clocks, and the sub-second then; none and the same where the clock is halted.
fn elapsed(halt: bool, sub: u32, n: u64) -> Counted
    requires { sub < 2097152 }
    ensures { Gone halt sub n result.value result.carried }
{
    if halt {
        return Counted {
            value: sub as u64,
            carried: 0,
        };
    }
    from_below(ONE_SECOND_MAPPER_CLOCKS as u64, sub as u64, n)
}

// The sub-second after a write to register n.
fn sub_after(n: u8, sub: u32) -> u32
    ensures { result ≡ sub_after n sub }
{
    if n == 0 { 0 } else { sub }
}

impl Clock {
    // The clock at mounting: all zero, and its time the wall time.
    pub fn new(wall: u64) -> Self
        ensures { result ≡ start_at wall }
    {
        let running = Registers::new();
        let frozen = Registers::new();
        Clock {
            running,
            sub: 0,
            time: wall,
            latched: false,
            frozen,
        }
    }

    // Whether the running registers, the frozen copy and the sub-second fit their widths.
    pub fn fit(self) -> bool
        ensures { result ≡ fit_clock self }
    {
        let running = self.running;
        let frozen = self.frozen;
        both(
            running.fit(),
            both(frozen.fit(), self.sub < ONE_SECOND_MAPPER_CLOCKS),
        )
    }

    // One mapper clock on.
    pub fn tick(self) -> Result<Clock, AdvanceRefusal>
        ensures { result ≡ advance_of self 1 }
    {
        self.advance(1)
    }

    // n mapper clocks on. The step of the registers is the test of their widths.
    pub fn advance(self, n: u64) -> Result<Clock, AdvanceRefusal>
        ensures { result ≡ advance_of self n }
    {
        let was = self.running;
        let frozen = self.frozen;
        if !both(frozen.fit(), self.sub < ONE_SECOND_MAPPER_CLOCKS) {
            return Err(AdvanceRefusal::Unfit);
        }
        let gone = elapsed(was.halt, self.sub, n);
        let Some(running) = was.forward(gone.carried) else {
            return Err(AdvanceRefusal::Unfit);
        };
        if LAST_TIME - self.time < gone.carried {
            return Err(AdvanceRefusal::Late);
        }
        Ok(Clock {
            running,
            sub: gone.value as u32,
            time: self.time + gone.carried,
            ..self
        })
    }

    // What register n shows, where there is one: the frozen copy while frozen.
    pub fn read(self, n: u8) -> Option<u8>
        ensures { result ≡ shown_of self n }
    {
        if 4 < n {
            None
        } else if self.latched {
            Some(self.frozen.get(n))
        } else {
            Some(self.running.get(n))
        }
    }

    // The byte b written to register n, where there is one: to the running one, and while frozen to the copy too.
    pub fn write(self, n: u8, b: u8) -> Option<Clock>
        ensures { result ≡ written_of self n b }
    {
        if 4 < n {
            return None;
        }
        let was = self.running;
        let running = was.set(n, b);
        let sub = sub_after(n, self.sub);
        if self.latched {
            let copy = self.frozen;
            return Some(Clock {
                running,
                sub,
                frozen: copy.set(n, b),
                ..self
            });
        }
        Some(Clock {
            running,
            sub,
            ..self
        })
    }

    // The byte b written to the latch: with bit 0 set it freezes, unless the clock is frozen already; with bit 0 clear it unfreezes.
    pub fn latch(mut self, b: u8) -> Clock
        ensures { result ≡ latched_of self b }
    {
        if b & 1 == 0 {
            self.latched = false;
            return self;
        }
        let already = self.latched;
        if already {
            return self;
        }
        let running = self.running;
        self.frozen = running;
        self.latched = true;
        self
    }
}
