// The calls that change a state, straight on its bytes. Only the mapper is built: what was mounted stays in the bytes. Each answers
// as the bus does on the cartridge that the bytes are, and a refused call has changed no lent byte.
//
// A kind stays the byte that C keeps, as in `flat`.
#![tactic(auto)]

ghost use Rattle.std.specs.Prelude.{true, List, ◌≡◌, ℕ};
ghost use Rattle.mapper.specs.Mappers as mapper;
ghost use Rattle.cartridge.specs.Fit.{fit_cart};
ghost use Rattle.bus.specs.Bus as bus;
ghost use Rattle.bus.specs.Advance as advancing;
ghost use Rattle.states.specs.Layout.{encode_of};
ghost use Rattle.states.specs.Reading.{cart_in, mapper_at, cart_at};
ghost use Rattle.flat_write.specs.Calls.{wrote_by, write_state, wrote_of, state_written, area_written, passed_by, timed, advance_state, passed_of, state_advanced};

use access::{BusRefusal, Target};
use bytes_le::Field;
use clock::AdvanceRefusal;
use mapper::Mapper;
use no_mapper::NoMapper;
use states::{mbc1_in, mbc2_in, mbc5_in, timed_in, untimed_in};

// Whether a write selects what there is not: only an MBC3 has a selection.
fn bad_selection(kind: u8, addr: u16, byte: u8) -> bool
    ensures { (s : List ℕ) → result ≡ mapper.bad_selection (mapper_at s kind) addr byte }
{
    match kind {
        4 | 5 => mbc3::bad_selection(addr, byte),
        _ => false,
    }
}

// A byte written to the registers of a kind: a Mapper built here would be moved about and told apart again.
fn write_register(s: &mut [u8; 64], kind: u8, addr: u16, byte: u8)
    ensures { s.new ≡ encode_of (cart_in s.old (mapper.written (mapper_at s.old kind) addr byte)) }
{
    match kind {
        0 => states::put(s, NoMapper::new()),
        1 => {
            let m = mbc1_in(s, false);
            states::put(s, m.write_register(addr, byte));
        }
        2 => {
            let m = mbc1_in(s, true);
            states::put(s, m.write_register(addr, byte));
        }
        3 => {
            let m = mbc2_in(s);
            states::put(s, m.write_register(addr, byte));
        }
        4 => {
            let m = untimed_in(s);
            states::put(s, m.write_register(addr, byte));
        }
        5 => {
            let m = timed_in(s);
            states::put(s, m.write_register(addr, byte));
        }
        6 => {
            let m = mbc5_in(s);
            states::put(s, m.write_register(addr, byte));
        }
        _ => states::put(s, NoMapper::new()),
    }
}

fn write_fit(
    s: &mut [u8; 64],
    kind: u8,
    ram: &mut [u8],
    addr: u16,
    byte: u8,
) -> Result<(), BusRefusal>
    requires { fit_cart (cart_at s.old kind) ≡ true }
    ensures value { result ≡ wrote_by (bus.write_of (cart_at s.old kind) ram.old addr byte) }
    ensures s_after { s.new ≡ write_state s.old (bus.write_of (cart_at s.old kind) ram.old addr byte) }
    ensures ram_after { ram.new ≡ bus.area_after (cart_at s.old kind) ram.old addr byte }
{
    let lent = flat::is_area(s, kind, ram.len());
    let target = access::decide(true, lent, addr, bad_selection(kind, addr, byte))?;
    match target {
        Target::Rom => {
            write_register(s, kind, addr, byte);
            Ok(())
        }
        Target::Ram => {
            let size = u64::read(s, 24) as usize;
            let m = states::mapper_in(s, kind);
            states::put(s, window::write(m, size, ram, addr, byte));
            Ok(())
        }
    }
}

// A byte written to an address. Bytes that are no fit state are looked at no further.
pub fn write(s: &mut [u8; 64], ram: &mut [u8], addr: u16, byte: u8) -> Result<(), BusRefusal>
    ensures value { result ≡ wrote_of s.old ram.old addr byte }
    ensures s_after { s.new ≡ state_written s.old ram.old addr byte }
    ensures ram_after { ram.new ≡ area_written s.old ram.old addr byte }
{
    let kind = u8::read(s, 0);
    if !flat::fit(s, kind) {
        return Err(BusRefusal::Unfit);
    }
    write_fit(s, kind, ram, addr, byte)
}

fn advance_mapper(s: &mut [u8; 64], m: Mapper, n: u64) -> Result<(), AdvanceRefusal>
    requires { timed m ≡ true }
    ensures value { result ≡ passed_by (advancing.from_mapper (cart_in s.old m) (mapper.advance_of m n)) }
    ensures s_after { s.new ≡ advance_state s.old (advancing.from_mapper (cart_in s.old m) (mapper.advance_of m n)) }
{
    let next = m.advance(n)?;
    states::put(s, next);
    Ok(())
}

// n mapper clocks on. Of a state without a timer not a byte changes.
pub fn advance(s: &mut [u8; 64], n: u64) -> Result<(), AdvanceRefusal>
    ensures value { result ≡ passed_of s.old n }
    ensures s_after { s.new ≡ state_advanced s.old n }
{
    let kind = u8::read(s, 0);
    if !flat::fit(s, kind) {
        return Err(AdvanceRefusal::Unfit);
    }
    if kind != 5 {
        return Ok(());
    }
    let m = states::mapper_in(s, kind);
    advance_mapper(s, m, n)
}
