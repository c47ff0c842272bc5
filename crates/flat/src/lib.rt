// What a call needs, straight from the bytes of a state. No cartridge is built: each function looks at the bytes of the state's kind,
// and answers as the cartridge would that they are.
//
// A kind is the first byte of a state that C keeps, and stays a byte: the functions here answer for every byte, also one that is no kind.
#![tactic(auto)]

ghost use Rattle.std.specs.Prelude.{true, false, not, ◌≡◌, ◌+◌, ◌≤◌, eqb, length, Err};
ghost use Rattle.facts.specs.Choice.{both};
ghost use Rattle.bytes_le.specs.Little.{field_at};
ghost use Rattle.types.specs.Types.{beyond_of};
ghost use Rattle.clock.specs.Fit.{fit_clock};
ghost use Rattle.mbc1.specs.Registers as mbc1;
ghost use Rattle.mbc3.specs.Registers as mbc3;
ghost use Rattle.mapper.specs.Mappers as mapper;
ghost use Rattle.mapper.specs.declared.Mapper.TheVariants as by;
ghost use Rattle.window.specs.Window as window;
ghost use Rattle.cartridge.specs.Fit.{fit_cart, area_of};
ghost use Rattle.access.specs.declared.BusRefusal.TheVariants.{Unfit};
ghost use Rattle.bus.specs.Bus as bus;
ghost use Rattle.state_fields.specs.Fields.{are_flags};
ghost use Rattle.state_fields.specs.ClockFields.{clock_in};
ghost use Rattle.states.specs.Reading.{flags_of, mbc1_in, timed_in, mapper_at, cart_at, decode_of};
ghost use Rattle.states.specs.OnState.{on_state};
ghost use Rattle.flat.specs.Kinds.{fit_kind, fit_at};

use access::{BusRefusal, Target};
use bytes_le::Field;
use facts::both;
use mapper::Mapper;
use mbc2::Mbc2;
use mbc3::Mbc3;
use no_mapper::NoMapper;
use state_fields::fit_clock_registers;
use states::{mbc1_in, mbc2_in, mbc5_in, timed_in, untimed_in};
use types::Kind;

fn fit_clock(s: &[u8; 64]) -> bool
    ensures { result ≡ fit_clock (clock_in s.now) }
{
    let frozen = both(fit_clock_registers(s, 52), u32::read(s, 40) < 2097152);
    both(fit_clock_registers(s, 45), frozen)
}

// An MBC3 with a timer: what one without is asked, and its clock.
fn fit_timed(s: &[u8; 64]) -> bool
    ensures { result ≡ mbc3.fit_registers (timed_in s.now) }
{
    let clock = both(u8::read(s, 7) <= 4, fit_clock(s));
    both(untimed_in(s).fit(), clock)
}

// Whether the flags of a kind are flags, and what was mounted is within its limits; asked is what else the kind wants.
fn fits(s: &[u8; 64], kind: u8, limits: Kind, rest: bool) -> bool
    ensures { result ≡ both (both (are_flags s.now (flags_of kind)) (not (beyond_of limits (field_at 2 s.now 8) (field_at 8 s.now 24)))) rest }
{
    let banks = u16::read(s, 8) as u32;
    let size = u64::read(s, 24) as usize;
    let held = both(
        states::are_flags(s, kind),
        !types::is_beyond(limits, banks, size),
    );
    both(held, rest)
}

// A multicart has 64 banks.
fn fit_multicart(s: &[u8; 64]) -> bool
    ensures { result ≡ both (eqb (field_at 2 s.now 8) 64) (mbc1.fit_registers (mbc1_in s.now true)) }
{
    both(u16::read(s, 8) == 64, mbc1_in(s, true).fit())
}

// What a kind asks of the bytes, its registers among it.
fn fit_kind(s: &[u8; 64], kind: u8) -> bool
    ensures { result ≡ fit_kind s.now kind }
{
    match kind {
        0 => fits(s, 0, Kind::NoMapper, true),
        1 => fits(s, 1, Kind::Mbc1, mbc1_in(s, false).fit()),
        2 => fits(s, 2, Kind::Mbc1, fit_multicart(s)),
        3 => fits(s, 3, Kind::Mbc2, mbc2_in(s).fit()),
        4 => fits(s, 4, Kind::Mbc3 { timer: false }, untimed_in(s).fit()),
        5 => fits(s, 5, Kind::Mbc3 { timer: true }, fit_timed(s)),
        6 => fits(s, 6, Kind::Mbc5 { rumble: false }, mbc5_in(s).fit()),
        _ => false,
    }
}

// Whether the bytes, of the kind that the first of them says, are a fit state.
pub fn fit(s: &[u8; 64], kind: u8) -> bool
    ensures { result ≡ fit_at s.now kind }
{
    let banks = u16::read(s, 8);
    if !cartridge::is_bank_count(banks) {
        return false;
    }
    if !cartridge::fills(u64::read(s, 16) as usize, banks) {
        return false;
    }
    if !cartridge::is_ram_size(u64::read(s, 24) as usize) {
        return false;
    }
    fit_kind(s, kind)
}

// Whether a RAM area of this length goes with the state.
pub fn is_area(s: &[u8], kind: u8, len: usize) -> bool
    requires { 64 ≤ length s.now }
    ensures { result ≡ eqb len (area_of (cart_at s.now kind)) }
{
    let size = u64::read(s, 24) as usize;
    if kind == 3 {
        return Mapper::Mbc2(mbc2_in(s)).is_area(size, len);
    }
    len == size
}

// Whether an image and an area of these lengths go with it.
fn lent(s: &[u8; 64], kind: u8, image: usize, ram: usize) -> bool
    ensures { result ≡ bus.lent_both (cart_at s.now kind) image ram }
{
    let length = u64::read(s, 16) as usize;
    both(image == length, is_area(s, kind, ram))
}

pub fn bank_0(s: &[u8], kind: u8) -> u16
    requires in_bounds { 64 ≤ length s.now }
    requires kind_value { mapper.fit_registers (mapper_at s.now kind) ≡ true }
    ensures { result ≡ mapper.bank0 (mapper_at s.now kind) }
{
    match kind {
        1 => mbc1_in(s, false).bank_0(),
        2 => mbc1_in(s, true).bank_0(),
        _ => 0,
    }
}

pub fn bank_x(s: &[u8], kind: u8) -> u16
    requires in_bounds { 64 ≤ length s.now }
    requires kind_value { mapper.fit_registers (mapper_at s.now kind) ≡ true }
    ensures { result ≡ mapper.bank_x (mapper_at s.now kind) }
{
    match kind {
        0 => NoMapper::new().bank_x(),
        1 => mbc1_in(s, false).bank_x(),
        2 => mbc1_in(s, true).bank_x(),
        3 => mbc2_in(s).bank_x(),
        4 => untimed_in(s).bank_x(),
        5 => timed_in(s).bank_x(),
        6 => mbc5_in(s).bank_x(),
        _ => NoMapper::new().bank_x(),
    }
}

fn bank_at(s: &[u8; 64], kind: u8, addr: u16) -> u16
    requires { mapper.fit_registers (mapper_at s.now kind) ≡ true }
    ensures { result ≡ mapper.bank_at (mapper_at s.now kind) addr }
{
    if addr < 0x4000 {
        bank_0(s, kind)
    } else {
        bank_x(s, kind)
    }
}

fn rom_byte(s: &[u8; 64], kind: u8, image: &[u8], addr: u16) -> u8
    requires { fit_cart (cart_at s.now kind) ≡ true }
    ensures { result ≡ bus.rom_byte (cart_at s.now kind) image.now addr }
{
    let banks = u16::read(s, 8);
    let bank = bank_at(s, kind, addr);
    image::byte_at(image, banking::rom_place(banks, bank, addr))
}

// The half-bytes stand behind the header's RAM.
fn half_byte(m: Mbc2, size: usize, ram: &[u8], addr: u16) -> u8
    requires { length ram.now ≡ size + 512 }
    ensures { result ≡ window.read_of (by.Mbc2 m) size ram.now addr }
{
    m.read_half(&ram[size..], addr)
}

// Without a timer nothing stands where RAM is not selected. It is asked apart from the timed kind, whose clock is then read in place.
fn untimed_byte(m: Mbc3, size: usize, ram: &[u8], addr: u16) -> u8
    requires ram_len { length ram.now ≡ size }
    requires timer_value { m.timer ≡ false }
    ensures { result ≡ window.read_of (by.Mbc3 m) size ram.now addr }
{
    if m.memory {
        return window::load(ram, m.ram_at(size, addr));
    }
    0xFF
}

// The RAM bank, or what stands where RAM is not selected.
fn timed_byte(m: Mbc3, size: usize, ram: &[u8], addr: u16) -> u8
    requires { length ram.now ≡ size }
    ensures { result ≡ window.read_of (by.Mbc3 m) size ram.now addr }
{
    if m.memory {
        return window::load(ram, m.ram_at(size, addr));
    }
    timer::read(m)
}

fn ram_byte(s: &[u8; 64], kind: u8, ram: &[u8], addr: u16) -> u8
    requires { length ram.now ≡ area_of (cart_at s.now kind) }
    ensures { result ≡ window.read_of (mapper_at s.now kind) (field_at 8 s.now 24) ram.now addr }
{
    let size = u64::read(s, 24) as usize;
    match kind {
        0 => window::load(ram, NoMapper::new().ram_at(size, addr)),
        1 => window::load(ram, mbc1_in(s, false).ram_at(size, addr)),
        2 => window::load(ram, mbc1_in(s, true).ram_at(size, addr)),
        3 => half_byte(mbc2_in(s), size, ram, addr),
        4 => untimed_byte(untimed_in(s), size, ram, addr),
        5 => timed_byte(timed_in(s), size, ram, addr),
        6 => window::load(ram, mbc5_in(s).ram_at(size, addr)),
        _ => window::load(ram, NoMapper::new().ram_at(size, addr)),
    }
}

// What an address reads, of bytes that are a state; others are as one that is unfit, and are looked at no further.
pub fn read(s: &[u8; 64], image: &[u8], ram: &[u8], addr: u16) -> Result<u8, BusRefusal>
    ensures { result ≡ on_state (λ c. bus.read_of c image.now ram.now addr) (Err Unfit) (decode_of s.now) }
{
    let kind = u8::read(s, 0);
    if !fit(s, kind) {
        return Err(BusRefusal::Unfit);
    }
    let lent = lent(s, kind, image.len(), ram.len());
    let target = access::decide(true, lent, addr, false)?;
    match target {
        Target::Rom => Ok(rom_byte(s, kind, image, addr)),
        Target::Ram => Ok(ram_byte(s, kind, ram, addr)),
    }
}
