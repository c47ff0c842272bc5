// A cartridge as 64 bytes, for callers that keep it between calls. state_fields has the place of every field. What the mapper does not
// use, and what no field has, is written as zero and not looked at; specs/Layout.antt says which bytes these are.
#![tactic(auto)]

ghost use Rattle.std.specs.Prelude.{◌≡◌, ◌≤◌, length, replicate};
ghost use Rattle.mapper.specs.declared.Mapper.{Mapper};
ghost use Rattle.mapper.specs.declared.Mapper.TheVariants as by;
ghost use Rattle.state_fields.specs.Fields.{stored, are_flags};
ghost use Rattle.states.specs.Layout.{board_of, registers, mapper as fields, kind_of, encode_of};
ghost use Rattle.states.specs.Reading.{flags_of, mbc1_in, mbc2_in, mbc3_in, untimed_in, timed_in, mbc5_in, cleared, cart_in, mapper_at, decode_of};

use bytes_le::Field;
use cartridge::Cartridge;
use clock::Clock;
use facts::both;
use mapper::Mapper;
use mbc1::Mbc1;
use mbc2::Mbc2;
use mbc3::Mbc3;
use mbc5::Mbc5;
use no_mapper::NoMapper;
use state_fields::{are_clock_flags, clock_in, flag_at, is_flag, put_clock, put_flag};

// Bytes of a state.
pub const STATE_SIZE: usize = 64;

// A mapper as a state keeps it: its kind, and its registers at their places.
pub trait Kept: Copy {
    // The mapper that it is.
    ghost mapper: { Self → Mapper };

    fn kind(self) -> u8
        ensures { result ≡ kind_of (mapper self) };

    fn put_fields(self, s: &mut [u8; 64])
        ensures { s.new ≡ stored (fields (mapper self)) s.old };
}

// What was mounted, and zeroes else.
fn put_board(s: &mut [u8; 64], kind: u8, battery: bool, banks: u16, image: u64, size: u64)
    ensures { s.new ≡ stored (board_of kind battery banks image size) (replicate 64 0) }
{
    *s = [0; 64];
    u8::write(s, 0, kind);
    put_flag(s, 1, battery);
    u16::write(s, 8, banks);
    u64::write(s, 16, image);
    u64::write(s, 24, size);
}

fn put_registers(s: &mut [u8; 64], enabled: bool, mode: bool, bank: u16, ram: u8, register: u8)
    ensures { s.new ≡ stored (registers enabled mode bank ram register) s.old }
{
    put_flag(s, 2, enabled);
    put_flag(s, 3, mode);
    u16::write(s, 4, bank);
    u8::write(s, 6, ram);
    u8::write(s, 7, register);
}

impl Kept for NoMapper {
    ghost mapper = { by.NoMapper };

    fn kind(self) -> u8 {
        0
    }

    // There is no register.
    fn put_fields(self, s: &mut [u8; 64]) {}
}

impl Kept for Mbc1 {
    ghost mapper = { by.Mbc1 };

    fn kind(self) -> u8 {
        if self.multicart {
            return 2;
        }
        1
    }

    fn put_fields(self, s: &mut [u8; 64]) {
        put_registers(s, self.enabled, self.mode, self.low as u16, self.two, 0);
    }
}

impl Kept for Mbc2 {
    ghost mapper = { by.Mbc2 };

    fn kind(self) -> u8 {
        3
    }

    fn put_fields(self, s: &mut [u8; 64]) {
        put_registers(s, self.enabled, false, self.bank as u16, 0, 0);
    }
}

impl Kept for Mbc3 {
    ghost mapper = { by.Mbc3 };

    fn kind(self) -> u8 {
        if self.timer {
            return 5;
        }
        4
    }

    fn put_fields(self, s: &mut [u8; 64]) {
        if self.timer {
            put_registers(
                s,
                self.enabled,
                self.memory,
                self.bank as u16,
                self.ram,
                self.register,
            );
            put_clock(s, self.clock);
            return;
        }
        put_registers(s, self.enabled, self.memory, self.bank as u16, self.ram, 0);
    }
}

impl Kept for Mbc5 {
    ghost mapper = { by.Mbc5 };

    fn kind(self) -> u8 {
        6
    }

    fn put_fields(self, s: &mut [u8; 64]) {
        put_registers(s, self.enabled, false, self.bank, self.ram, 0);
    }
}

// The one that is in it.
impl Kept for Mapper {
    ghost mapper = { λ m. m };

    fn kind(self) -> u8 {
        match self {
            Mapper::NoMapper(none) => none.kind(),
            Mapper::Mbc1(mbc1) => mbc1.kind(),
            Mapper::Mbc2(mbc2) => mbc2.kind(),
            Mapper::Mbc3(mbc3) => mbc3.kind(),
            Mapper::Mbc5(mbc5) => mbc5.kind(),
        }
    }

    fn put_fields(self, s: &mut [u8; 64]) {
        match self {
            Mapper::NoMapper(none) => none.put_fields(s),
            Mapper::Mbc1(mbc1) => mbc1.put_fields(s),
            Mapper::Mbc2(mbc2) => mbc2.put_fields(s),
            Mapper::Mbc3(mbc3) => mbc3.put_fields(s),
            Mapper::Mbc5(mbc5) => mbc5.put_fields(s),
        }
    }
}

// Writes a cartridge as the 64 bytes of its state.
pub fn encode(cart: Cartridge, s: &mut [u8; 64])
    ensures { s.new ≡ encode_of cart }
{
    let m = cart.mapper;
    put_board(
        s,
        m.kind(),
        cart.battery,
        cart.banks,
        cart.length as u64,
        cart.size as u64,
    );
    m.put_fields(s);
}

// What was mounted stays where it is, and the rest is zero.
fn clear(s: &mut [u8; 64], kind: u8)
    ensures { s.new ≡ cleared s.old kind }
{
    let battery = flag_at(s, 1);
    let banks = u16::read(s, 8);
    let image = u64::read(s, 16);
    let size = u64::read(s, 24);
    put_board(s, kind, battery, banks, image, size);
}

// A mapper written into a state; what was mounted stays.
pub fn put<M: Kept>(s: &mut [u8; 64], m: M)
    ensures { s.new ≡ encode_of (cart_in s.old (M.mapper m)) }
{
    clear(s, m.kind());
    m.put_fields(s);
}

// Whether every flag that this kind of cartridge uses is one.
pub fn are_flags(s: &[u8], kind: u8) -> bool
    requires { 64 ≤ length s.now }
    ensures { result ≡ are_flags s.now (flags_of kind) }
{
    let one = is_flag(s, 1);
    let two = both(one, is_flag(s, 2));
    let three = both(two, is_flag(s, 3));
    match kind {
        0 => one,
        1 => three,
        2 => three,
        3 => two,
        4 => three,
        5 => both(three, are_clock_flags(s)),
        6 => two,
        _ => true,
    }
}

pub fn mbc1_in(s: &[u8], multicart: bool) -> Mbc1
    requires { 64 ≤ length s.now }
    ensures { result ≡ mbc1_in s.now multicart }
{
    Mbc1 {
        multicart,
        enabled: flag_at(s, 2),
        mode: flag_at(s, 3),
        low: u8::read(s, 4),
        two: u8::read(s, 6),
    }
}

pub fn mbc2_in(s: &[u8]) -> Mbc2
    requires { 64 ≤ length s.now }
    ensures { result ≡ mbc2_in s.now }
{
    Mbc2 {
        enabled: flag_at(s, 2),
        bank: u8::read(s, 4),
    }
}

// An MBC3 with this clock and this register of it selected.
fn mbc3_in(s: &[u8], timer: bool, register: u8, clock: Clock) -> Mbc3
    requires { 64 ≤ length s.now }
    ensures { result ≡ mbc3_in s.now timer register clock }
{
    Mbc3 {
        timer,
        enabled: flag_at(s, 2),
        bank: u8::read(s, 4),
        memory: flag_at(s, 3),
        ram: u8::read(s, 6),
        register,
        clock,
    }
}

// Without a timer the clock and its selection are not looked at.
pub fn untimed_in(s: &[u8]) -> Mbc3
    requires { 64 ≤ length s.now }
    ensures { result ≡ untimed_in s.now }
{
    mbc3_in(s, false, 0, Clock::new(0))
}

pub fn timed_in(s: &[u8]) -> Mbc3
    requires { 64 ≤ length s.now }
    ensures { result ≡ timed_in s.now }
{
    mbc3_in(s, true, u8::read(s, 7), clock_in(s))
}

pub fn mbc5_in(s: &[u8]) -> Mbc5
    requires { 64 ≤ length s.now }
    ensures { result ≡ mbc5_in s.now }
{
    Mbc5 {
        enabled: flag_at(s, 2),
        bank: u16::read(s, 4),
        ram: u8::read(s, 6),
    }
}

fn cart_in(s: &[u8; 64], mapper: Mapper) -> Cartridge
    ensures { result ≡ cart_in s.now mapper }
{
    Cartridge {
        length: u64::read(s, 16) as usize,
        banks: u16::read(s, 8),
        size: u64::read(s, 24) as usize,
        battery: flag_at(s, 1),
        mapper,
    }
}

// The mapper alone, for a call that needs no more of the cartridge.
pub fn mapper_in(s: &[u8], kind: u8) -> Mapper
    requires { 64 ≤ length s.now }
    ensures { result ≡ mapper_at s.now kind }
{
    match kind {
        0 => Mapper::NoMapper(NoMapper::new()),
        1 => Mapper::Mbc1(mbc1_in(s, false)),
        2 => Mapper::Mbc1(mbc1_in(s, true)),
        3 => Mapper::Mbc2(mbc2_in(s)),
        4 => Mapper::Mbc3(untimed_in(s)),
        5 => Mapper::Mbc3(timed_in(s)),
        6 => Mapper::Mbc5(mbc5_in(s)),
        _ => Mapper::NoMapper(NoMapper::new()),
    }
}

// The cartridge that 64 bytes stand for: none where the kind is unknown, or a flag is neither 0 nor 1. Whether it is fit is for the calls
// to ask.
pub fn decode(s: &[u8; 64]) -> Option<Cartridge>
    ensures { result ≡ decode_of s.now }
{
    let kind = u8::read(s, 0);
    if both(are_flags(s, kind), kind < 7) {
        return Some(cart_in(s, mapper_in(s, kind)));
    }
    None
}
