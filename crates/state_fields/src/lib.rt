// The fields of a state: flags at a place, what was mounted and a clock at their own.
#![tactic(auto)]

ghost use Rattle.std.specs.Prelude.{List, ◌≡◌, ◌+◌, ◌≤◌, length};
ghost use Rattle.facts.specs.Choice.{bit};
ghost use Rattle.bytes_le.specs.Little.{put_at};
ghost use Rattle.clock_registers.specs.Fit.{fit_registers};
ghost use Rattle.state_fields.specs.Fields.{stored, flag_at, is_flag, are_flags};
ghost use Rattle.state_fields.specs.ClockFields.{clock_registers, clock, register_flags, clock_flags, registers_in, clock_in};
ghost use Rattle.state_fields.specs.Limits.{Part, span, within, mask_of};

use bytes_le::Field;
use clock::Clock;
use clock_registers::Registers;
use facts::both;

// A flag as 0 or 1.
pub fn put_flag(s: &mut [u8], at: usize, flag: bool)
    requires { at + 1 ≤ length s.old }
    ensures { s.new ≡ put_at 1 s.old at (bit flag) }
{
    u8::write(s, at, flag as u8);
}

// Whether it is 1.
pub fn flag_at(s: &[u8], at: usize) -> bool
    requires { at + 1 ≤ length s.now }
    ensures { result ≡ flag_at s.now at }
{
    u8::read(s, at) == 1
}

// Whether the byte at a place is 0 or 1.
pub fn is_flag(s: &[u8], at: usize) -> bool
    requires { at + 1 ≤ length s.now }
    ensures { result ≡ is_flag s.now at }
{
    u8::read(s, at) <= 1
}

// The registers of a clock, seven bytes from a place on.
fn put_clock_registers(s: &mut [u8], at: usize, r: Registers)
    requires { at + 7 ≤ length s.old }
    ensures { s.new ≡ stored (clock_registers at r) s.old }
{
    u8::write(s, at, r.second);
    u8::write(s, at + 1, r.minute);
    u8::write(s, at + 2, r.hour);
    u16::write(s, at + 3, r.day);
    put_flag(s, at + 5, r.halt);
    put_flag(s, at + 6, r.carry);
}

// A clock.
pub fn put_clock(s: &mut [u8], k: Clock)
    requires { 64 ≤ length s.old }
    ensures { s.new ≡ stored (clock k) s.old }
{
    let running = k.running;
    let frozen = k.frozen;
    u64::write(s, 32, k.time);
    u32::write(s, 40, k.sub);
    put_flag(s, 44, k.latched);
    put_clock_registers(s, 45, running);
    put_clock_registers(s, 52, frozen);
}

fn clock_registers_in(s: &[u8], at: usize) -> Registers
    requires { at + 7 ≤ length s.now }
    ensures { result ≡ registers_in s.now at }
{
    Registers {
        second: u8::read(s, at),
        minute: u8::read(s, at + 1),
        hour: u8::read(s, at + 2),
        day: u16::read(s, at + 3),
        halt: flag_at(s, at + 5),
        carry: flag_at(s, at + 6),
    }
}

// The clock that stands there.
pub fn clock_in(s: &[u8]) -> Clock
    requires { 64 ≤ length s.now }
    ensures { result ≡ clock_in s.now }
{
    let running = clock_registers_in(s, 45);
    let frozen = clock_registers_in(s, 52);
    Clock {
        running,
        sub: u32::read(s, 40),
        time: u64::read(s, 32),
        latched: flag_at(s, 44),
        frozen,
    }
}

// Whether eight bytes have none of a mask's bits: so each number among them has no more bits than it may, in one test.
fn is_within(s: &[u8], at: usize, mask: u64) -> bool
    requires { at + 8 ≤ length s.now }
    ensures { (ps : List Part) → span ps ≡ 8 → mask_of ps ≡ mask → result ≡ within s.now at ps }
{
    u64::read(s, at) & mask == 0
}

// Whether halt and carry, the sixth of its bytes and the seventh, are 0 or 1.
fn are_register_flags(s: &[u8], at: usize) -> bool
    requires { at + 8 ≤ length s.now }
    ensures { result ≡ are_flags s.now (register_flags at) }
{
    is_within(s, at, 0x00FE_FE00_0000_0000)
}

// Whether each flag of a clock is 0 or 1.
pub fn are_clock_flags(s: &[u8]) -> bool
    requires { 64 ≤ length s.now }
    ensures { result ≡ are_flags s.now clock_flags }
{
    both(
        is_flag(s, 44),
        both(are_register_flags(s, 45), are_register_flags(s, 52)),
    )
}

// Whether the registers of a clock that stand at a place are fit: six bits of second and of minute, five of hour, nine of day.
pub fn fit_clock_registers(s: &[u8], at: usize) -> bool
    requires { at + 8 ≤ length s.now }
    ensures { result ≡ fit_registers (registers_in s.now at) }
{
    is_within(s, at, 0x0000_00FE_00E0_C0C0)
}
