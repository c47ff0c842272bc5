// One record of a replay: its access made to the bus, and its line written into lent room. A refused access has a line with its
// number, and nothing has changed.
#![tactic(auto)]

ghost use Rattle.std.specs.Prelude.{List, [], ℕ, ◌+◌, ◌*◌, ◌≤◌, length};
ghost use Rattle.bus.specs.Run.{reads, writes, clocks, step_of};
ghost use Rattle.trace.specs.Trace.{size_of};
ghost use Rattle.digits.specs.Put.{Put};
ghost use Rattle.lines.specs.Lines.{numbered};
ghost use Rattle.replay_step.specs.Step.{access_of, machine, Did};

use cartridge::Cartridge;
use trace::Record;

// How far a replay has come: the cartridge, and the place behind the text.
#[derive(Drop)]
pub struct Reached {
    pub cart: Cartridge,
    pub end: usize,
}

// The line of a refused access.
fn put_refused(room: &mut [u8], at: usize, number: u8) -> usize
    requires { at + 10 ≤ length room.old }
    ensures put { Put room.old at (numbered 88 number) room.new result }
    ensures upper_bound { result ≤ at + 10 }
{
    lines::put_numbered(room, at, b'X', number as u64)
}

fn read(cart: Cartridge, rom: &[u8], ram: &[u8], room: &mut [u8], at: usize, addr: u16) -> usize
    requires { at + 10 ≤ length room.old }
    ensures did { Did (step_of rom.now (machine cart ram.now) (reads addr)) (reads addr)
        room.old at (machine cart ram.now) room.new result }
    ensures upper_bound { result ≤ at + 10 }
{
    match bus::read(cart, rom, ram, addr) {
        Ok(byte) => lines::put_addressed(room, at, b'R', addr, byte),
        Err(why) => put_refused(room, at, why.number()),
    }
}

fn write(
    cart: Cartridge,
    ram: &mut [u8],
    room: &mut [u8],
    at: usize,
    addr: u16,
    byte: u8,
) -> Reached
    requires { at + 10 ≤ length room.old }
    ensures did { Did (step_of [] (machine cart ram.old) (writes addr byte)) (writes addr byte)
        room.old at (machine result.cart ram.new) room.new result.end }
    ensures end_bound { result.end ≤ at + 10 }
{
    match bus::write(cart, ram, addr, byte) {
        Ok(next) => Reached {
            cart: next,
            end: lines::put_addressed(room, at, b'W', addr, byte),
        },
        Err(why) => Reached {
            cart,
            end: put_refused(room, at, why.number()),
        },
    }
}

fn advance(cart: Cartridge, room: &mut [u8], at: usize, count: u32) -> Reached
    requires { at + 13 ≤ length room.old }
    ensures by_index { (area : List ℕ) → Did (step_of [] (machine cart area) (clocks count)) (clocks count)
        room.old at (machine result.cart area) room.new result.end }
    ensures end_bound { result.end ≤ at + 13 }
{
    match bus::advance(cart, count as u64) {
        Ok(next) => Reached {
            cart: next,
            end: lines::put_numbered(room, at, b'C', count as u64),
        },
        Err(why) => Reached {
            cart,
            end: put_refused(room, at, why.number()),
        },
    }
}

// One record's access, and its line.
pub fn step(
    cart: Cartridge,
    rom: &[u8],
    ram: &mut [u8],
    room: &mut [u8],
    at: usize,
    asked: Record,
) -> Reached
    requires { at + 13 ≤ length room.old }
    ensures did { Did (step_of rom.now (machine cart ram.old) (access_of asked)) (access_of asked)
        room.old at (machine result.cart ram.new) room.new result.end }
    ensures end_bound { 2 * result.end ≤ 2 * at + 5 * size_of asked }
{
    match asked {
        Record::Read { addr } => Reached {
            cart,
            end: read(cart, rom, ram, room, at, addr),
        },
        Record::Write { addr, byte } => write(cart, ram, room, at, addr, byte),
        Record::Clocks { count } => advance(cart, room, at, count),
    }
}
