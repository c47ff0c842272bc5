// What is printed of a save: `S` its length and sum, `T` its last 25 bytes, which are a clock's block and four bytes of RAM, `E`
// four bytes of the room beyond. `B` is how many bytes are read, `L` the wall time of a reading and its answer, `A` the sum of
// the RAM area.
#![tactic(auto)]

use bus_lines::{field, number};
use bus_recipe::build;
use cartridge::Cartridge;
use std::io;

// A room for every save here, with bytes that no save puts there unasked.
pub fn room() -> [u8; 0x20240] {
    [0xEE; 0x20240]
}

// The same with a mix of its place in each byte, moved behind the places of an image and of a RAM area.
pub fn mixed_room() -> [u8; 0x20240] {
    let mut out = room();
    for i in 0..0x20240usize {
        out[i] = build::mixed(i + 0x900000);
    }
    out
}

// Nothing, where there is no such part.
pub fn part(bytes: &[u8], from: usize, to: usize) -> &[u8] {
    let start: usize = 0;
    if bytes.len() < to {
        return &bytes[start..start];
    }
    if to < from {
        return &bytes[start..start];
    }
    &bytes[from..to]
}

// A letter and two numbers.
pub fn pair(rt: &impl Print, letter: &[u8], m: u64, n: u64) -> io::Result<()> {
    rt.write_all(letter)?;
    field(rt, m)?;
    field(rt, n)?;
    println!(rt)
}

fn row(rt: &impl Print, letter: &[u8], bytes: &[u8]) -> io::Result<()> {
    rt.write_all(letter)?;
    bus_lines::hex(rt, bytes)?;
    println!(rt)
}

fn tail(rt: &impl Print, room: &[u8], n: usize) -> io::Result<()> {
    let mut from: usize = 0;
    if 25 < n {
        from = n - 25;
    }
    row(rt, b"T", part(room, from, n))
}

fn beyond(rt: &impl Print, room: &[u8], n: usize) -> io::Result<()> {
    if room.len() < n {
        return Ok(());
    }
    let mut to = room.len();
    if 4 < to - n {
        to = n + 4;
    }
    row(rt, b"E", part(room, n, to))
}

// The save of a cartridge at this wall time, and its length.
pub fn save(
    rt: &impl Print,
    cart: Cartridge,
    ram: &[u8],
    room: &mut [u8],
    wall: u64,
) -> io::Result<usize> {
    match save_file::save(cart, ram, room, wall) {
        Ok(n) => {
            pair(rt, b"S", n as u64, bus_lines::sum(part(room, 0, n)))?;
            tail(rt, room, n)?;
            beyond(rt, room, n)?;
            Ok(n)
        }
        Err(why) => {
            number(rt, b'X', why.number() as u64)?;
            Ok(0)
        }
    }
}

// The area, and the tail of what is saved at this wall time.
pub fn kept(rt: &impl Print, cart: Cartridge, ram: &[u8], wall: u64) -> io::Result<()> {
    number(rt, b'A', bus_lines::sum(ram))?;
    let mut room = room();
    match save_file::save(cart, ram, &mut room, wall) {
        Ok(n) => tail(rt, &room, n),
        Err(why) => number(rt, b'X', why.number() as u64),
    }
}

// A save read at this wall time, and the cartridge for what follows.
pub fn load(
    rt: &impl Print,
    cart: Cartridge,
    ram: &mut [u8],
    save: &[u8],
    wall: u64,
) -> io::Result<Cartridge> {
    print!(rt; "L")?;
    field(rt, wall)?;
    match save_file::load(cart, ram, save, wall) {
        Ok(Some(next)) => {
            println!(rt; " whole")?;
            Ok(next)
        }
        Ok(None) => {
            println!(rt; " RAM only")?;
            Ok(cart)
        }
        Err(why) => {
            print!(rt; " X")?;
            field(rt, why.number() as u64)?;
            println!(rt)?;
            Ok(cart)
        }
    }
}

// Saved into these bytes with n bytes of RAM, and read from them; then the sum of the whole RAM and of the bytes.
pub fn both(
    rt: &impl Print,
    cart: Cartridge,
    ram: &mut [u8],
    n: usize,
    bytes: &mut [u8],
) -> io::Result<()> {
    if ram.len() < n {
        return Ok(());
    }
    save(rt, cart, &ram[..n], bytes, 1000)?;
    load(rt, cart, &mut ram[..n], bytes, 1000)?;
    pair(rt, b"A", bus_lines::sum(ram), bus_lines::sum(bytes))
}
