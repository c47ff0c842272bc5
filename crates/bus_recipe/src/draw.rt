// 64 accesses drawn by the recurrence x = 1664525 x + 1013904223 modulo 2^32, three numbers for each: the high bits of the first
// draw read or write and an eighth of the address space, those of the second the offset, those of the third the byte.

use super::steps::Step;

fn next(x: u32) -> u32 {
    ((x as u64 * 1664525 + 1013904223) % 0x1_0000_0000) as u32
}

#[derive(Clone, Copy)]
enum Kind {
    Read,
    Write,
}

// What is done, and the first address of the eighth.
const BASES: [(Kind, u16); 16] = [
    (Kind::Write, 0x0000),
    (Kind::Write, 0x2000),
    (Kind::Write, 0x2000),
    (Kind::Write, 0x4000),
    (Kind::Write, 0x4000),
    (Kind::Write, 0x6000),
    (Kind::Write, 0xA000),
    (Kind::Write, 0xA000),
    (Kind::Read, 0x0000),
    (Kind::Read, 0x2000),
    (Kind::Read, 0x4000),
    (Kind::Read, 0x4000),
    (Kind::Read, 0x6000),
    (Kind::Read, 0xA000),
    (Kind::Read, 0xA000),
    (Kind::Read, 0xA000),
];

// Half of the offsets are the first or the last.
fn offset(x: u32) -> u16 {
    match x / 0x40000000 {
        0 => 0,
        1 => 0x1FFF,
        _ => (x / 0x10000 % 0x2000) as u16,
    }
}

// Three of four bytes for the enable register enable. No selection that MBC3 refuses, no minute 60 and no hour 24 is drawn.
fn byte_for(addr: u16, b: u8) -> u8 {
    match addr {
        0..=0x1FFF => { if b < 0xC0 { 0x0A } else { b } }
        0x2000..=0x3FFF => b,
        0x4000..=0x7FFF => b & 0xFB,
        _ => b & 0xF7,
    }
}

fn drawn(x: u32, y: u32, z: u32) -> Step {
    let (kind, base) = BASES[(x / 0x10000000) as usize];
    let addr = base | offset(y);
    match kind {
        Kind::Read => Step::Read(addr),
        Kind::Write => Step::Write(addr, byte_for(addr, (z / 0x1000000) as u8)),
    }
}

pub fn steps(seed: u32) -> [Step; 64] {
    let mut out = [Step::Fill; 64];
    let mut z = seed;
    for step in &mut out {
        let x = next(z);
        let y = next(x);
        z = next(y);
        *step = drawn(x, y, z);
    }
    out
}
