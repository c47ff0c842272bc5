// The verdict on images of 0x8000 bytes and less. header_lines has the recipe of an image and says what a line tells.
#![tactic(auto)]

use header_lines::{Codes, build, cut, made, show};
use std::io;

// No mapper, 2 banks and no RAM.
const PLAIN: Codes = Codes {
    type_byte: 0x00,
    rom_code: 0x00,
    ram_code: 0x00,
};

// Every type byte with 2 banks and no RAM.
fn every_type(rt: &impl Print, image: &mut [u8], title: &[u8]) -> io::Result<()> {
    for type_byte in 0..=u8::MAX {
        made(rt, image, title, Codes { type_byte, ..PLAIN })?;
    }
    Ok(())
}

// An image cut after every byte from 0 to 0x150.
fn every_cut(rt: &impl Print, image: &[u8]) -> io::Result<()> {
    for n in 0..=0x150usize {
        cut(rt, image, n)?;
    }
    Ok(())
}

// None, two bytes of UTF-8 that end at the fifteenth, that are cut there, and 0x143, which is no title's byte.
// (utf8_vectors tries every pair of first bytes.)
fn titles(rt: &impl Print, image: &mut [u8]) -> io::Result<()> {
    made(rt, image, b"", PLAIN)?;
    made(rt, image, b"THIRTEEN BYTE\xc3\xa9", PLAIN)?;
    made(rt, image, b"FOURTEEN BYTES\xc3", PLAIN)?;
    made(rt, image, b"FIFTEEN BYTES A\x80", PLAIN)
}

fn zeros(rt: &impl Print, image: &mut [u8; 0x8000]) -> io::Result<()> {
    every_type(rt, image, b"TYPE")?;
    build::header(image, b"ts", PLAIN);
    every_cut(rt, image)?;
    titles(rt, image)
}

// The next test passes with each.
const CODES: [Codes; 5] = [
    Codes {
        type_byte: 0x0B,
        rom_code: 0xFF,
        ram_code: 0xFF,
    },
    Codes {
        type_byte: 0x0B,
        rom_code: 0x01,
        ram_code: 0xFF,
    },
    Codes {
        type_byte: 0x0B,
        rom_code: 0x00,
        ram_code: 0xFF,
    },
    Codes {
        type_byte: 0x0B,
        rom_code: 0x00,
        ram_code: 0x02,
    },
    Codes {
        type_byte: 0x0B,
        rom_code: 0x00,
        ram_code: 0x00,
    },
];

fn every_code(rt: &impl Print, image: &mut [u8]) -> io::Result<()> {
    for codes in CODES {
        build::codes(image, codes);
        show(rt, image)?;
    }
    Ok(())
}

// One image for each number from 2 on, in which every later test fails too where it can: 0xFF stands where nothing was put.
fn ones(rt: &impl Print, image: &mut [u8; 0x8000]) -> io::Result<()> {
    show(rt, image)?;
    build::logo(image, 0);
    show(rt, image)?;
    build::set(image, 0x134, 0);
    show(rt, image)?;
    every_code(rt, image)?;
    build::fix(image);
    show(rt, image)?;
    let codes = Codes {
        type_byte: 0x08,
        rom_code: 0x00,
        ram_code: 0x03,
    };
    made(rt, image, b"OK", codes)
}

fn main(rt: HostRuntime) -> io::Result<()> {
    let mut image = [0u8; 0x8000];
    zeros(&rt, &mut image)?;
    let mut other = [0xFFu8; 0x8000];
    ones(&rt, &mut other)
}
