// The verdict on images of many sizes, up to 8,388,608 bytes and one more. header_lines has the recipe of an image and says what
// a line tells.
#![tactic(auto)]

use header_lines::{Codes, build, cut, made, show};
use std::io;

fn sized(rt: &impl Print, image: &mut [u8], length: usize, codes: Codes) -> io::Result<()> {
    if length <= image.len() {
        made(rt, &mut image[..length], b"SIZE", codes)?;
    }
    Ok(())
}

// Length, type byte, ROM code and RAM code.
const SIZES: [(usize, u8, u8, u8); 30] = [
    // A byte too many.
    (0x800001, 0x19, 0x08, 0x00),
    // 512 banks: equal, mended by 128, not by 256, beyond MBC3, MBC1, MBC2 and no mapper.
    (0x800000, 0x19, 0x08, 0x00),
    (0x800000, 0x19, 0x01, 0x00),
    (0x800000, 0x19, 0x00, 0x00),
    (0x800000, 0x13, 0x08, 0x00),
    (0x800000, 0x03, 0x08, 0x00),
    (0x800000, 0x06, 0x08, 0x00),
    (0x800000, 0x00, 0x08, 0x00),
    // A byte less, and a single byte in the last bank, padded to as many.
    (0x7FFFFF, 0x19, 0x08, 0x00),
    (0x7FC001, 0x19, 0x08, 0x00),
    // 511 banks.
    (0x7FC000, 0x19, 0x08, 0x00),
    // 256 banks: equal, mended by 128, by 64, named too large, beyond MBC1 and MBC2.
    (0x400000, 0x19, 0x07, 0x00),
    (0x400000, 0x19, 0x00, 0x00),
    (0x400000, 0x19, 0x01, 0x00),
    (0x400000, 0x19, 0x08, 0x00),
    (0x400000, 0x01, 0x07, 0x00),
    (0x400000, 0x05, 0x07, 0x00),
    // 128 banks, and a byte more.
    (0x200000, 0x01, 0x06, 0x00),
    (0x200001, 0x01, 0x06, 0x00),
    // Six banks.
    (0x18000, 0x01, 0x01, 0x00),
    // Four without a mapper.
    (0x10000, 0x00, 0x01, 0x00),
    // 16 on MBC2.
    (0x40000, 0x06, 0x03, 0x00),
    // Three banks.
    (0x8001, 0x13, 0x00, 0x00),
    // Each RAM code on a type with RAM, and code 6.
    (0x8000, 0x03, 0x00, 0x00),
    (0x8000, 0x03, 0x00, 0x01),
    (0x8000, 0x03, 0x00, 0x02),
    (0x8000, 0x03, 0x00, 0x03),
    (0x8000, 0x03, 0x00, 0x04),
    (0x8000, 0x03, 0x00, 0x05),
    (0x8000, 0x03, 0x00, 0x06),
];

fn every_size(rt: &impl Print, image: &mut [u8]) -> io::Result<()> {
    for (length, type_byte, rom_code, ram_code) in SIZES {
        let codes = Codes {
            type_byte,
            rom_code,
            ram_code,
        };
        sized(rt, image, length, codes)?;
    }
    Ok(())
}

// 64 banks of an MBC1.
const MULTICART: Codes = Codes {
    type_byte: 0x01,
    rom_code: 0x05,
    ram_code: 0x00,
};

// The logos of the other quarters, one byte of them broken.
fn broken(rt: &impl Print, image: &mut [u8], place: usize) -> io::Result<()> {
    build::logo(image, 1);
    build::logo(image, 2);
    build::logo(image, 3);
    build::set(image, place, 0);
    sized(rt, image, 0x100000, MULTICART)
}

// Each later quarter broken, none (the byte behind a logo), another kind, a byte less, and a bank less.
fn quarters(rt: &impl Print, image: &mut [u8]) -> io::Result<()> {
    broken(rt, image, 0x40104)?;
    broken(rt, image, 0x80120)?;
    broken(rt, image, 0xC0133)?;
    broken(rt, image, 0xC0134)?;
    let mbc5 = Codes {
        type_byte: 0x19,
        ..MULTICART
    };
    sized(rt, image, 0x100000, mbc5)?;
    sized(rt, image, 0xFFFFF, MULTICART)?;
    sized(rt, image, 0xFC000, MULTICART)
}

// A header in which every later test fails too where it can, with the byte too many and without it.
fn spoilt(rt: &impl Print, image: &mut [u8]) -> io::Result<()> {
    build::put(image, 0x104, &[0xFF; 0x4C]);
    show(rt, image)?;
    cut(rt, image, 0x800000)
}

fn all(rt: &impl Print, image: &mut [u8]) -> io::Result<()> {
    every_size(rt, image)?;
    quarters(rt, image)?;
    spoilt(rt, image)
}

fn main(rt: HostRuntime) -> io::Result<()> {
    let mut image = bus_recipe::blank(rt.alloc(), 0x800001)?;
    all(&rt, image.as_mut_slice())
}
