// Images by a recipe: the logo, a title, the type byte, the ROM and RAM codes, and a checksum that fits.

use super::Codes;

// Place at + i of the image, if it has one.
fn set_on(image: &mut [u8], at: usize, i: usize, b: u8) {
    if image.len() <= i {
        return;
    }
    if image.len() - i <= at {
        return;
    }
    image[at + i] = b;
}

// The bytes of src from place at on, as far as the image goes.
pub fn put(image: &mut [u8], at: usize, src: &[u8]) {
    for (i, b) in src.iter().enumerate() {
        set_on(image, at, i, *b);
    }
}

pub fn set(image: &mut [u8], at: usize, b: u8) {
    set_on(image, at, 0, b);
}

pub fn logo(image: &mut [u8], quarter: usize) {
    put(
        image,
        (quarter % 4) * 0x40000 + 0x104,
        b"\xce\xed\x66\x66\xcc\x0d\x00\x0b\x03\x73\x00\x83\x00\x0c\x00\x0d\x00\x08\x11\x1f\x88\x89\x00\x0e\xdc\xcc\x6e\xe6\xdd\xdd\xd9\x99\xbb\xbb\x67\x63\x6e\x0e\xec\xcc\xdd\xdc\x99\x9f\xbb\xb9\x33\x3e",
    );
}

// The sum of the header's 25 bytes.
fn sum(image: &[u8]) -> u32 {
    let mut s: u32 = 0;
    for i in 0x134..0x14Dusize {
        s = s % 65536 + image::byte_at(image, i) as u32;
    }
    s
}

// The checksum that fits: it makes the sum, the count and itself a multiple of 256.
pub fn fix(image: &mut [u8]) {
    let s = sum(image) % 65536 + 25;
    set(image, 0x14D, ((256 - s % 256) % 256) as u8);
}

pub fn codes(image: &mut [u8], codes: Codes) {
    set(image, 0x147, codes.type_byte);
    set(image, 0x148, codes.rom_code);
    set(image, 0x149, codes.ram_code);
}

// A header whole. The title ends in a zero.
pub fn header(image: &mut [u8], title: &[u8], given: Codes) {
    logo(image, 0);
    put(image, 0x134, title);
    set_on(image, 0x134, title.len(), 0);
    codes(image, given);
    fix(image);
}
