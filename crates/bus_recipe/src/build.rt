// The image that every case is cut from. No two banks are alike: a bank begins with its number, has a header, and every other
// byte is a mix of its place.

// A number mixed by two multiplications modulo 2^32.
pub fn mixed(n: usize) -> u8 {
    let h = n as u64 % 0x1_0000_0000 * 0x9E3779B1 % 0x1_0000_0000;
    let g = (h + h / 0x8000) * 0x2C1B3C6D % 0x1_0000_0000;
    (g / 0x1000000) as u8
}

fn rom_byte(place: usize) -> u8 {
    let offset = place % 0x4000;
    match offset {
        0 => (place / 0x4000 % 256) as u8,
        1 => (place / 0x400000 % 256) as u8,
        0x104..=0x133 =>
            b"\xce\xed\x66\x66\xcc\x0d\x00\x0b\x03\x73\x00\x83\x00\x0c\x00\x0d\x00\x08\x11\x1f\x88\x89\x00\x0e\xdc\xcc\x6e\xe6\xdd\xdd\xd9\x99\xbb\xbb\x67\x63\x6e\x0e\xec\xcc\xdd\xdc\x99\x9f\xbb\xb9\x33\x3e"[offset
                - 0x104],
        0x134..=0x14D => 0,
        _ => mixed(place),
    }
}

pub fn fill(image: &mut [u8; 0x800000]) {
    for (place, byte) in image.iter_mut().enumerate() {
        *byte = rom_byte(place);
    }
}

// What a case lends, and three bytes of its header.
#[derive(Clone, Copy)]
pub struct Case {
    // The RAM area's length in bytes.
    pub area: usize,
    // The image's length in bytes.
    pub length: usize,
    pub type_byte: u8,
    pub rom_code: u8,
    pub ram_code: u8,
}

impl Case {
    // What the draw of its accesses begins with.
    pub fn seed(self) -> u32 {
        u32::from_be_bytes([0, self.type_byte, self.rom_code, self.ram_code])
    }
}

// The case's three bytes, and the checksum of these and 22 zeros. The fourth quarter's logo is whole with RAM code 3 alone: other
// images of 64 banks are no multicart.
pub fn header(image: &mut [u8; 0x800000], case: Case) {
    image[0x147] = case.type_byte;
    image[0x148] = case.rom_code;
    image[0x149] = case.ram_code;
    let sum = case.type_byte as u32 + case.rom_code as u32 + case.ram_code as u32;
    image[0x14D] = ((1024 - 25 - sum) % 256) as u8;
    image[0xC0133] = ((0x3B + case.ram_code as u32) % 256) as u8;
}
