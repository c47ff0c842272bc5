// The cases of each mapper.

use super::Case;

// No RAM, 2 KiB in an image that ends early, and 8 KiB.
pub const NO_MAPPER: [Case; 3] = [
    Case {
        area: 0,
        length: 0x8000,
        type_byte: 0x00,
        rom_code: 0x00,
        ram_code: 0x00,
    },
    Case {
        area: 0x800,
        length: 0x7001,
        type_byte: 0x08,
        rom_code: 0x00,
        ram_code: 0x01,
    },
    Case {
        area: 0x2000,
        length: 0x8000,
        type_byte: 0x09,
        rom_code: 0x00,
        ram_code: 0x02,
    },
];

// 128 banks with 32 KiB, 4 banks that the header calls 2 with 2 KiB, the multicart, 64 banks with 8 KiB, and with none in an
// image that ends within the last bank.
pub const MBC1: [Case; 5] = [
    Case {
        area: 0x8000,
        length: 0x200000,
        type_byte: 0x03,
        rom_code: 0x06,
        ram_code: 0x03,
    },
    Case {
        area: 0x800,
        length: 0x10000,
        type_byte: 0x02,
        rom_code: 0x00,
        ram_code: 0x01,
    },
    Case {
        area: 0x8000,
        length: 0x100000,
        type_byte: 0x03,
        rom_code: 0x05,
        ram_code: 0x03,
    },
    Case {
        area: 0x2000,
        length: 0x100000,
        type_byte: 0x02,
        rom_code: 0x05,
        ram_code: 0x02,
    },
    Case {
        area: 0,
        length: 0xFD00B,
        type_byte: 0x01,
        rom_code: 0x05,
        ram_code: 0x00,
    },
];

// 16 banks with 8 KiB beside the half-bytes, and 8 banks without in an image that ends within the last bank.
pub const MBC2: [Case; 2] = [
    Case {
        area: 0x2200,
        length: 0x40000,
        type_byte: 0x06,
        rom_code: 0x03,
        ram_code: 0x02,
    },
    Case {
        area: 0x200,
        length: 0x1D777,
        type_byte: 0x05,
        rom_code: 0x02,
        ram_code: 0x00,
    },
];

// With a timer, 128 banks with 32 KiB, and 256 banks in an image that lacks a byte. Without, 256 banks with 8 KiB, 32 with 2 KiB
// and 8 with none.
pub const MBC3: [Case; 5] = [
    Case {
        area: 0x8000,
        length: 0x200000,
        type_byte: 0x10,
        rom_code: 0x06,
        ram_code: 0x03,
    },
    Case {
        area: 0,
        length: 0x3FFFFF,
        type_byte: 0x0F,
        rom_code: 0x07,
        ram_code: 0x00,
    },
    Case {
        area: 0x2000,
        length: 0x400000,
        type_byte: 0x13,
        rom_code: 0x07,
        ram_code: 0x02,
    },
    Case {
        area: 0x800,
        length: 0x80000,
        type_byte: 0x12,
        rom_code: 0x04,
        ram_code: 0x01,
    },
    Case {
        area: 0,
        length: 0x20000,
        type_byte: 0x11,
        rom_code: 0x02,
        ram_code: 0x00,
    },
];

// 512 banks with 128 KiB, and with rumble and 64 KiB in an image that ends behind the first byte of bank 511. 32 banks with
// 2 KiB, and 2 with none.
pub const MBC5: [Case; 4] = [
    Case {
        area: 0x20000,
        length: 0x800000,
        type_byte: 0x1B,
        rom_code: 0x08,
        ram_code: 0x04,
    },
    Case {
        area: 0x10000,
        length: 0x7FC001,
        type_byte: 0x1E,
        rom_code: 0x08,
        ram_code: 0x05,
    },
    Case {
        area: 0x800,
        length: 0x80000,
        type_byte: 0x1A,
        rom_code: 0x04,
        ram_code: 0x01,
    },
    Case {
        area: 0,
        length: 0x8000,
        type_byte: 0x1C,
        rom_code: 0x00,
        ram_code: 0x00,
    },
];

// Number 15 and 16 on an MBC3, and 12 for an area without the half-bytes, one too short and one too long.
pub const REFUSED: [Case; 4] = [
    Case {
        area: 0x8000,
        length: 0x80000,
        type_byte: 0x10,
        rom_code: 0x04,
        ram_code: 0x03,
    },
    Case {
        area: 0x2000,
        length: 0x40000,
        type_byte: 0x06,
        rom_code: 0x03,
        ram_code: 0x02,
    },
    Case {
        area: 0x7E00,
        length: 0x200000,
        type_byte: 0x10,
        rom_code: 0x06,
        ram_code: 0x03,
    },
    Case {
        area: 0x8200,
        length: 0x200000,
        type_byte: 0x10,
        rom_code: 0x06,
        ram_code: 0x03,
    },
];
