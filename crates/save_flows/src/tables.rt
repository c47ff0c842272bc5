// The steps that a cartridge is given before it is saved and after a save was read.

use super::Step::{self, Clocks, Fill, Quiet, Read, Write};

// RAM enabled, MBC1 in mode 1 and MBC3's clock frozen while the RAM area is filled through the bus.
pub const FILLED: [Step; 4] = [
    Quiet(0x0000, 0x0A),
    Quiet(0x6000, 0x01),
    Fill,
    Quiet(0x6000, 0x00),
];

// Day 111, 23:59:58, and three and a half seconds. Each second is read as it completes: there the rules take the original as
// the clock's oracle.
pub const DAY_111: [Step; 18] = [
    Quiet(0x4000, 0x09),
    Quiet(0xA000, 0x3B),
    Quiet(0x4000, 0x0A),
    Quiet(0xA000, 0x17),
    Quiet(0x4000, 0x0B),
    Quiet(0xA000, 0x6F),
    Quiet(0x4000, 0x0C),
    Quiet(0xA000, 0x00),
    Quiet(0x4000, 0x08),
    Quiet(0xA000, 0x3A),
    Read(0xA000),
    Clocks(0x200000),
    Read(0xA000),
    Clocks(0x200000),
    Read(0xA000),
    Clocks(0x200000),
    Read(0xA000),
    Clocks(0x100000),
];

// Day 300, 7:05:09, halted before the fourth second is full.
pub const DAY_300: [Step; 18] = [
    Quiet(0x4000, 0x09),
    Quiet(0xA000, 0x05),
    Quiet(0x4000, 0x0A),
    Quiet(0xA000, 0x07),
    Quiet(0x4000, 0x0B),
    Quiet(0xA000, 0x2C),
    Quiet(0x4000, 0x08),
    Quiet(0xA000, 0x09),
    Clocks(0x200000),
    Read(0xA000),
    Clocks(0x200000),
    Read(0xA000),
    Clocks(0x200000),
    Read(0xA000),
    Clocks(0x1FFFFF),
    Quiet(0x4000, 0x0C),
    Quiet(0xA000, 0x41),
    Read(0xA000),
];

// The five clock registers of a timer, of any other the RAM bank that the same writes select; then both ends of RAM bank 0.
pub const READS: [Step; 14] = [
    Quiet(0x0000, 0x0A),
    Quiet(0x4000, 0x08),
    Read(0xA000),
    Quiet(0x4000, 0x09),
    Read(0xA001),
    Quiet(0x4000, 0x0A),
    Read(0xA002),
    Quiet(0x4000, 0x0B),
    Read(0xA003),
    Quiet(0x4000, 0x0C),
    Read(0xA004),
    Quiet(0x4000, 0x00),
    Read(0xA000),
    Read(0xBFFF),
];

// ROM bank 3, a second all but one clock, then halted and carried, and frozen with register 4 selected.
pub const USED: [Step; 8] = [
    Write(0x0000, 0x0A),
    Write(0x2000, 0x03),
    Write(0x4000, 0x0C),
    Clocks(0x1FFFFF),
    Write(0xA000, 0xC0),
    Read(0xA000),
    Write(0x6000, 0x01),
    Read(0xA000),
];

// ROM bank and register 4 again, then the second: a clock short of one on, and on.
pub const AFTER: [Step; 10] = [
    Read(0x4000),
    Read(0xA000),
    Write(0x4000, 0x08),
    Read(0xA000),
    Clocks(1),
    Read(0xA000),
    Clocks(0x1FFFFE),
    Read(0xA000),
    Clocks(1),
    Read(0xA000),
];
