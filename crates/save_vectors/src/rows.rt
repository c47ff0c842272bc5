// The cases, and what each goes through.

use super::Job::{Cut, Day111, Day300, Offset, Plain, Refused, Short, Used, Whole, Wrong};
use super::{Case, Job, Moment};

const MBC1_32_KIB: Case = Case {
    area: 0x8000,
    length: 0x10000,
    type_byte: 0x03,
    rom_code: 0x01,
    ram_code: 0x03,
};

const MBC1_64_KIB: Case = Case {
    area: 0x10000,
    length: 0x20000,
    type_byte: 0x03,
    rom_code: 0x02,
    ram_code: 0x05,
};

const MBC1_NO_RAM: Case = Case {
    area: 0,
    length: 0x8000,
    type_byte: 0x03,
    rom_code: 0x00,
    ram_code: 0x00,
};

const MBC2: Case = Case {
    area: 0x200,
    length: 0x8000,
    type_byte: 0x06,
    rom_code: 0x00,
    ram_code: 0x00,
};

const MBC2_8_KIB: Case = Case {
    area: 0x2200,
    length: 0x40000,
    type_byte: 0x06,
    rom_code: 0x03,
    ram_code: 0x02,
};

const NO_MAPPER_2_KIB: Case = Case {
    area: 0x800,
    length: 0x8000,
    type_byte: 0x09,
    rom_code: 0x00,
    ram_code: 0x01,
};

const TIMER_NO_RAM: Case = Case {
    area: 0,
    length: 0x20000,
    type_byte: 0x0F,
    rom_code: 0x02,
    ram_code: 0x00,
};

const TIMER_32_KIB: Case = Case {
    area: 0x8000,
    length: 0x80000,
    type_byte: 0x10,
    rom_code: 0x04,
    ram_code: 0x03,
};

// MBC3 never maps 2 KiB.
const TIMER_2_KIB: Case = Case {
    area: 0x800,
    length: 0x10000,
    type_byte: 0x10,
    rom_code: 0x01,
    ram_code: 0x01,
};

const MBC3_8_KIB: Case = Case {
    area: 0x2000,
    length: 0x40000,
    type_byte: 0x13,
    rom_code: 0x03,
    ram_code: 0x02,
};

const MBC5_128_KIB: Case = Case {
    area: 0x20000,
    length: 0x8000,
    type_byte: 0x1B,
    rom_code: 0x00,
    ram_code: 0x04,
};

const MBC5_64_KIB: Case = Case {
    area: 0x10000,
    length: 0x10000,
    type_byte: 0x1E,
    rom_code: 0x01,
    ram_code: 0x05,
};

// Lent with 512 bytes too many.
const TIMER_2_KIB_MORE: Case = Case {
    area: 0xA00,
    length: 0x10000,
    type_byte: 0x10,
    rom_code: 0x01,
    ram_code: 0x01,
};

const NO_BATTERY_8_KIB_MORE: Case = Case {
    area: 0x2200,
    length: 0x10000,
    type_byte: 0x02,
    rom_code: 0x01,
    ram_code: 0x02,
};

const LAST: u64 = 0xFFFF_FFFF_FFFF_FFFF;

pub const ROWS: [(Case, Job); 90] = [
    // Every battery type, saved and read.
    (MBC1_32_KIB, Plain),
    (MBC1_64_KIB, Plain),
    (MBC1_NO_RAM, Plain),
    (MBC2, Plain),
    (MBC2_8_KIB, Plain),
    (NO_MAPPER_2_KIB, Plain),
    (MBC3_8_KIB, Plain),
    (MBC5_128_KIB, Plain),
    (MBC5_64_KIB, Plain),
    // The clock's time is 1003: ahead of the wall time, equal to it, and behind it.
    (TIMER_NO_RAM, Day111(1001)),
    (TIMER_2_KIB, Day111(1003)),
    (TIMER_32_KIB, Day300(5000)),
    // Every byte of RAM from the save, those too that no access reaches.
    (MBC1_64_KIB, Whole(Moment(300, 8, 9, 10), 1000)),
    (MBC1_NO_RAM, Whole(Moment(300, 8, 9, 10), 1000)),
    (MBC2, Whole(Moment(300, 8, 9, 10), 1000)),
    (MBC2_8_KIB, Whole(Moment(300, 8, 9, 10), 1000)),
    (MBC3_8_KIB, Whole(Moment(300, 8, 9, 10), 1000)),
    (TIMER_32_KIB, Whole(Moment(300, 8, 9, 10), 1000)),
    // 400 days from day 7.
    (TIMER_2_KIB, Whole(Moment(7, 8, 9, 10), 34_561_000)),
    // The greatest registers that a block may have, and a second more.
    (TIMER_2_KIB, Whole(Moment(511, 31, 63, 63), 1000)),
    (TIMER_2_KIB, Whole(Moment(511, 31, 63, 63), 1001)),
    (TIMER_2_KIB, Whole(Moment(511, 31, 63, 59), 1001)),
    (TIMER_2_KIB, Whole(Moment(511, 31, 59, 59), 1001)),
    (TIMER_2_KIB, Whole(Moment(511, 23, 59, 59), 1001)),
    (TIMER_2_KIB, Whole(Moment(256, 0, 0, 0), 1000)),
    (TIMER_2_KIB, Whole(Moment(255, 23, 59, 59), 1001)),
    // From time 1000 to the last time.
    (TIMER_2_KIB, Offset(Moment(3, 4, 5, 6), LAST - 1000)),
    // Sleeps that the original adds in one jump: 30 seconds, 30 seconds with every carry, 65,536 days, 400 days and 13:19:59.
    (TIMER_2_KIB, Whole(Moment(0, 0, 0, 50), 1030)),
    (TIMER_2_KIB, Whole(Moment(511, 23, 59, 50), 1030)),
    (TIMER_2_KIB, Whole(Moment(0, 0, 0, 0), 5_662_311_400)),
    (TIMER_2_KIB, Whole(Moment(111, 10, 39, 2), 34_608_999)),
    // The RAM without its last byte, whole, and with a byte of the block, all but one, all, and a byte behind it.
    (TIMER_2_KIB, Cut(Moment(300, 8, 9, 10), 0x7FF)),
    (TIMER_2_KIB, Cut(Moment(300, 8, 9, 10), 0x800)),
    (TIMER_2_KIB, Cut(Moment(300, 8, 9, 10), 0x801)),
    (TIMER_2_KIB, Cut(Moment(300, 8, 9, 10), 0x814)),
    (TIMER_2_KIB, Cut(Moment(300, 8, 9, 10), 0x815)),
    (TIMER_2_KIB, Cut(Moment(300, 8, 9, 10), 0x816)),
    (TIMER_NO_RAM, Cut(Moment(300, 8, 9, 10), 0)),
    (TIMER_NO_RAM, Cut(Moment(300, 8, 9, 10), 0x1)),
    (TIMER_NO_RAM, Cut(Moment(300, 8, 9, 10), 0x14)),
    (TIMER_NO_RAM, Cut(Moment(300, 8, 9, 10), 0x15)),
    (TIMER_NO_RAM, Cut(Moment(300, 8, 9, 10), 0x16)),
    (MBC3_8_KIB, Cut(Moment(300, 8, 9, 10), 0x1FFF)),
    (MBC3_8_KIB, Cut(Moment(300, 8, 9, 10), 0x2000)),
    (MBC3_8_KIB, Cut(Moment(300, 8, 9, 10), 0x2001)),
    (MBC3_8_KIB, Cut(Moment(300, 8, 9, 10), 0x2014)),
    (MBC3_8_KIB, Cut(Moment(300, 8, 9, 10), 0x2015)),
    (MBC3_8_KIB, Cut(Moment(300, 8, 9, 10), 0x2016)),
    (MBC2, Cut(Moment(300, 8, 9, 10), 0x1FF)),
    (MBC2, Cut(Moment(300, 8, 9, 10), 0x200)),
    (MBC2, Cut(Moment(300, 8, 9, 10), 0x201)),
    (MBC2, Cut(Moment(300, 8, 9, 10), 0x214)),
    (MBC2, Cut(Moment(300, 8, 9, 10), 0x215)),
    (MBC2, Cut(Moment(300, 8, 9, 10), 0x216)),
    (MBC2_8_KIB, Cut(Moment(300, 8, 9, 10), 0x21FF)),
    (MBC2_8_KIB, Cut(Moment(300, 8, 9, 10), 0x2200)),
    (MBC2_8_KIB, Cut(Moment(300, 8, 9, 10), 0x2201)),
    (MBC2_8_KIB, Cut(Moment(300, 8, 9, 10), 0x2214)),
    (MBC2_8_KIB, Cut(Moment(300, 8, 9, 10), 0x2215)),
    (MBC2_8_KIB, Cut(Moment(300, 8, 9, 10), 0x2216)),
    (NO_MAPPER_2_KIB, Cut(Moment(300, 8, 9, 10), 0x7FF)),
    (NO_MAPPER_2_KIB, Cut(Moment(300, 8, 9, 10), 0x800)),
    (NO_MAPPER_2_KIB, Cut(Moment(300, 8, 9, 10), 0x801)),
    (NO_MAPPER_2_KIB, Cut(Moment(300, 8, 9, 10), 0x814)),
    (NO_MAPPER_2_KIB, Cut(Moment(300, 8, 9, 10), 0x815)),
    (NO_MAPPER_2_KIB, Cut(Moment(300, 8, 9, 10), 0x816)),
    // A block that is refused where it is whole.
    (TIMER_32_KIB, Cut(Moment(300, 8, 9, 64), 0x7FFF)),
    (TIMER_32_KIB, Cut(Moment(300, 8, 9, 64), 0x8000)),
    (TIMER_32_KIB, Cut(Moment(300, 8, 9, 64), 0x8001)),
    (TIMER_32_KIB, Cut(Moment(300, 8, 9, 64), 0x8014)),
    (TIMER_32_KIB, Cut(Moment(300, 8, 9, 64), 0x8015)),
    (TIMER_32_KIB, Cut(Moment(300, 8, 9, 64), 0x8016)),
    // The least that number 20 is given for, the least that 17 is given for, and both.
    (TIMER_32_KIB, Refused(Moment(300, 8, 9, 64), 0)),
    (TIMER_32_KIB, Refused(Moment(300, 8, 64, 10), 0)),
    (TIMER_32_KIB, Refused(Moment(300, 32, 9, 10), 0)),
    (TIMER_32_KIB, Refused(Moment(512, 8, 9, 10), 0)),
    (TIMER_32_KIB, Refused(Moment(300, 8, 9, 10), LAST - 999)),
    (TIMER_32_KIB, Refused(Moment(300, 8, 9, 64), LAST - 999)),
    // Room for a byte too few, for the save alone, and for a byte more.
    (TIMER_32_KIB, Short(0x8014)),
    (TIMER_32_KIB, Short(0x8015)),
    (TIMER_32_KIB, Short(0x8016)),
    // A cartridge in use.
    (TIMER_32_KIB, Used(Moment(300, 8, 9, 10))),
    // Three banks, which is unfit, with a wrong RAM area too; that alone, both ways; and neither.
    (TIMER_2_KIB_MORE, Wrong(3, 0x800)),
    (TIMER_2_KIB_MORE, Wrong(3, 0x801)),
    (TIMER_2_KIB_MORE, Wrong(4, 0x801)),
    (TIMER_2_KIB_MORE, Wrong(4, 0x7FF)),
    (TIMER_2_KIB_MORE, Wrong(4, 0x800)),
    // The same without a battery.
    (NO_BATTERY_8_KIB_MORE, Wrong(3, 0x2000)),
    (NO_BATTERY_8_KIB_MORE, Wrong(4, 0x2001)),
    (NO_BATTERY_8_KIB_MORE, Wrong(4, 0x2000)),
];
