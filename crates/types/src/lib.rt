// The types of cartridge by their byte: a table of 24 rows, which of the kinds are supported, and how much each can hold.
#![tactic(auto)]

ghost use Rattle.std.specs.Prelude.{◌≡◌};
ghost use Rattle.types.specs.Types.{type_of, supported_of, beyond_of};

use facts::either;

#[derive(Clone, Copy)]
pub enum Kind {
    NoMapper,
    Mbc1,
    Mbc2,
    Mbc3 { timer: bool },
    Mbc5 { rumble: bool },
    Mmm01,
    Mbc6,
    Mbc7,
}

// A row of the table of types.
#[derive(Clone, Copy)]
pub struct TypeRow(pub u8, pub Kind, pub bool, pub bool);

const TYPES: [TypeRow; 24] = [
    TypeRow(0x00, Kind::NoMapper, false, false),
    TypeRow(0x01, Kind::Mbc1, false, false),
    TypeRow(0x02, Kind::Mbc1, true, false),
    TypeRow(0x03, Kind::Mbc1, true, true),
    TypeRow(0x05, Kind::Mbc2, false, false),
    TypeRow(0x06, Kind::Mbc2, true, true),
    TypeRow(0x08, Kind::NoMapper, true, false),
    TypeRow(0x09, Kind::NoMapper, true, true),
    TypeRow(0x0B, Kind::Mmm01, false, false),
    TypeRow(0x0C, Kind::Mmm01, true, false),
    TypeRow(0x0D, Kind::Mmm01, true, true),
    TypeRow(0x0F, Kind::Mbc3 { timer: true }, false, true),
    TypeRow(0x10, Kind::Mbc3 { timer: true }, true, true),
    TypeRow(0x11, Kind::Mbc3 { timer: false }, false, false),
    TypeRow(0x12, Kind::Mbc3 { timer: false }, true, false),
    TypeRow(0x13, Kind::Mbc3 { timer: false }, true, true),
    TypeRow(0x19, Kind::Mbc5 { rumble: false }, false, false),
    TypeRow(0x1A, Kind::Mbc5 { rumble: false }, true, false),
    TypeRow(0x1B, Kind::Mbc5 { rumble: false }, true, true),
    TypeRow(0x1C, Kind::Mbc5 { rumble: true }, false, false),
    TypeRow(0x1D, Kind::Mbc5 { rumble: true }, true, false),
    TypeRow(0x1E, Kind::Mbc5 { rumble: true }, true, true),
    TypeRow(0x20, Kind::Mbc6, true, true),
    TypeRow(0x22, Kind::Mbc7, true, true),
];

// The row of a type byte, if it is known.
pub fn find(b: u8) -> Option<TypeRow>
    ensures { result ≡ type_of b }
{
    for &row in &TYPES {
        if row.0 == b {
            return Some(row);
        }
    }
    None
}

pub fn is_supported(kind: Kind) -> bool
    ensures { result ≡ supported_of kind }
{
    match kind {
        Kind::NoMapper => true,
        Kind::Mbc1 => true,
        Kind::Mbc2 => true,
        Kind::Mbc3 { timer: _ } => true,
        Kind::Mbc5 { rumble: _ } => true,
        Kind::Mmm01 => false,
        Kind::Mbc6 => false,
        Kind::Mbc7 => false,
    }
}

// Whether the banks or the RAM are beyond the mapper.
pub fn is_beyond(kind: Kind, banks: u32, size: usize) -> bool
    ensures { result ≡ beyond_of kind banks size }
{
    match kind {
        Kind::NoMapper => either(banks != 2, 0x2000 < size),
        Kind::Mbc1 => 128 < banks,
        Kind::Mbc2 => 16 < banks,
        Kind::Mbc3 { timer: _ } => 256 < banks,
        Kind::Mbc5 { rumble: _ } => 512 < banks,
        Kind::Mmm01 => false,
        Kind::Mbc6 => false,
        Kind::Mbc7 => false,
    }
}
