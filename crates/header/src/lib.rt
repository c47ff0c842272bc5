// The verdict on an image: what its header says, or the first of the numbers 1 to 11 that refuses it.
// Only the header is read, and on an MBC1 image of 0x100000 bytes three more logos.
#![tactic(auto)]

ghost use Rattle.std.specs.Prelude.{◌≡◌, ◌/◌, ◌≤◌, length};
ghost use Rattle.image.specs.Image.{byte_at, padded_length};
ghost use Rattle.header.specs.Size.{rom_fits, ram_size_of};
ghost use Rattle.header.specs.Check.{number_of, multicart_of, facts_of, check_of, sizes_of, mapper_of};

use facts::both;
use image::byte_at;
use types::{Kind, TypeRow};

// Why an image is not mounted, in the order of the tests.
#[derive(Clone, Copy, Debug, PartialEq, Eq)]
pub enum HeaderRefusal {
    TooLong,
    BadLogo,
    BadTitle,
    BadType,
    BadRomCode,
    BadRomSize,
    BadRamCode,
    NeedlessRam,
    BadChecksum,
    Unsupported,
    Beyond,
}

// What the header of an accepted image says.
#[derive(Drop)]
pub struct Facts {
    pub kind: Kind,
    pub multicart: bool,
    pub ram: bool,
    pub battery: bool,
    // ROM banks of 16 KiB in the padded image.
    pub banks: u16,
    // The header's RAM size in bytes.
    pub size: usize,
    pub colour: bool,
    // The title's length: it stands from 0x134 on.
    pub title: usize,
}

impl HeaderRefusal {
    pub fn number(self) -> u8
        ensures { result ≡ number_of self }
    {
        match self {
            HeaderRefusal::TooLong => 1,
            HeaderRefusal::BadLogo => 2,
            HeaderRefusal::BadTitle => 3,
            HeaderRefusal::BadType => 4,
            HeaderRefusal::BadRomCode => 5,
            HeaderRefusal::BadRomSize => 6,
            HeaderRefusal::BadRamCode => 7,
            HeaderRefusal::NeedlessRam => 8,
            HeaderRefusal::BadChecksum => 9,
            HeaderRefusal::Unsupported => 10,
            HeaderRefusal::Beyond => 11,
        }
    }
}

// Whether the padded length is the size that the header names, or mends it.
fn rom_fits(len: u32, code: u8) -> bool
    requires { (code ≤ 8) × (len ≤ 8388608) }
    ensures { result ≡ rom_fits len code }
{
    let size: u32 = 0x8000 << code;
    if size == len {
        return true;
    }
    if len < size {
        return false;
    }
    if len % size != 0 {
        return false;
    }
    let q = len / size;
    both(u32::count_ones(q) == 1, u32::trailing_zeros(q) <= 7)
}

// The RAM size of a code.
fn ram_size(code: u8) -> usize
    requires { code ≤ 5 }
    ensures { result ≡ ram_size_of code }
{
    match code {
        0 => 0,
        1 => 0x800,
        2 => 0x2000,
        3 => 0x8000,
        4 => 0x20000,
        _ => 0x10000,
    }
}

fn is_multicart(image: &[u8], kind: Kind) -> bool
    ensures { result ≡ multicart_of image.now kind }
{
    match kind {
        Kind::NoMapper => false,
        Kind::Mbc1 => image::is_multicart(image),
        Kind::Mbc2 => false,
        Kind::Mbc3 { timer: _ } => false,
        Kind::Mbc5 { rumble: _ } => false,
        Kind::Mmm01 => false,
        Kind::Mbc6 => false,
        Kind::Mbc7 => false,
    }
}

fn facts_of(image: &[u8], row: TypeRow, banks: u16, size: usize) -> Facts
    requires { (banks ≡ padded_length (length image.now) / 0x4000) × (size ≡ ram_size_of (byte_at image.now 0x149)) }
    ensures { result ≡ facts_of image.now row }
{
    let kind = row.1;
    let multicart = is_multicart(image, kind);
    let colour = image::is_colour(image);
    let title = image::title(image).len();
    Facts {
        kind,
        multicart,
        ram: row.2,
        battery: row.3,
        banks,
        size,
        colour,
        title,
    }
}

// The tests 9 to 11.
fn check_mapper(image: &[u8], row: TypeRow, len: u32, size: usize) -> Result<Facts, HeaderRefusal>
    requires { (len ≡ padded_length (length image.now)) × (len ≤ 8388608) × (size ≡ ram_size_of (byte_at image.now 0x149)) }
    ensures { result ≡ mapper_of image.now row }
{
    let sum = image::checksum(image);
    let named = byte_at(image, 0x14D);
    if sum != named {
        return Err(HeaderRefusal::BadChecksum);
    }
    let kind = row.1;
    if !types::is_supported(kind) {
        return Err(HeaderRefusal::Unsupported);
    }
    let banks = len / 0x4000;
    if types::is_beyond(kind, banks, size) {
        return Err(HeaderRefusal::Beyond);
    }
    Ok(facts_of(image, row, banks as u16, size))
}

// The tests 5 to 11.
fn check_sizes(image: &[u8], row: TypeRow) -> Result<Facts, HeaderRefusal>
    requires { length image.now ≤ 8388608 }
    ensures { result ≡ sizes_of image.now row }
{
    let len = image::padded_len(image) as u32;
    let rom = byte_at(image, 0x148);
    if 8 < rom {
        return Err(HeaderRefusal::BadRomCode);
    }
    if !rom_fits(len, rom) {
        return Err(HeaderRefusal::BadRomSize);
    }
    let code = byte_at(image, 0x149);
    if 5 < code {
        return Err(HeaderRefusal::BadRamCode);
    }
    let size = ram_size(code);
    if both(!row.2, 0 < size) {
        return Err(HeaderRefusal::NeedlessRam);
    }
    check_mapper(image, row, len, size)
}

// The verdict on an image.
pub fn check(image: &[u8]) -> Result<Facts, HeaderRefusal>
    ensures { result ≡ check_of image.now }
{
    if 8_388_608 < image.len() {
        return Err(HeaderRefusal::TooLong);
    }
    if !image::logo_at(image, 0x104) {
        return Err(HeaderRefusal::BadLogo);
    }
    if !utf8::is_utf8(image::title(image)) {
        return Err(HeaderRefusal::BadTitle);
    }
    let Some(row) = types::find(byte_at(image, 0x147)) else {
        return Err(HeaderRefusal::BadType);
    };
    check_sizes(image, row)
}
