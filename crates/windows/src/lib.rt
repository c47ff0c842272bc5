// Where the three windows of a cartridge stand, as five numbers that a caller keeps. While they hold, reads and RAM writes need no
// look at the state; a write below 0x8000 that is taken, a save that is read and a mounting may make others of them.
#![tactic(auto)]

ghost use Rattle.std.specs.Prelude.{◌≡◌, ◌+◌, ◌%◌, ◌<◌, ◌≤◌, get_or, set};
ghost use Rattle.banking.specs.Banks.{Inside, rom_place};
ghost use Rattle.image.specs.Image.{byte_at};
ghost use Rattle.windows.specs.Windows.{mask_of, unmapped, bytes_at, halves_at, asks, Small, by_way, ram_at, windows_by, Stands, ask_of};
ghost use Rattle.windows.specs.Through.{place_in, ram_seen, rom_start, seen_of, put_by, area_by, put_of, area_after};

use cartridge::Cartridge;
use mapper::Mapper;
use mbc2::Mbc2;
use mbc3::Mbc3;
use window::Way;

#[derive(Clone, Copy)]
pub struct Windows {
    // The place in the padded image that 0x0000 shows, and the one that 0x4000 shows.
    pub rom0: u32,
    pub romx: u32,
    // The place in the RAM area that 0xA000 shows, which address bits move on from there, and how.
    pub ram: u32,
    pub mask: u32,
    pub how: u32,
}

// How the RAM window is mapped. Any greater number is ASK too: C keeps the five numbers and may hand in others, so no enum holds them.
pub const NOT_MAPPED: u32 = 0;

pub const BYTES: u32 = 1;

pub const HALVES: u32 = 2;

pub const ASK: u32 = 3;

// The RAM window's three numbers.
#[derive(Clone, Copy)]
pub struct RamWindow {
    pub ram: u32,
    pub mask: u32,
    pub how: u32,
}

// Why windows have no answer: the address is outside, or the state must be asked.
#[derive(Clone, Copy, Debug, PartialEq, Eq)]
pub enum Miss {
    BadAddress,
    Ask,
}

fn not_mapped() -> RamWindow
    ensures { result ≡ unmapped }
{
    RamWindow {
        ram: 0,
        mask: 0,
        how: NOT_MAPPED,
    }
}

// 2 KiB repeat through the window; a bank is 8 KiB.
fn mask_of(size: usize) -> u32
    ensures { result ≡ mask_of size }
{
    if size == 0x800 { 0x7FF } else { 0x1FFF }
}

pub fn bytes_at(place: Option<usize>, size: usize) -> RamWindow
    requires { Inside place 0x20200 }
    ensures { result ≡ bytes_at place size }
{
    match place {
        Some(i) => RamWindow {
            ram: i as u32,
            mask: mask_of(size),
            how: BYTES,
        },
        None => not_mapped(),
    }
}

pub fn halves_at(m: Mbc2, size: usize) -> RamWindow
    requires { size ≤ 0x20000 }
    ensures { result ≡ halves_at m size }
{
    if m.enabled {
        return RamWindow {
            ram: size as u32,
            mask: 0x1FF,
            how: HALVES,
        };
    }
    not_mapped()
}

// A clock register is no byte of the area.
pub fn asks(m: Mbc3) -> RamWindow
    ensures { result ≡ asks m }
{
    if timer::on_clock(m) {
        return RamWindow {
            ram: 0,
            mask: 0,
            how: ASK,
        };
    }
    not_mapped()
}

fn by_way(way: Way, size: usize) -> RamWindow
    requires { Small way size }
    ensures { result ≡ by_way way size }
{
    match way {
        Way::Bytes(place) => bytes_at(place, size),
        Way::Half(m) => halves_at(m, size),
        Way::Timer(m) => asks(m),
    }
}

fn ram_at(mapper: Mapper, size: usize) -> RamWindow
    requires { size ≤ 0x20000 }
    ensures { result ≡ ram_at mapper size }
{
    by_way(window::way_of(mapper, size, 0xA000), size)
}

// The place in the padded image that a window shows first, by its bank.
pub fn rom_at(banks: u16, bank: u16, addr: u16) -> u32
    requires banks_nonzero { 0 < banks }
    requires banks_bound { banks ≤ 512 }
    ensures { result ≡ rom_place banks bank addr }
{
    banking::rom_place(banks, bank, addr) as u32
}

// The windows as they stand, by all of a fit cartridge that moves them.
fn standing(banks: u16, size: usize, mapper: Mapper) -> Windows
    requires { Stands banks size mapper }
    ensures { result ≡ windows_by banks size mapper }
{
    let part = ram_at(mapper, size);
    Windows {
        rom0: rom_at(banks, mapper.bank_at(0), 0),
        romx: rom_at(banks, mapper.bank_at(0x4000), 0x4000),
        ram: part.ram,
        mask: part.mask,
        how: part.how,
    }
}

// The windows of a cartridge as they stand now, if it is fit.
pub fn of(cart: Cartridge) -> Option<Windows>
    ensures { result ≡ ask_of cart }
{
    if cart.fit() {
        let mapper = cart.mapper;
        return Some(standing(cart.banks, cart.size, mapper));
    }
    None
}

// The place in the RAM area of an address of the window. Two numbers of 32 bits cannot wrap.
fn place_in(w: Windows, addr: u16) -> usize
    ensures { result ≡ place_in w addr }
{
    (w.ram as usize) + (((addr as u32) & w.mask) as usize)
}

// A byte of the area, and 0xFF beyond it.
fn byte_in(ram: &[u8], at: usize) -> u8
    ensures { result ≡ get_or ram.now at 0xFF }
{
    if at < ram.len() { ram[at] } else { 0xFF }
}

fn ram_seen(w: Windows, ram: &[u8], addr: u16) -> Result<u8, Miss>
    ensures { result ≡ ram_seen w ram.now addr }
{
    let how = w.how;
    match how {
        0 => Ok(0xFF),
        1 => Ok(byte_in(ram, place_in(w, addr))),
        2 => Ok(byte_in(ram, place_in(w, addr)) | 0xF0),
        _ => Err(Miss::Ask),
    }
}

// The place that the ROM window of an address shows first.
fn rom_start(w: Windows, addr: u16) -> u32
    ensures { result ≡ rom_start w addr }
{
    if addr < 0x4000 { w.rom0 } else { w.romx }
}

// What an address reads of the ROM window that shows the image from this place on.
pub fn rom_byte(rom: &[u8], start: u32, addr: u16) -> u8
    ensures { result ≡ byte_at rom.now (start + addr % 0x4000) }
{
    image::byte_at(rom, (start as usize) + ((addr % 0x4000) as usize))
}

// What an address reads through windows, whatever numbers they are.
pub fn read(w: Windows, rom: &[u8], ram: &[u8], addr: u16) -> Result<u8, Miss>
    ensures { result ≡ seen_of w rom.now ram.now addr }
{
    match addr {
        0x0000..=0x7FFF => Ok(rom_byte(rom, rom_start(w, addr), addr)),
        0xA000..=0xBFFF => ram_seen(w, ram, addr),
        _ => Err(Miss::BadAddress),
    }
}

// A byte stored in the area, and none beyond it.
fn set_in(ram: &mut [u8], at: usize, byte: u8)
    ensures { ram.new ≡ set ram.old at byte }
{
    if at < ram.len() {
        ram[at] = byte;
    }
}

fn ram_put(w: Windows, ram: &mut [u8], addr: u16, byte: u8) -> Result<(), Miss>
    ensures value { result ≡ put_by w }
    ensures ram_after { ram.new ≡ area_by w ram.old addr byte }
{
    let how = w.how;
    match how {
        0 => Ok(()),
        1 => {
            set_in(ram, place_in(w, addr), byte);
            Ok(())
        }
        2 => {
            set_in(ram, place_in(w, addr), byte & 0xF);
            Ok(())
        }
        _ => Err(Miss::Ask),
    }
}

// A byte written to an address through windows, whatever numbers they are. A register is for the state.
pub fn write(w: Windows, ram: &mut [u8], addr: u16, byte: u8) -> Result<(), Miss>
    ensures value { result ≡ put_of w addr }
    ensures ram_after { ram.new ≡ area_after w ram.old addr byte }
{
    match addr {
        0x0000..=0x7FFF => Err(Miss::Ask),
        0xA000..=0xBFFF => ram_put(w, ram, addr, byte),
        _ => Err(Miss::BadAddress),
    }
}
