// The windows of a cartridge straight from the bytes of its state. No mapper is built: each kind is asked for what moves its windows.
// A kind stays the byte that C keeps, as in `flat`.
#![tactic(auto)]

ghost use Rattle.std.specs.Prelude.{◌≡◌, ◌≤◌, None};
ghost use Rattle.mapper.specs.declared.Mapper.TheVariants as by;
ghost use Rattle.states.specs.Reading.{decode_of, mapper_at};
ghost use Rattle.states.specs.OnState.{on_state};
ghost use Rattle.windows.specs.Windows.{ram_at, windows_by, Stands, ask_of};

use bytes_le::Field;
use mbc3::Mbc3;
use no_mapper::NoMapper;
use states::{mbc1_in, mbc2_in, mbc5_in, timed_in, untimed_in};
use windows::{RamWindow, Windows};

// The RAM bank, or what stands where RAM is not selected.
fn mbc3_at(m: Mbc3, size: usize) -> RamWindow
    requires { size ≤ 0x20000 }
    ensures { result ≡ ram_at (by.Mbc3 m) size }
{
    if m.memory {
        return windows::bytes_at(m.ram_at(size, 0xA000), size);
    }
    windows::asks(m)
}

fn ram_at(s: &[u8; 64], kind: u8, size: usize) -> RamWindow
    requires { size ≤ 0x20000 }
    ensures { result ≡ ram_at (mapper_at s.now kind) size }
{
    match kind {
        0 => windows::bytes_at(NoMapper::new().ram_at(size, 0xA000), size),
        1 => windows::bytes_at(mbc1_in(s, false).ram_at(size, 0xA000), size),
        2 => windows::bytes_at(mbc1_in(s, true).ram_at(size, 0xA000), size),
        3 => windows::halves_at(mbc2_in(s), size),
        4 => mbc3_at(untimed_in(s), size),
        5 => mbc3_at(timed_in(s), size),
        6 => windows::bytes_at(mbc5_in(s).ram_at(size, 0xA000), size),
        _ => windows::bytes_at(NoMapper::new().ram_at(size, 0xA000), size),
    }
}

// The windows as they stand, by what was mounted and the registers of the kind.
fn standing(s: &[u8; 64], kind: u8, banks: u16, size: usize) -> Windows
    requires { Stands banks size (mapper_at s.now kind) }
    ensures { result ≡ windows_by banks size (mapper_at s.now kind) }
{
    let low = flat::bank_0(s, kind);
    let high = flat::bank_x(s, kind);
    let part = ram_at(s, kind, size);
    Windows {
        rom0: windows::rom_at(banks, low, 0),
        romx: windows::rom_at(banks, high, 0x4000),
        ram: part.ram,
        mask: part.mask,
        how: part.how,
    }
}

// Where the windows stand now, of bytes that are a state; others are as one that is unfit.
pub fn of(s: &[u8; 64]) -> Option<Windows>
    ensures { result ≡ on_state ask_of None (decode_of s.now) }
{
    let kind = u8::read(s, 0);
    if !flat::fit(s, kind) {
        return None;
    }
    let banks = u16::read(s, 8);
    let size = u64::read(s, 24) as usize;
    Some(standing(s, kind, banks, size))
}
