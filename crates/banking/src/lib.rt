// Where an address of a window falls: in the padded image by a ROM bank, in the RAM area by a RAM bank. Every bank number is
// taken modulo the number of banks.
#![tactic(auto)]

ghost use Rattle.std.specs.Prelude.{◌≡◌, ◌<◌};
ghost use Rattle.banking.specs.Banks.{or_one, rom_place, ram_place, banked_place};

// A bank number as a register takes it that cannot hold 0.
pub fn or_one(n: u8) -> u8
    ensures { result ≡ or_one n }
{
    if n == 0 { 1 } else { n }
}

// The place of an address below 0x8000 in the padded image.
pub fn rom_place(banks: u16, bank: u16, addr: u16) -> usize
    requires { 0 < banks }
    ensures { result ≡ rom_place banks bank addr }
{
    let at = (bank % banks) as usize;
    at * 0x4000 + ((addr & 0x3FFF) as usize)
}

// The place of an address of the RAM window in the RAM area; none where nothing is mapped.
pub fn ram_place(size: usize, bank: u8, addr: u16) -> Option<usize>
    ensures { result ≡ ram_place size bank addr }
{
    if size == 0x800 {
        return Some((addr & 0x7FF) as usize);
    }
    banked_place(size, bank, addr)
}

// The same without the 2 KiB that repeat.
pub fn banked_place(size: usize, bank: u8, addr: u16) -> Option<usize>
    ensures { result ≡ banked_place size bank addr }
{
    if size < 0x2000 {
        return None;
    }
    let at = (bank as usize) % (size / 0x2000);
    Some(at * 0x2000 + ((addr & 0x1FFF) as usize))
}
