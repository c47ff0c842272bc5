// A mounted cartridge by value: what was mounted, and its mapper. The image and the RAM area stay with the caller.
#![tactic(auto)]

ghost use Rattle.std.specs.Prelude.{◌≡◌, ◌*◌, eqb};
ghost use Rattle.facts.specs.Listed.{one_of};
ghost use Rattle.image.specs.Image.{padded_length};
ghost use Rattle.header.specs.Size.{ram_sizes};
ghost use Rattle.cartridge.specs.Fit.{bank_counts, fit_board, fit_cart, area_of};

use facts::both;
use mapper::Mapper;

#[derive(Clone, Copy)]
pub struct Cartridge {
    // The image's length in bytes, as it was handed in.
    pub length: usize,
    // ROM banks of 16 KiB in the padded image.
    pub banks: u16,
    // The header's RAM size in bytes.
    pub size: usize,
    pub battery: bool,
    pub mapper: Mapper,
}

pub fn is_bank_count(banks: u16) -> bool
    ensures { result ≡ one_of banks bank_counts }
{
    match banks {
        2 | 4 | 8 | 16 | 32 | 64 | 128 | 256 | 512 => true,
        _ => false,
    }
}

pub fn is_ram_size(size: usize) -> bool
    ensures { result ≡ one_of size ram_sizes }
{
    match size {
        0 | 0x800 | 0x2000 | 0x8000 | 0x20000 | 0x10000 => true,
        _ => false,
    }
}

// Whether an image of this length, padded, is this many banks. No sum can wrap.
pub fn fills(length: usize, banks: u16) -> bool
    ensures { result ≡ eqb (padded_length length) (banks * 0x4000) }
{
    if length <= 0x8000 {
        return banks == 2;
    }
    (length - 1) / 0x4000 + 1 == (banks as usize)
}

impl Cartridge {
    // Whether what was mounted can have been: all of fitness but the mapper's registers.
    pub fn fit_board(self) -> bool
        ensures { result ≡ fit_board self }
    {
        let mapper = self.mapper;
        both(
            both(is_bank_count(self.banks), fills(self.length, self.banks)),
            both(is_ram_size(self.size), mapper.holds(self.banks, self.size)),
        )
    }

    // Whether this is a state that mounting and accesses can give.
    pub fn fit(self) -> bool
        ensures { result ≡ fit_cart self }
    {
        let mapper = self.mapper;
        both(self.fit_board(), mapper.fit())
    }

    // Whether a RAM area of this length goes with the cartridge.
    pub fn is_area(self, len: usize) -> bool
        ensures { result ≡ eqb len (area_of self) }
    {
        let mapper = self.mapper;
        mapper.is_area(self.size, len)
    }
}
