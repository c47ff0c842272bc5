// MBC1: up to 128 ROM banks and four RAM banks behind one five-bit and one two-bit register. The two-bit register feeds the
// high ROM bits always, the low window and the RAM bank in mode 1 only.
#![tactic(auto)]

ghost use Rattle.std.specs.Prelude.{true, ◌≡◌};
ghost use Rattle.mbc1.specs.Registers.{low_of, start, written, bank0, bank_x, ram_at, fit_registers};

use facts::both;

#[derive(Clone, Copy)]
pub struct Mbc1 {
    pub multicart: bool,
    pub enabled: bool,
    pub mode: bool,
    pub low: u8,
    pub two: u8,
}

// The low register after a write: the zero test stands before the multicart's mask.
fn low_of(multicart: bool, byte: u8) -> u8
    ensures { result ≡ low_of multicart byte }
{
    let five = banking::or_one(byte & 0x1F);
    if multicart { five & 0xF } else { five }
}

impl Mbc1 {
    pub fn new(multicart: bool) -> Self
        ensures { result ≡ start multicart }
    {
        Mbc1 {
            multicart,
            enabled: false,
            mode: false,
            low: 1,
            two: 0,
        }
    }

    pub fn write_register(self, addr: u16, byte: u8) -> Self
        ensures { result ≡ written self addr byte }
    {
        match addr {
            0x0000..=0x1FFF => Mbc1 {
                enabled: byte & 0xF == 0xA,
                ..self
            },
            0x2000..=0x3FFF => Mbc1 {
                low: low_of(self.multicart, byte),
                ..self
            },
            0x4000..=0x5FFF => Mbc1 {
                two: byte & 3,
                ..self
            },
            0x6000..=0x7FFF => Mbc1 {
                mode: byte & 1 == 1,
                ..self
            },
            _ => self,
        }
    }

    // The bank at 0x0000..=0x3FFF, not yet modulo the bank count.
    pub fn bank_0(self) -> u16
        requires { fit_registers self ≡ true }
        ensures { result ≡ bank0 self }
    {
        if self.mode {
            if self.multicart {
                return (self.two << 4) as u16;
            }
            return (self.two << 5) as u16;
        }
        0
    }

    // The bank at 0x4000..=0x7FFF, not yet modulo the bank count.
    pub fn bank_x(self) -> u16
        requires { fit_registers self ≡ true }
        ensures { result ≡ bank_x self }
    {
        if self.multicart {
            return (self.low | (self.two << 4)) as u16;
        }
        (self.low | (self.two << 5)) as u16
    }

    // Where an address of the RAM window falls in a RAM area of this size.
    pub fn ram_at(self, size: usize, addr: u16) -> Option<usize>
        ensures { result ≡ ram_at self size addr }
    {
        if self.enabled {
            if self.mode {
                return banking::ram_place(size, self.two, addr);
            }
            return banking::ram_place(size, 0, addr);
        }
        None
    }

    // Whether the registers are ones that writes can give.
    pub fn fit(self) -> bool
        ensures { result ≡ fit_registers self }
    {
        if self.multicart {
            return both(self.two <= 3, self.low <= 15);
        }
        both(self.two <= 3, both(1 <= self.low, self.low <= 31))
    }
}
