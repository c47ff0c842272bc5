// MBC2: up to 16 ROM banks, and 512 half-bytes of RAM of its own. One address range serves two registers, told apart by
// address bit 8.
#![tactic(auto)]

ghost use Rattle.std.specs.Prelude.{◌≡◌, length};
ghost use Rattle.mbc2.specs.Registers.{start, written, bank0, bank_x, half_read, half_after, fit_registers};

use facts::both;

#[derive(Clone, Copy)]
pub struct Mbc2 {
    pub enabled: bool,
    pub bank: u8,
}

impl Mbc2 {
    pub fn new() -> Self
        ensures { result ≡ start }
    {
        Mbc2 {
            enabled: false,
            bank: 1,
        }
    }

    pub fn write_register(self, addr: u16, byte: u8) -> Self
        ensures { result ≡ written self addr byte }
    {
        match addr {
            0x0000..=0x3FFF => {
                if addr & 0x100 == 0 {
                    return Mbc2 {
                        enabled: byte & 0xF == 0xA,
                        ..self
                    };
                }
                Mbc2 {
                    bank: banking::or_one(byte & 0xF),
                    ..self
                }
            }
            _ => self,
        }
    }

    // The bank at 0x0000..=0x3FFF.
    pub fn bank_0(self) -> u16
        ensures { result ≡ bank0 self }
    {
        0
    }

    // The bank at 0x4000..=0x7FFF, not yet modulo the bank count.
    pub fn bank_x(self) -> u16
        ensures { result ≡ bank_x self }
    {
        self.bank as u16
    }

    // What an address of the RAM window reads in the 512 half-bytes that are lent.
    pub fn read_half(self, half: &[u8], addr: u16) -> u8
        requires { length half.now ≡ 512 }
        ensures { result ≡ half_read self half.now addr }
    {
        if self.enabled {
            let at = (addr & 0x1FF) as usize;
            return half[at] | 0xF0;
        }
        0xFF
    }

    // A byte written to an address of the RAM window: its low nibble goes into the half-bytes that are lent.
    pub fn write_half(self, half: &mut [u8], addr: u16, byte: u8)
        requires { length half.old ≡ 512 }
        ensures { half.new ≡ half_after self half.old addr byte }
    {
        if self.enabled {
            let at = (addr & 0x1FF) as usize;
            half[at] = byte & 0xF;
        }
    }

    // Whether the register is one that writes can give.
    pub fn fit(self) -> bool
        ensures { result ≡ fit_registers self }
    {
        both(1 <= self.bank, self.bank <= 15)
    }
}
