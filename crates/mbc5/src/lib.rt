// MBC5: up to 512 ROM banks behind a nine-bit register in two parts, and sixteen RAM banks. Bank 0 can be selected.
#![tactic(auto)]

ghost use Rattle.std.specs.Prelude.{◌≡◌};
ghost use Rattle.mbc5.specs.Registers.{start, written, bank0, bank_x, ram_at, fit_registers};

use facts::both;

#[derive(Clone, Copy)]
pub struct Mbc5 {
    pub enabled: bool,
    pub bank: u16,
    pub ram: u8,
}

impl Mbc5 {
    pub fn new() -> Self
        ensures { result ≡ start }
    {
        Mbc5 {
            enabled: false,
            bank: 1,
            ram: 0,
        }
    }

    pub fn write_register(self, addr: u16, byte: u8) -> Self
        ensures { result ≡ written self addr byte }
    {
        match addr {
            0x0000..=0x1FFF => Mbc5 {
                enabled: byte == 0xA,
                ..self
            },
            0x2000..=0x2FFF => Mbc5 {
                bank: (self.bank & 0x100) | (byte as u16),
                ..self
            },
            0x3000..=0x3FFF => {
                let high = (byte & 1) as u16;
                Mbc5 {
                    bank: (self.bank & 0xFF) | (high << 8),
                    ..self
                }
            }
            0x4000..=0x5FFF => Mbc5 {
                ram: byte & 0xF,
                ..self
            },
            _ => self,
        }
    }

    // The bank at 0x0000..=0x3FFF.
    pub fn bank_0(self) -> u16
        ensures { result ≡ bank0 self }
    {
        0
    }

    // The bank at 0x4000..=0x7FFF, not yet modulo the bank count.
    pub fn bank_x(self) -> u16
        ensures { result ≡ bank_x self }
    {
        self.bank
    }

    // Where an address of the RAM window falls in a RAM area of this size.
    pub fn ram_at(self, size: usize, addr: u16) -> Option<usize>
        ensures { result ≡ ram_at self size addr }
    {
        if self.enabled {
            return banking::ram_place(size, self.ram, addr);
        }
        None
    }

    // Whether the registers are ones that writes can give.
    pub fn fit(self) -> bool
        ensures { result ≡ fit_registers self }
    {
        both(self.bank <= 511, self.ram <= 15)
    }
}
