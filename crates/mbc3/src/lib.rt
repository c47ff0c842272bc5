// MBC3: up to 256 ROM banks, four RAM banks, and on some boards a clock, which the crate timer reads, writes and advances.
#![tactic(auto)]

ghost use Rattle.std.specs.Prelude.{◌≡◌};
ghost use Rattle.mbc3.specs.Registers.{start, selectable, bad_selection, selected, latched, written, bank0, bank_x, ram_at, fit_registers};

use clock::Clock;
use facts::both;

#[derive(Clone, Copy)]
pub struct Mbc3 {
    pub timer: bool,
    pub enabled: bool,
    pub bank: u8,
    // Whether the RAM bank is selected, or the clock register.
    pub memory: bool,
    pub ram: u8,
    pub register: u8,
    pub clock: Clock,
}

// Whether a byte selects anything: a RAM bank or a clock register.
pub fn selects(byte: u8) -> bool
    ensures { result ≡ selectable byte }
{
    let nibble = byte & 0xF;
    match nibble {
        0..=3 => true,
        8..=0xC => true,
        _ => false,
    }
}

// Whether a write selects what there is not: number 16.
pub fn bad_selection(addr: u16, byte: u8) -> bool
    ensures { result ≡ bad_selection addr byte }
{
    let in_window = both(0x4000 <= addr, addr <= 0x5FFF);
    both(in_window, !selects(byte))
}

impl Mbc3 {
    pub fn new(timer: bool, wall: u64) -> Self
        ensures { result ≡ start timer wall }
    {
        let clock = Clock::new(wall);
        Mbc3 {
            timer,
            enabled: true,
            bank: 1,
            memory: false,
            ram: 0,
            register: 0,
            clock,
        }
    }

    fn select(self, byte: u8) -> Self
        ensures { result ≡ selected self byte }
    {
        let nibble = byte & 0xF;
        match nibble {
            0..=3 => Mbc3 {
                memory: true,
                ram: nibble,
                ..self
            },
            8..=0xC => Mbc3 {
                memory: false,
                register: nibble - 8,
                ..self
            },
            _ => self,
        }
    }

    fn latch(self, byte: u8) -> Self
        ensures { result ≡ latched self byte }
    {
        if self.timer {
            let clock = self.clock;
            return Mbc3 {
                clock: clock.latch(byte),
                ..self
            };
        }
        self
    }

    // A byte that selects nothing changes nothing.
    pub fn write_register(self, addr: u16, byte: u8) -> Self
        ensures { result ≡ written self addr byte }
    {
        match addr {
            0x0000..=0x1FFF => Mbc3 {
                enabled: byte & 0xF == 0xA,
                ..self
            },
            0x2000..=0x3FFF => Mbc3 {
                bank: banking::or_one(byte),
                ..self
            },
            0x4000..=0x5FFF => self.select(byte),
            0x6000..=0x7FFF => self.latch(byte),
            _ => self,
        }
    }

    // The bank at 0x0000..=0x3FFF.
    pub fn bank_0(self) -> u16
        ensures { result ≡ bank0 self }
    {
        0
    }

    // The bank at 0x4000..=0x7FFF, not yet modulo the bank count.
    pub fn bank_x(self) -> u16
        ensures { result ≡ bank_x self }
    {
        self.bank as u16
    }

    // Where an address of the RAM window falls in a RAM area of this size. 2 KiB are never mapped.
    pub fn ram_at(self, size: usize, addr: u16) -> Option<usize>
        ensures { result ≡ ram_at self size addr }
    {
        if both(self.enabled, self.memory) {
            return banking::banked_place(size, self.ram, addr);
        }
        None
    }

    // Whether the registers are ones that writes can give. Without a timer neither the clock is looked at nor which register is selected.
    pub fn fit(self) -> bool
        ensures { result ≡ fit_registers self }
    {
        let banks = both(1 <= self.bank, self.ram <= 3);
        if self.timer {
            let clock = self.clock;
            return both(banks, both(self.register <= 4, clock.fit()));
        }
        banks
    }
}
