// No mapper: two ROM banks where they stand, and at most 8 KiB of RAM that is always on. There is no register.
#![tactic(auto)]

ghost use Rattle.std.specs.Prelude.{◌≡◌};
ghost use Rattle.no_mapper.specs.Registers.{start, written, bank0, bank_x, ram_at, fit_registers};

#[derive(Clone, Copy)]
pub struct NoMapper {}

impl NoMapper {
    pub fn new() -> Self
        ensures { result ≡ start }
    {
        NoMapper {}
    }

    // There is nothing to write to.
    pub fn write_register(self, addr: u16, byte: u8) -> Self
        ensures { result ≡ written self addr byte }
    {
        self
    }

    // The bank at 0x0000..=0x3FFF.
    pub fn bank_0(self) -> u16
        ensures { result ≡ bank0 self }
    {
        0
    }

    // The bank at 0x4000..=0x7FFF.
    pub fn bank_x(self) -> u16
        ensures { result ≡ bank_x self }
    {
        1
    }

    // Where an address of the RAM window falls in a RAM area of this size.
    pub fn ram_at(self, size: usize, addr: u16) -> Option<usize>
        ensures { result ≡ ram_at self size addr }
    {
        banking::ram_place(size, 0, addr)
    }

    // There is nothing that could be unfit.
    pub fn fit(self) -> bool
        ensures { result ≡ fit_registers self }
    {
        true
    }
}
