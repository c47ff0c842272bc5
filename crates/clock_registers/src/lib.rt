// The registers of an MBC3's clock: second, minute, hour, day, halt and carry. Stepping by whole seconds is a closed form by
// division: no loop and no recursion, and one second costs what 2^64 - 1 of them cost.
#![tactic(auto)]

ghost use Rattle.std.specs.Prelude.{true, ◌≡◌, ◌<◌, get_or};
ghost use Rattle.facts.specs.Counter.{cyclic, Ran};
ghost use Rattle.clock_registers.specs.Fit.{fit_registers};
ghost use Rattle.clock_registers.specs.Seconds.{seconds_on, forward_of};
ghost use Rattle.clock_registers.specs.Access.{zeros, readings, writings};

use facts::{Counted, both, either, from_below};

#[derive(Clone, Copy)]
pub struct Registers {
    pub second: u8,
    pub minute: u8,
    pub hour: u8,
    pub day: u16,
    pub halt: bool,
    pub carry: bool,
}

// n steps of a counter of `width` values with a stop. From the stop on it runs to the last value and then from 0.
fn run(width: u64, stop: u64, v: u64, n: u64) -> Counted
    requires { (0 < stop) × (stop < width) × (v < width) }
    ensures { Ran (cyclic width stop) n v result.value result.carried × (result.value < width) }
{
    if v < stop {
        return from_below(stop, v, n);
    }
    let left = width - v;
    if n < left {
        return Counted {
            value: v + n,
            carried: 0,
        };
    }
    from_below(stop, 0, n - left)
}

impl Registers {
    // All zero, as at the start.
    pub fn new() -> Self
        ensures { result ≡ zeros }
    {
        Registers {
            second: 0,
            minute: 0,
            hour: 0,
            day: 0,
            halt: false,
            carry: false,
        }
    }

    // Whether each register fits its width.
    pub fn fit(self) -> bool
        ensures { result ≡ fit_registers self }
    {
        both(
            self.second < 64,
            both(self.minute < 64, both(self.hour < 32, self.day < 512)),
        )
    }

    // n seconds on: each place takes as many steps as the place before it carries.
    fn seconds_on(self, n: u64) -> Registers
        requires { fit_registers self ≡ true }
        ensures { result ≡ seconds_on n self }
    {
        let second = run(64, 60, self.second as u64, n);
        let minute = run(64, 60, self.minute as u64, second.carried);
        let hour = run(32, 24, self.hour as u64, minute.carried);
        let day = from_below(512, self.day as u64, hour.carried);
        Registers {
            second: second.value as u8,
            minute: minute.value as u8,
            hour: hour.value as u8,
            day: day.value as u16,
            halt: self.halt,
            carry: either(self.carry, 0 < day.carried),
        }
    }

    // n seconds on, whatever the halt says: the step of every catch-up. Registers beyond their widths take none.
    pub fn forward(self, n: u64) -> Option<Registers>
        ensures { result ≡ forward_of self n }
    {
        if self.fit() {
            return Some(self.seconds_on(n));
        }
        None
    }

    // What the bus reads at register n, and 0 where there is none.
    pub fn get(self, n: u8) -> u8
        ensures { result ≡ get_or (readings self) n 0 }
    {
        match n {
            0 => self.second,
            1 => self.minute,
            2 => self.hour,
            3 => (self.day & 0xFF) as u8,
            4 => (self.carry as u8) << 7 | ((self.halt as u8) << 6 | ((self.day >> 8) & 1) as u8),
            _ => 0,
        }
    }

    // The byte b written to register n; where there is none, nothing changes.
    pub fn set(mut self, n: u8, b: u8) -> Registers
        ensures { result ≡ get_or (writings self b) n self }
    {
        match n {
            0 => {
                self.second = b & 0x3F;
            }
            1 => {
                self.minute = b & 0x3F;
            }
            2 => {
                self.hour = b & 0x1F;
            }
            3 => {
                self.day = self.day & 0x100 | b as u16;
            }
            4 => {
                self.day = ((b & 1) as u16) << 8 | self.day & 0xFF;
                self.halt = b & 0x40 != 0;
                self.carry = b & 0x80 != 0;
            }
            _ => {}
        }
        self
    }
}
