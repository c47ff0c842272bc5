// Whether an access to a mounted cartridge can be made, and to which window: the one place where the order of the numbers 13 to 16
// stands, for reads and writes alike.
#![tactic(auto)]

ghost use Rattle.std.specs.Prelude.{◌≡◌};
ghost use Rattle.access.specs.Verdict.{number_of, noes_by, verdict_by, verdict_of};

use cartridge::Cartridge;

// Why an access is not made, in the order of the tests.
#[derive(Clone, Copy, Debug, PartialEq, Eq)]
pub enum BusRefusal {
    Unfit,
    WrongLength,
    BadAddress,
    BadSelection,
}

// The window that an access is to.
#[derive(Clone, Copy, Debug, PartialEq, Eq)]
pub enum Target {
    Rom,
    Ram,
}

impl BusRefusal {
    pub fn number(self) -> u8
        ensures { result ≡ number_of self }
    {
        match self {
            BusRefusal::Unfit => 13,
            BusRefusal::WrongLength => 14,
            BusRefusal::BadAddress => 15,
            BusRefusal::BadSelection => 16,
        }
    }
}

// By whether the state is fit, whether what is lent has the mounted lengths, and whether the access selects what there is not.
pub fn decide(fit: bool, lent: bool, addr: u16, bad: bool) -> Result<Target, BusRefusal>
    ensures { result ≡ verdict_by addr (noes_by fit lent addr bad) }
{
    if !fit {
        return Err(BusRefusal::Unfit);
    }
    if !lent {
        return Err(BusRefusal::WrongLength);
    }
    match addr {
        0x0000..=0x7FFF => {
            if bad {
                return Err(BusRefusal::BadSelection);
            }
            Ok(Target::Rom)
        }
        0xA000..=0xBFFF => {
            if bad {
                return Err(BusRefusal::BadSelection);
            }
            Ok(Target::Ram)
        }
        _ => Err(BusRefusal::BadAddress),
    }
}

// The same of a cartridge.
pub fn judge(cart: Cartridge, lent: bool, addr: u16, bad: bool) -> Result<Target, BusRefusal>
    ensures { result ≡ verdict_of cart lent addr bad }
{
    decide(cart.fit(), lent, addr, bad)
}
