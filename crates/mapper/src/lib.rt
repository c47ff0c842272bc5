// The mappers as one: an enum over their registers, and each question passed on to the mapper that is in it.
#![tactic(auto)]

ghost use Rattle.std.specs.Prelude.{true, ◌≡◌, ◌≤◌, eqb, Ok, Err};
ghost use Rattle.mapper.specs.Mappers.{holds, fit_registers, area_of, bank0, bank_x, bank_at, written, bad_selection, advance_of, from_timer, kind_of, multicart_banks};
ghost use Rattle.facts.specs.Choice.{pick};
ghost use Rattle.clock.specs.declared.AdvanceRefusal.TheVariants.{Unfit};

use clock::AdvanceRefusal;
use facts::{both, either};
use mbc1::Mbc1;
use mbc2::Mbc2;
use mbc3::Mbc3;
use mbc5::Mbc5;
use no_mapper::NoMapper;
use types::Kind;

#[derive(Clone, Copy)]
pub enum Mapper {
    NoMapper(NoMapper),
    Mbc1(Mbc1),
    Mbc2(Mbc2),
    Mbc3(Mbc3),
    Mbc5(Mbc5),
}

fn timed(answer: Result<Mbc3, AdvanceRefusal>) -> Result<Mapper, AdvanceRefusal>
    ensures { result ≡ from_timer answer }
{
    Ok(Mapper::Mbc3(answer?))
}

// Without a timer nothing moves.
fn still(mapper: Mapper, fit: bool) -> Result<Mapper, AdvanceRefusal>
    ensures { result ≡ pick fit (Ok mapper) (Err Unfit) }
{
    if fit {
        return Ok(mapper);
    }
    Err(AdvanceRefusal::Unfit)
}

impl Mapper {
    fn kind(self) -> Kind
        ensures { result ≡ kind_of self }
    {
        match self {
            Mapper::NoMapper(_) => Kind::NoMapper,
            Mapper::Mbc1(_) => Kind::Mbc1,
            Mapper::Mbc2(_) => Kind::Mbc2,
            Mapper::Mbc3(m) => Kind::Mbc3 { timer: m.timer },
            Mapper::Mbc5(_) => Kind::Mbc5 { rumble: false },
        }
    }

    fn multicart_banks(self, banks: u16) -> bool
        ensures { result ≡ multicart_banks self banks }
    {
        match self {
            Mapper::NoMapper(_) => true,
            Mapper::Mbc1(m) => either(!m.multicart, banks == 64),
            Mapper::Mbc2(_) => true,
            Mapper::Mbc3(_) => true,
            Mapper::Mbc5(_) => true,
        }
    }

    // Whether the mapper can hold this many banks and this much RAM.
    pub fn holds(self, banks: u16, size: usize) -> bool
        ensures { result ≡ holds self banks size }
    {
        let kind = self.kind();
        both(
            !types::is_beyond(kind, banks as u32, size),
            self.multicart_banks(banks),
        )
    }

    // Whether the registers are ones that writes can give.
    pub fn fit(self) -> bool
        ensures { result ≡ fit_registers self }
    {
        match self {
            Mapper::NoMapper(m) => m.fit(),
            Mapper::Mbc1(m) => m.fit(),
            Mapper::Mbc2(m) => m.fit(),
            Mapper::Mbc3(m) => m.fit(),
            Mapper::Mbc5(m) => m.fit(),
        }
    }

    // The length of the RAM area that goes with a RAM size of the header.
    pub fn area(self, size: usize) -> usize
        requires { size ≤ 0x20000 }
        ensures { result ≡ area_of self size }
    {
        match self {
            Mapper::NoMapper(_) => size,
            Mapper::Mbc1(_) => size,
            Mapper::Mbc2(_) => size + 512,
            Mapper::Mbc3(_) => size,
            Mapper::Mbc5(_) => size,
        }
    }

    // Whether an area of len bytes goes with a RAM size of the header. No sum can wrap.
    pub fn is_area(self, size: usize, len: usize) -> bool
        ensures { result ≡ eqb len (area_of self size) }
    {
        match self {
            Mapper::NoMapper(_) => len == size,
            Mapper::Mbc1(_) => len == size,
            Mapper::Mbc2(_) => {
                if len < 512 {
                    return false;
                }
                len - 512 == size
            }
            Mapper::Mbc3(_) => len == size,
            Mapper::Mbc5(_) => len == size,
        }
    }

    fn bank_0(self) -> u16
        requires { fit_registers self ≡ true }
        ensures { result ≡ bank0 self }
    {
        match self {
            Mapper::NoMapper(m) => m.bank_0(),
            Mapper::Mbc1(m) => m.bank_0(),
            Mapper::Mbc2(m) => m.bank_0(),
            Mapper::Mbc3(m) => m.bank_0(),
            Mapper::Mbc5(m) => m.bank_0(),
        }
    }

    fn bank_x(self) -> u16
        requires { fit_registers self ≡ true }
        ensures { result ≡ bank_x self }
    {
        match self {
            Mapper::NoMapper(m) => m.bank_x(),
            Mapper::Mbc1(m) => m.bank_x(),
            Mapper::Mbc2(m) => m.bank_x(),
            Mapper::Mbc3(m) => m.bank_x(),
            Mapper::Mbc5(m) => m.bank_x(),
        }
    }

    // The bank at an address below 0x8000, not yet modulo the bank count.
    pub fn bank_at(self, addr: u16) -> u16
        requires { fit_registers self ≡ true }
        ensures { result ≡ bank_at self addr }
    {
        if addr < 0x4000 {
            self.bank_0()
        } else {
            self.bank_x()
        }
    }

    pub fn write_register(self, addr: u16, byte: u8) -> Self
        ensures { result ≡ written self addr byte }
    {
        match self {
            Mapper::NoMapper(m) => Mapper::NoMapper(m.write_register(addr, byte)),
            Mapper::Mbc1(m) => Mapper::Mbc1(m.write_register(addr, byte)),
            Mapper::Mbc2(m) => Mapper::Mbc2(m.write_register(addr, byte)),
            Mapper::Mbc3(m) => Mapper::Mbc3(m.write_register(addr, byte)),
            Mapper::Mbc5(m) => Mapper::Mbc5(m.write_register(addr, byte)),
        }
    }

    // Whether a write selects what there is not: number 16.
    pub fn bad_selection(self, addr: u16, byte: u8) -> bool
        ensures { result ≡ bad_selection self addr byte }
    {
        match self {
            Mapper::NoMapper(_) => false,
            Mapper::Mbc1(_) => false,
            Mapper::Mbc2(_) => false,
            Mapper::Mbc3(_) => mbc3::bad_selection(addr, byte),
            Mapper::Mbc5(_) => false,
        }
    }

    // n mapper clocks on. Only a timer moves.
    pub fn advance(self, n: u64) -> Result<Mapper, AdvanceRefusal>
        ensures { result ≡ advance_of self n }
    {
        match self {
            Mapper::NoMapper(_) => Ok(self),
            Mapper::Mbc1(m) => still(self, m.fit()),
            Mapper::Mbc2(m) => still(self, m.fit()),
            Mapper::Mbc3(m) => timed(timer::advance(m, n)),
            Mapper::Mbc5(m) => still(self, m.fit()),
        }
    }
}
