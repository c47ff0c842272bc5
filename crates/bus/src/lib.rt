// The bus: reads, writes and passing clocks of a mounted cartridge. No call asks anything of its caller: what does not fit
// is refused, by the first of the numbers 13 to 17 that holds, and then nothing has changed.
#![tactic(auto)]

ghost use Rattle.std.specs.Prelude.{true, ◌≡◌};
ghost use Rattle.mapper.specs.Mappers as moving;
ghost use Rattle.cartridge.specs.Fit.{fit_cart};
ghost use Rattle.bus.specs.Bus.{rom_byte, read_of, write_of, area_after};
ghost use Rattle.bus.specs.Advance.{advance_of, from_mapper};

use access::{BusRefusal, Target};
use cartridge::Cartridge;
use clock::AdvanceRefusal;
use facts::both;

fn rom_byte(cart: Cartridge, rom: &[u8], addr: u16) -> u8
    requires { fit_cart cart ≡ true }
    ensures { result ≡ rom_byte cart rom.now addr }
{
    let mapper = cart.mapper;
    let bank = mapper.bank_at(addr);
    image::byte_at(rom, banking::rom_place(cart.banks, bank, addr))
}

// What an address reads. Lent are the image as it was mounted and the RAM area.
pub fn read(cart: Cartridge, rom: &[u8], ram: &[u8], addr: u16) -> Result<u8, BusRefusal>
    ensures { result ≡ read_of cart rom.now ram.now addr }
{
    let lent = both(rom.len() == cart.length, cart.is_area(ram.len()));
    let target = access::judge(cart, lent, addr, false)?;
    match target {
        Target::Rom => Ok(rom_byte(cart, rom, addr)),
        Target::Ram => Ok(window::read(cart.mapper, cart.size, ram, addr)),
    }
}

// A byte written to an address. Lent is the RAM area alone: a write never looks at the image.
pub fn write(cart: Cartridge, ram: &mut [u8], addr: u16, byte: u8) -> Result<Cartridge, BusRefusal>
    ensures value { result ≡ write_of cart ram.old addr byte }
    ensures ram_after { ram.new ≡ area_after cart ram.old addr byte }
{
    let mapper = cart.mapper;
    let bad = mapper.bad_selection(addr, byte);
    let target = access::judge(cart, cart.is_area(ram.len()), addr, bad)?;
    match target {
        Target::Rom => Ok(Cartridge {
            mapper: mapper.write_register(addr, byte),
            ..cart
        }),
        Target::Ram => Ok(Cartridge {
            mapper: window::write(mapper, cart.size, ram, addr, byte),
            ..cart
        }),
    }
}

fn advance_mapper(cart: Cartridge, n: u64) -> Result<Cartridge, AdvanceRefusal>
    ensures { result ≡ from_mapper cart (moving.advance_of cart.mapper n) }
{
    let mapper = cart.mapper.advance(n)?;
    Ok(Cartridge { mapper, ..cart })
}

// n mapper clocks on. The mapper tests its own registers, so only what was mounted is tested here.
pub fn advance(cart: Cartridge, n: u64) -> Result<Cartridge, AdvanceRefusal>
    ensures { result ≡ advance_of cart n }
{
    if !cart.fit_board() {
        return Err(AdvanceRefusal::Unfit);
    }
    advance_mapper(cart, n)
}
