// The RAM window 0xA000..=0xBFFF: the lent bytes, MBC2's half-bytes at their end, or a clock register.
#![tactic(auto)]

ghost use Rattle.std.specs.Prelude.{◌≡◌, length};
ghost use Rattle.banking.specs.Banks.{Inside};
ghost use Rattle.mapper.specs.Mappers.{area_of};
ghost use Rattle.window.specs.Window.{by_selection, way_of, loaded, stored, read_by, area_by, mapper_by, read_of, area_after, mapper_after, Within};

use mapper::Mapper;
use mbc2::Mbc2;
use mbc3::Mbc3;

// What an address of the window leads to.
#[derive(Drop)]
pub enum Way {
    // A place in the lent bytes, if one is mapped.
    Bytes(Option<usize>),
    Half(Mbc2),
    Timer(Mbc3),
}

fn by_selection(m: Mbc3, size: usize, addr: u16) -> Way
    ensures { result ≡ by_selection m size addr }
{
    if m.memory {
        return Way::Bytes(m.ram_at(size, addr));
    }
    Way::Timer(m)
}

// What an address of the window leads to.
pub fn way_of(mapper: Mapper, size: usize, addr: u16) -> Way
    ensures { result ≡ way_of mapper size addr }
{
    match mapper {
        Mapper::NoMapper(m) => Way::Bytes(m.ram_at(size, addr)),
        Mapper::Mbc1(m) => Way::Bytes(m.ram_at(size, addr)),
        Mapper::Mbc2(m) => Way::Half(m),
        Mapper::Mbc3(m) => by_selection(m, size, addr),
        Mapper::Mbc5(m) => Way::Bytes(m.ram_at(size, addr)),
    }
}

pub fn load(ram: &[u8], place: Option<usize>) -> u8
    requires { Inside place (length ram.now) }
    ensures { result ≡ loaded ram.now place }
{
    match place {
        Some(i) => ram[i],
        None => 0xFF,
    }
}

fn store(ram: &mut [u8], place: Option<usize>, byte: u8)
    requires { Inside place (length ram.old) }
    ensures { ram.new ≡ stored ram.old place byte }
{
    if let Some(i) = place {
        ram[i] = byte;
    }
}

fn read_by(way: Way, size: usize, ram: &[u8], addr: u16) -> u8
    requires { Within way size (length ram.now) }
    ensures { result ≡ read_by way size ram.now addr }
{
    match way {
        Way::Bytes(place) => load(ram, place),
        Way::Half(m) => m.read_half(&ram[size..], addr),
        Way::Timer(m) => timer::read(m),
    }
}

fn write_by(way: Way, mapper: Mapper, size: usize, ram: &mut [u8], addr: u16, byte: u8) -> Mapper
    requires { Within way size (length ram.old) }
    ensures value { result ≡ mapper_by way mapper byte }
    ensures ram_after { ram.new ≡ area_by way size ram.old addr byte }
{
    match way {
        Way::Bytes(place) => {
            store(ram, place, byte);
            mapper
        }
        Way::Half(m) => {
            m.write_half(&mut ram[size..], addr, byte);
            mapper
        }
        Way::Timer(m) => Mapper::Mbc3(timer::write(m, byte)),
    }
}

// What an address of the window reads.
pub fn read(mapper: Mapper, size: usize, ram: &[u8], addr: u16) -> u8
    requires { length ram.now ≡ area_of mapper size }
    ensures { result ≡ read_of mapper size ram.now addr }
{
    read_by(way_of(mapper, size, addr), size, ram, addr)
}

// A byte written to an address of the window: into the area, or into a clock register of the mapper that comes back.
pub fn write(mapper: Mapper, size: usize, ram: &mut [u8], addr: u16, byte: u8) -> Mapper
    requires { length ram.old ≡ area_of mapper size }
    ensures value { result ≡ mapper_after mapper size addr byte }
    ensures ram_after { ram.new ≡ area_after mapper size ram.old addr byte }
{
    write_by(way_of(mapper, size, addr), mapper, size, ram, addr, byte)
}
