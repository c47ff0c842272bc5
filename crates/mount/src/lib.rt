// Mounting: the verdict on an image, the length of the lent RAM area, and the cartridge at its start.
#![tactic(auto)]

ghost use Rattle.std.specs.Prelude.{◌≡◌, ◌≤◌};
ghost use Rattle.mount.specs.declared.MountRefusal.TheVariants.{Header};
ghost use Rattle.mount.specs.Mount.{number_of, start_of, cart_of, area_in, area_for, mount_of, area_after};

use cartridge::Cartridge;
use header::{Facts, HeaderRefusal};
use mapper::Mapper;
use mbc1::Mbc1;
use mbc2::Mbc2;
use mbc3::Mbc3;
use mbc5::Mbc5;
use no_mapper::NoMapper;
use types::Kind;

// Why an image is not mounted, in the order of the tests.
#[derive(Clone, Copy, Debug, PartialEq, Eq)]
pub enum MountRefusal {
    Header(HeaderRefusal),
    WrongArea,
}

// A header that is refused refuses the mounting.
impl From<HeaderRefusal> for MountRefusal {
    ghost from_gives = { λ why r. r ≡ Header why };

    fn from(why: HeaderRefusal) -> MountRefusal {
        MountRefusal::Header(why)
    }
}

impl MountRefusal {
    pub fn number(self) -> u8
        ensures { result ≡ number_of self }
    {
        match self {
            MountRefusal::Header(why) => why.number(),
            MountRefusal::WrongArea => 12,
        }
    }
}

// The mapper at its start. The last three kinds were refused before.
pub fn start(kind: Kind, multicart: bool, wall: u64) -> Mapper
    ensures { result ≡ start_of kind multicart wall }
{
    match kind {
        Kind::NoMapper => Mapper::NoMapper(NoMapper::new()),
        Kind::Mbc1 => Mapper::Mbc1(Mbc1::new(multicart)),
        Kind::Mbc2 => Mapper::Mbc2(Mbc2::new()),
        Kind::Mbc3 { timer } => Mapper::Mbc3(Mbc3::new(timer, wall)),
        Kind::Mbc5 { rumble: _ } => Mapper::Mbc5(Mbc5::new()),
        Kind::Mmm01 => Mapper::NoMapper(NoMapper::new()),
        Kind::Mbc6 => Mapper::NoMapper(NoMapper::new()),
        Kind::Mbc7 => Mapper::NoMapper(NoMapper::new()),
    }
}

// The length of the RAM area that goes with a kind and a RAM size of the header.
pub fn area_of(kind: Kind, size: usize) -> usize
    requires { size ≤ 0x20000 }
    ensures { result ≡ area_in kind size }
{
    let mapper = start(kind, false, 0);
    mapper.area(size)
}

// The length of the RAM area that mounting this image asks for, or why it is no image.
pub fn ask_area(image: &[u8]) -> Result<usize, HeaderRefusal>
    ensures { result ≡ area_for image.now }
{
    let facts = header::check(image)?;
    Ok(area_of(facts.kind, facts.size))
}

fn started(facts: Facts, length: usize, wall: u64) -> Cartridge
    ensures { result ≡ cart_of facts length wall }
{
    let kind = facts.kind;
    Cartridge {
        length,
        banks: facts.banks,
        size: facts.size,
        battery: facts.battery,
        mapper: start(kind, facts.multicart, wall),
    }
}

// Mounts an image. Lent is the RAM area; it is zeroed where the image is mounted, and stays as it is where it is not.
pub fn mount(image: &[u8], ram: &mut [u8], wall: u64) -> Result<Cartridge, MountRefusal>
    ensures value { result ≡ mount_of image.now ram.old wall }
    ensures ram_after { ram.new ≡ area_after image.now ram.old wall }
{
    let facts = header::check(image)?;
    let cart = started(facts, image.len(), wall);
    if !cart.is_area(ram.len()) {
        return Err(MountRefusal::WrongArea);
    }
    ram.fill(0);
    Ok(cart)
}
