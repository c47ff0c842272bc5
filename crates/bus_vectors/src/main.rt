// What 20 mounted cartridges answer, each of another shape (cases.rt). The image is made by the recipe of bus_recipe; each is given
// the same first steps, its mapper's (directed.rt) and 64 that are drawn (bus_recipe). bus_lines has the line for a step; `M`
// begins a cartridge with the image's length, type byte, banks and RAM size, `S` ends it with a sum over its whole RAM area.
//
// The lines are the answers of mizu-core 1.3.0 to the same accesses on the same images, made by the same recipe. It cannot be
// asked where an access or a mounting is refused: the last four cases' `X` and `N` lines are by the rules alone.
#![tactic(auto)]

mod cases;
mod directed;

use bus_recipe::build::{self, Case};
use bus_recipe::draw;
use bus_recipe::steps::Step;
use cartridge::Cartridge;
use std::io;

fn played(
    rt: &impl Print,
    start: Cartridge,
    rom: &[u8],
    ram: &mut [u8],
    case: Case,
    table: &[Step],
) -> io::Result<()> {
    let begun = bus_lines::each(rt, start, rom, ram, &directed::START)?;
    let directed = bus_lines::each(rt, begun, rom, ram, table)?;
    bus_lines::each(rt, directed, rom, ram, &draw::steps(case.seed()))?;
    bus_lines::number(rt, b'S', bus_lines::sum(ram))
}

// At wall time 7, which no access shows.
fn mounted(
    rt: &impl Print,
    rom: &[u8],
    ram: &mut [u8],
    case: Case,
    table: &[Step],
) -> io::Result<()> {
    match mount::mount(rom, ram, 7) {
        Ok(cart) => {
            bus_lines::heading(rt, cart, case.type_byte)?;
            played(rt, cart, rom, ram, case, table)
        }
        Err(why) => bus_lines::number(rt, b'N', why.number() as u64),
    }
}

// The parts of the image and of the RAM that the case lends.
fn cut(
    rt: &impl Print,
    image: &[u8],
    ram: &mut [u8],
    case: Case,
    table: &[Step],
) -> io::Result<()> {
    if image.len() < case.length || ram.len() < case.area {
        return Ok(());
    }
    let rom = &image[..case.length];
    mounted(rt, rom, &mut ram[..case.area], case, table)
}

// Each case with its accesses.
fn all(
    rt: &impl Print,
    image: &mut [u8; 0x800000],
    ram: &mut [u8; 0x20200],
    cases: &[Case],
    table: &[Step],
) -> io::Result<()> {
    for case in cases {
        build::header(image, *case);
        cut(rt, image, ram, *case, table)?;
    }
    Ok(())
}

fn main(rt: HostRuntime) -> io::Result<()> {
    let mut bytes = bus_recipe::blank(rt.alloc(), 0x800000)?;
    let Some(image) = bytes.as_mut_slice().as_mut_array() else {
        unreachable!()
    };
    let mut ram = [0u8; 0x20200];
    build::fill(image);
    all(
        &rt,
        image,
        &mut ram,
        &cases::NO_MAPPER,
        &directed::NO_MAPPER,
    )?;
    all(&rt, image, &mut ram, &cases::MBC1, &directed::MBC1)?;
    all(&rt, image, &mut ram, &cases::MBC2, &directed::MBC2)?;
    all(&rt, image, &mut ram, &cases::MBC3, &directed::MBC3)?;
    all(&rt, image, &mut ram, &cases::MBC5, &directed::MBC5)?;
    all(&rt, image, &mut ram, &cases::REFUSED, &directed::REFUSED)
}
