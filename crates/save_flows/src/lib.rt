// What a cartridge and its save go through in the program that shows the save file.
#![tactic(auto)]

pub mod tables;

use bus_lines::number;
use bus_recipe::steps::Step;
use cartridge::Cartridge;
use clock_block::Block;
use save_lines::part;
use std::io;

// How a made save is read.
#[derive(Clone, Copy)]
pub struct Reading {
    pub block: Block,
    // How many bytes of the save are read at most.
    pub most: usize,
    pub wall: u64,
}

// Mounted at wall time 1000, filled and played, and saved at this wall time: the save's length.
pub fn first(
    rt: &impl Print,
    rom: &[u8],
    ram: &mut [u8],
    room: &mut [u8],
    type_byte: u8,
    table: &[Step],
    wall: u64,
) -> io::Result<usize> {
    let Ok(start) = mount::mount(rom, ram, 1000) else {
        return Ok(0);
    };
    bus_lines::heading(rt, start, type_byte)?;
    let filled = bus_lines::each(rt, start, rom, ram, &tables::FILLED)?;
    let cart = bus_lines::each(rt, filled, rom, ram, table)?;
    save_lines::save(rt, cart, ram, room, wall)
}

// Mounted at this wall time, the save read, the registers read, and saved again.
fn again(rt: &impl Print, rom: &[u8], ram: &mut [u8], save: &[u8], wall: u64) -> io::Result<()> {
    let Ok(start) = mount::mount(rom, ram, wall) else {
        return Ok(());
    };
    let woken = save_lines::load(rt, start, ram, save, wall)?;
    let cart = bus_lines::each(rt, woken, rom, ram, &tables::READS)?;
    number(rt, b'A', bus_lines::sum(ram))?;
    let mut room = save_lines::room();
    save_lines::save(rt, cart, ram, &mut room, wall)?;
    Ok(())
}

// Saved at this wall time, and read then and at each of the later times.
pub fn timed(
    rt: &impl Print,
    rom: &[u8],
    ram: &mut [u8],
    type_byte: u8,
    table: &[Step],
    wall: u64,
    later: &[u64],
) -> io::Result<()> {
    let mut room = save_lines::room();
    let n = first(rt, rom, ram, &mut room, type_byte, table, wall)?;
    let save = part(&room, 0, n);
    again(rt, rom, ram, save, wall)?;
    for time in later {
        again(rt, rom, ram, save, *time)?;
    }
    Ok(())
}

// A save that no cartridge wrote: each byte of RAM a mix of its place, a block, and three bytes more. How many bytes are read of it,
// or 0 where the room is too short.
fn made(room: &mut [u8], area: usize, block: Block, most: usize) -> usize {
    if room.len() < area {
        return 0;
    }
    if room.len() - area < 24 {
        return 0;
    }
    block.write(&mut room[area..]);
    if most < area + 24 {
        return most;
    }
    area + 24
}

// A made save read, and played on.
fn onwards(
    rt: &impl Print,
    cart: Cartridge,
    rom: &[u8],
    ram: &mut [u8],
    save: Reading,
    after: &[Step],
) -> io::Result<()> {
    let mut room = save_lines::mixed_room();
    let n = made(&mut room, ram.len(), save.block, save.most);
    number(rt, b'B', n as u64)?;
    let next = save_lines::load(rt, cart, ram, part(&room, 0, n), save.wall)?;
    let last = bus_lines::each(rt, next, rom, ram, after)?;
    save_lines::kept(rt, last, ram, save.wall)
}

// Played, a made save read, and played on; what is kept before and after.
pub fn between(
    rt: &impl Print,
    rom: &[u8],
    ram: &mut [u8],
    type_byte: u8,
    before: &[Step],
    save: Reading,
    after: &[Step],
) -> io::Result<()> {
    let Ok(start) = mount::mount(rom, ram, save.wall) else {
        return Ok(());
    };
    bus_lines::heading(rt, start, type_byte)?;
    let cart = bus_lines::each(rt, start, rom, ram, before)?;
    save_lines::kept(rt, cart, ram, save.wall)?;
    onwards(rt, cart, rom, ram, save, after)
}
