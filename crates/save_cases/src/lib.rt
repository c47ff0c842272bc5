// The jobs of the program that shows the save file (jobs.rt), and what a cartridge is given for each.
#![tactic(auto)]

pub mod jobs;

use bus_lines::number;
use bus_recipe::steps::Step;
use cartridge::Cartridge;
use clock_block::Block;
use facts::saturating_sub;
use jobs::{Job, Moment};
use mount::MountRefusal;
use save_flows::{Reading, between, tables, timed};
use std::io;

// Saved into n bytes of this room, and the sum of all of it.
fn room_of(
    rt: &impl Print,
    rom: &[u8],
    ram: &mut [u8],
    type_byte: u8,
    room: &mut [u8],
    n: usize,
) -> io::Result<()> {
    if room.len() < n {
        return Ok(());
    }
    save_flows::first(rt, rom, ram, &mut room[..n], type_byte, &[], 1000)?;
    number(rt, b'A', bus_lines::sum(room))
}

fn mounted(rom: &[u8], ram: &mut [u8], n: usize) -> Result<Cartridge, MountRefusal> {
    if ram.len() < n {
        return Err(MountRefusal::WrongArea);
    }
    mount::mount(rom, &mut ram[..n], 1000)
}

// With this bank count and n bytes of the RAM lent; the cartridge is mounted with all but 512 of them.
fn wrong(
    rt: &impl Print,
    rom: &[u8],
    ram: &mut [u8],
    type_byte: u8,
    banks: u16,
    n: usize,
) -> io::Result<()> {
    if ram.len() < 512 {
        return Ok(());
    }
    let area = ram.len() - 512;
    let Ok(cart) = mounted(rom, ram, area) else {
        return Ok(());
    };
    bus_lines::heading(rt, cart, type_byte)?;
    save_lines::both(rt, Cartridge { banks, ..cart }, ram, n, &mut [0xEE; 10])
}

// A block saved at time 1000.
fn block(moment: Moment, offset: u64) -> Block {
    let Moment(day, hour, minute, second) = moment;
    Block {
        second,
        minute,
        hour,
        day,
        time: 1000,
        offset,
    }
}

// More than any save has.
const ALL: usize = 0x100000;

// A whole save with this block, read at this wall time.
fn whole(moment: Moment, offset: u64, wall: u64) -> Reading {
    Reading {
        block: block(moment, offset),
        most: ALL,
        wall,
    }
}

// Saved at this wall time, and read then, 61 seconds later, 400 days later, and 900 seconds earlier.
fn slept(
    rt: &impl Print,
    rom: &[u8],
    ram: &mut [u8],
    type_byte: u8,
    table: &[Step],
    wall: u32,
) -> io::Result<()> {
    let time = wall as u64;
    let later = [time + 61, time + 34_560_000, saturating_sub(time, 900)];
    timed(rt, rom, ram, type_byte, table, time, &later)
}

pub fn show(
    rt: &impl Print,
    rom: &[u8],
    ram: &mut [u8],
    type_byte: u8,
    job: Job,
) -> io::Result<()> {
    match job {
        Job::Whole(moment, wall) => {
            let save = whole(moment, 0, wall);
            between(rt, rom, ram, type_byte, &[], save, &tables::READS)
        }
        Job::Offset(moment, offset) => {
            let save = whole(moment, offset, 1000);
            between(rt, rom, ram, type_byte, &[], save, &tables::READS)
        }
        Job::Refused(moment, offset) => {
            let save = whole(moment, offset, 1000);
            between(rt, rom, ram, type_byte, &tables::FILLED, save, &[])
        }
        Job::Used(moment) => {
            let save = whole(moment, 0, 1000);
            between(rt, rom, ram, type_byte, &tables::USED, save, &tables::AFTER)
        }
        Job::Cut(moment, most) => {
            let save = Reading {
                most,
                ..whole(moment, 0, 1000)
            };
            between(rt, rom, ram, type_byte, &[], save, &[])
        }
        Job::Plain => timed(rt, rom, ram, type_byte, &[], 1000, &[]),
        Job::Day111(wall) => slept(rt, rom, ram, type_byte, &tables::DAY_111, wall),
        Job::Day300(wall) => slept(rt, rom, ram, type_byte, &tables::DAY_300, wall),
        Job::Short(size) => room_of(rt, rom, ram, type_byte, &mut save_lines::room(), size),
        Job::Wrong(banks, lent) => wrong(rt, rom, ram, type_byte, banks, lent),
    }
}
