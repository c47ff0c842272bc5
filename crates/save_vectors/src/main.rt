// What save files hold and what reading them gives: each battery type with RAM areas of unequal length, sleeps of 400 days and longer,
// saves from the future, saves cut around each boundary, blocks on both sides of the limits, and every refusal. rows.rt has the
// cases, save_cases what each goes through, save_lines and bus_lines the lines.
//
// Where mizu-core 1.3.0 can be asked, the lines are its answers, made with the same images and accesses: it reads a save at mounting and
// writes one at the end. It has no numbers and no lent room and reads no save later; it adds a sleep in one jump, takes blocks that
// are cut or beyond the limits, and a save of an MBC2 that lacks bytes. There the lines are by the rules alone.
#![tactic(auto)]

mod rows;

use bus_recipe::build::{self, Case};
use save_cases::jobs::{Job, Moment};
use std::io;

// The parts of the image and of the RAM that the case lends.
fn cut(rt: &impl Print, image: &[u8], ram: &mut [u8], case: Case, job: Job) -> io::Result<()> {
    if image.len() < case.length || ram.len() < case.area {
        return Ok(());
    }
    let rom = &image[..case.length];
    save_cases::show(rt, rom, &mut ram[..case.area], case.type_byte, job)
}

fn all(
    rt: &impl Print,
    image: &mut [u8; 0x800000],
    ram: &mut [u8; 0x20200],
    rows: &[(Case, Job)],
) -> io::Result<()> {
    for &(case, job) in rows {
        build::header(image, case);
        cut(rt, image, ram, case, job)?;
    }
    Ok(())
}

fn main(rt: HostRuntime) -> io::Result<()> {
    let mut bytes = bus_recipe::blank(rt.alloc(), 0x800000)?;
    let Some(image) = bytes.as_mut_slice().as_mut_array() else {
        unreachable!()
    };
    let mut ram = [0u8; 0x20200];
    build::fill(image);
    all(&rt, image, &mut ram, &rows::ROWS)
}
