// What the programs that show the header's verdict share: images by the recipe of build.rt, and the line for the verdict on
// one. A line is `A`, kind, multicart, RAM, battery, banks, RAM size, colour and title length of an accepted image, or `N` and
// the number of the refusal.
#![tactic(auto)]

pub mod build;

use header::Facts;
use std::io;
use types::Kind;

// The three bytes of a header that say what the cartridge is.
#[derive(Clone, Copy)]
pub struct Codes {
    pub type_byte: u8,
    pub rom_code: u8,
    pub ram_code: u8,
}

fn byte(rt: &impl Print, b: u8) -> io::Result<()> {
    rt.write_all(&[b])
}

fn field(rt: &impl Print, n: u64) -> io::Result<()> {
    print!(rt; " {n}")
}

// 0 no mapper, 1 MBC1, 2 MBC2, 3 and 4 MBC3 without and with a timer, 5 and 6 MBC5 without and with rumble.
fn kind_number(k: Kind) -> u64 {
    match k {
        Kind::NoMapper => 0,
        Kind::Mbc1 => 1,
        Kind::Mbc2 => 2,
        Kind::Mbc3 { timer } => { if timer { 4 } else { 3 } }
        Kind::Mbc5 { rumble } => { if rumble { 6 } else { 5 } }
        Kind::Mmm01 => 7,
        Kind::Mbc6 => 8,
        Kind::Mbc7 => 9,
    }
}

fn show_facts(rt: &impl Print, f: Facts) -> io::Result<()> {
    byte(rt, b'A')?;
    field(rt, kind_number(f.kind))?;
    field(rt, f.multicart as u64)?;
    field(rt, f.ram as u64)?;
    field(rt, f.battery as u64)?;
    field(rt, f.banks as u64)?;
    field(rt, f.size as u64)?;
    field(rt, f.colour as u64)?;
    field(rt, f.title as u64)
}

// The line for an image as it is.
pub fn show(rt: &impl Print, image: &[u8]) -> io::Result<()> {
    match header::check(image) {
        Ok(f) => show_facts(rt, f)?,
        Err(why) => {
            byte(rt, b'N')?;
            field(rt, why.number() as u64)?;
        }
    }
    byte(rt, b'\n')
}

// The line for the first n bytes of an image, if it has as many.
pub fn cut(rt: &impl Print, image: &[u8], n: usize) -> io::Result<()> {
    if n <= image.len() {
        show(rt, &image[..n])?;
    }
    Ok(())
}

// The line for an image that is given a header with this title.
pub fn made(rt: &impl Print, image: &mut [u8], title: &[u8], codes: Codes) -> io::Result<()> {
    build::header(image, title, codes);
    show(rt, image)
}
