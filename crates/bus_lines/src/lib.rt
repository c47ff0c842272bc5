// What the programs that show the bus and the save file print: a line for each access, `R A000 5C` read, `W A000 5C` written,
// `C 5` clocks passed, `F 512` RAM filled, `X 15` refused; and what a cartridge and its RAM area are.
#![tactic(auto)]

use bus_recipe::build;
use bus_recipe::steps::Step;
use cartridge::Cartridge;
use std::io;

fn digit(n: u16) -> u8 {
    let d = (n % 16) as u8;
    if d < 10 { 48 + d } else { 55 + d }
}

fn line(rt: &impl Print, letter: u8, addr: u16, byte: u8) -> io::Result<()> {
    let b = byte as u16;
    let out = [
        letter,
        b' ',
        digit(addr / 4096),
        digit(addr / 256),
        digit(addr / 16),
        digit(addr),
        b' ',
        digit(b / 16),
        digit(b),
        b'\n',
    ];
    rt.write_all(&out)
}

fn pair(rt: &impl Print, byte: u8) -> io::Result<()> {
    let b = byte as u16;
    rt.write_all(&[b' ', digit(b / 16), digit(b)])
}

// ` 5C` for each byte.
pub fn hex(rt: &impl Print, bytes: &[u8]) -> io::Result<()> {
    for b in bytes {
        pair(rt, *b)?;
    }
    Ok(())
}

pub fn field(rt: &impl Print, n: u64) -> io::Result<()> {
    print!(rt; " {n}")
}

pub fn number(rt: &impl Print, letter: u8, n: u64) -> io::Result<()> {
    rt.write_all(&[letter])?;
    field(rt, n)?;
    println!(rt)
}

// The cartridge that was mounted: length, type byte, banks, RAM size.
pub fn heading(rt: &impl Print, cart: Cartridge, type_byte: u8) -> io::Result<()> {
    print!(rt; "M")?;
    field(rt, cart.length as u64)?;
    field(rt, type_byte as u64)?;
    field(rt, cart.banks as u64)?;
    field(rt, cart.size as u64)?;
    println!(rt)
}

fn folded(s: u64, b: u8) -> u64 {
    (s % 0x1_0000_0000 * 31 + b as u64) % 0x1_0000_0000
}

// Each byte counts with its place.
pub fn sum(bytes: &[u8]) -> u64 {
    let mut s: u64 = 0;
    for b in bytes {
        s = folded(s, *b);
    }
    s
}

fn read(rt: &impl Print, cart: Cartridge, rom: &[u8], ram: &[u8], addr: u16) -> io::Result<()> {
    match bus::read(cart, rom, ram, addr) {
        Ok(b) => line(rt, b'R', addr, b),
        Err(why) => number(rt, b'X', why.number() as u64),
    }
}

// A refusal has its number for a line, and the cartridge stays.
fn refused(rt: &impl Print, cart: Cartridge, why: u8) -> io::Result<Cartridge> {
    number(rt, b'X', why as u64)?;
    Ok(cart)
}

fn write(
    rt: &impl Print,
    cart: Cartridge,
    ram: &mut [u8],
    addr: u16,
    byte: u8,
) -> io::Result<Cartridge> {
    match bus::write(cart, ram, addr, byte) {
        Ok(next) => {
            line(rt, b'W', addr, byte)?;
            Ok(next)
        }
        Err(why) => refused(rt, cart, why.number()),
    }
}

// With no line, unless it is refused.
fn quiet(
    rt: &impl Print,
    cart: Cartridge,
    ram: &mut [u8],
    addr: u16,
    byte: u8,
) -> io::Result<Cartridge> {
    match bus::write(cart, ram, addr, byte) {
        Ok(next) => Ok(next),
        Err(why) => refused(rt, cart, why.number()),
    }
}

fn advance(rt: &impl Print, cart: Cartridge, n: u64) -> io::Result<Cartridge> {
    match bus::advance(cart, n) {
        Ok(next) => {
            number(rt, b'C', n)?;
            Ok(next)
        }
        Err(why) => refused(rt, cart, why.number()),
    }
}

// The bank, then the byte: a mix of its place n in the area, moved behind all places of an image.
fn filled_at(rt: &impl Print, cart: Cartridge, ram: &mut [u8], n: usize) -> io::Result<Cartridge> {
    let banked = quiet(rt, cart, ram, 0x4000, (n / 0x2000 % 16) as u8)?;
    let byte = build::mixed(n % 0x800000 + 0x800000);
    quiet(rt, banked, ram, (0xA000 + n % 0x2000) as u16, byte)
}

fn filled(rt: &impl Print, start: Cartridge, ram: &mut [u8]) -> io::Result<Cartridge> {
    let mut cart = start;
    let length = ram.len();
    for n in 0..length {
        cart = filled_at(rt, cart, ram, n)?;
    }
    number(rt, b'F', length as u64)?;
    Ok(cart)
}

fn take(
    rt: &impl Print,
    cart: Cartridge,
    rom: &[u8],
    ram: &mut [u8],
    step: Step,
) -> io::Result<Cartridge> {
    match step {
        Step::Read(addr) => {
            read(rt, cart, rom, ram, addr)?;
            Ok(cart)
        }
        Step::Write(addr, byte) => write(rt, cart, ram, addr, byte),
        Step::Quiet(addr, byte) => quiet(rt, cart, ram, addr, byte),
        Step::Clocks(n) => advance(rt, cart, n),
        Step::Fill => filled(rt, cart, ram),
    }
}

// Each step in its turn, and its line.
pub fn each(
    rt: &impl Print,
    start: Cartridge,
    rom: &[u8],
    ram: &mut [u8],
    steps: &[Step],
) -> io::Result<Cartridge> {
    let mut cart = start;
    for step in steps {
        cart = take(rt, cart, rom, ram, *step)?;
    }
    Ok(cart)
}
