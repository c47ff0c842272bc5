// Fields written among bytes that stay, and read back: the bytes, then the numbers. The expected lines are by the rule alone: the
// least byte first.
#![tactic(auto)]

use bytes_le::Field;
use std::io;

fn show(rt: &impl Print, b: u8) -> io::Result<()> {
    print!(rt; "{b} ")
}

fn show_all(rt: &impl Print, bytes: &[u8]) -> io::Result<()> {
    for b in bytes {
        show(rt, *b)?;
    }
    println!(rt)
}

fn number(rt: &impl Print, n: u64) -> io::Result<()> {
    println!(rt; "{n}")
}

// A field of each width with a byte between, and one that reaches the end.
fn fields(rt: &impl Print, bytes: &mut [u8]) -> io::Result<()> {
    if bytes.len() != 20 {
        return Ok(());
    }
    u16::write(bytes, 1, 0x1234);
    u32::write(bytes, 4, 0x89ABCDEF);
    u64::write(bytes, 9, 0x0123456789ABCDEF);
    u16::write(bytes, 18, 0xFF00);
    show_all(rt, bytes)?;
    number(rt, u16::read(bytes, 1) as u64)?;
    number(rt, u32::read(bytes, 4) as u64)?;
    number(rt, u64::read(bytes, 9))?;
    number(rt, u64::read(bytes, 12))
}

fn main(rt: HostRuntime) -> io::Result<()> {
    let mut bytes = [0xEEu8; 20];
    fields(&rt, &mut bytes)
}
