// How many byte strings are UTF-8: a line for each first byte, with the number of second bytes for which one byte, two, two and
// a tail, and two and two tails pass. The expected lines are the counts of Rust's `String::from_utf8` over the same strings.
#![tactic(auto)]

ghost use Rattle.std.specs.Prelude.{◌≤◌};

use std::io;

fn taken(first: u8, second: u8, n: usize) -> u32
    ensures { result ≤ 1 }
{
    let all = [first, second, 0x80, 0x80];
    let start: usize = 0;
    if 4 < n {
        return 0;
    }
    if utf8::is_utf8(&all[start..n]) { 1 } else { 0 }
}

fn count(first: u8, n: usize) -> u32 {
    let mut passed: u32 = 0;
    for b in 0..=255u8 {
        passed = passed % 256 + taken(first, b, n);
    }
    passed
}

fn show(rt: &impl Print, mark: char, n: u32) -> io::Result<()> {
    print!(rt; "{mark}{n}")
}

fn line(rt: &impl Print, first: u8) -> io::Result<()> {
    show(rt, ' ', count(first, 1))?;
    show(rt, ' ', count(first, 2))?;
    show(rt, ' ', count(first, 3))?;
    show(rt, ' ', count(first, 4))?;
    println!(rt)
}

fn main(rt: HostRuntime) -> io::Result<()> {
    for b in 0..=255u8 {
        line(&rt, b)?;
    }
    Ok(())
}
