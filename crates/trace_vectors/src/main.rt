// What is read from traces, a line for each: the length, the records, and the end or a refusal's number and place. The expected
// lines are by the rule alone.
#![tactic(auto)]

use std::io;
use trace::{Record, TraceRefusal};

fn number(rt: &impl Print, n: u64) -> io::Result<()> {
    print!(rt; " {n}")
}

fn address(rt: &impl Print, letter: char, addr: u16) -> io::Result<()> {
    print!(rt; " {letter} {addr:04x}")
}

fn record(rt: &impl Print, r: Record) -> io::Result<()> {
    match r {
        Record::Read { addr } => address(rt, 'R', addr),
        Record::Write { addr, byte } => {
            address(rt, 'W', addr)?;
            print!(rt; " {byte:02x}")
        }
        Record::Clocks { count } => {
            print!(rt; " C")?;
            number(rt, count as u64)
        }
    }
}

fn refused(rt: &impl Print, why: TraceRefusal) -> io::Result<()> {
    print!(rt; " T")?;
    number(rt, why.number() as u64)?;
    number(rt, why.place() as u64)?;
    println!(rt)
}

// The records from a place on. No `for` over them: what ends them is shown too.
fn from(rt: &impl Print, bytes: &[u8], start: usize) -> io::Result<()> {
    let length = bytes.len();
    print!(rt; "{length}")?;
    let mut at = start;
    loop {
        match trace::next_record(bytes, at) {
            Ok(Some((r, after))) => {
                record(rt, r)?;
                at = after;
            }
            Ok(None) => return println!(rt; " end"),
            Err(why) => return refused(rt, why),
        }
    }
}

// The trace cut behind each of its bytes, and whole.
fn cuts(rt: &impl Print, bytes: &[u8]) -> io::Result<()> {
    for n in 0..=bytes.len() {
        from(rt, &bytes[..n], 0)?;
    }
    Ok(())
}

// A read, and then two bytes that may be no mark, with a body behind them.
fn mark(rt: &impl Print, first: u8, second: u8) -> io::Result<()> {
    from(rt, &[0x52, 0x44, 0x34, 0x12, first, second, 1, 2, 3, 4], 0)
}

// First the example of Trace 9. The marks are `RD`, `WR` and `CK` in letters.
fn main(rt: HostRuntime) -> io::Result<()> {
    cuts(
        &rt,
        b"WR\x00\x00\x0AWR\x00\xA0\x5CRD\x00\xA0CK\x05\x00\x00\x00RD\x00\x80",
    )?;
    mark(&rt, 0x52, 0x44)?;
    mark(&rt, 0x57, 0x52)?;
    mark(&rt, 0x43, 0x4B)?;
    mark(&rt, 0x44, 0x52)?;
    mark(&rt, 0x52, 0x57)?;
    mark(&rt, 0x4B, 0x43)?;
    mark(&rt, 0x52, 0x52)?;
    mark(&rt, 0x57, 0x44)?;
    mark(&rt, 0x43, 0x4C)?;
    mark(&rt, 0x00, 0x00)?;
    mark(&rt, 0xFF, 0xFF)?;
    from(&rt, b"CK\xFF\xFF\xFF\xFFWR\xFF\xFE\xFD", 0)?;
    from(&rt, b"RD\x00\x00", 5)?;
    from(&rt, b"RD\x00\x00", 0xFFFFFFFFFFFFFFFF)
}
