// The clock's bench rows and its corners, run. A line has a clock, the clocks that pass behind a comma, and the clock then:
// day, hour:minute:second, halt, carry, sub-second and time. A refusal is N and its number. A line ends in `=` where a slow
// ticker (slow_clock) came to the same clock step by step, in `#` where it did not, and in `!` where ticking would
// take years or the answer is a refusal: there a comment says why it is right.
#![tactic(auto)]

use clock::{AdvanceRefusal, Clock};
use clock_registers::Registers;
use std::io;

const LAST: u64 = 0xFFFF_FFFF_FFFF_FFFF;

fn byte(rt: &impl Print, b: u8) -> io::Result<()> {
    rt.write_all(&[b])
}

// A mark and a number.
fn field(rt: &impl Print, mark: u8, n: u64) -> io::Result<()> {
    byte(rt, mark)?;
    print!(rt; "{n}")
}

fn spaced(rt: &impl Print, mark: u8, n: u64) -> io::Result<()> {
    byte(rt, b' ')?;
    field(rt, mark, n)
}

fn show_registers(rt: &impl Print, r: Registers) -> io::Result<()> {
    field(rt, b' ', r.day as u64)?;
    field(rt, b' ', r.hour as u64)?;
    field(rt, b':', r.minute as u64)?;
    field(rt, b':', r.second as u64)?;
    spaced(rt, b'h', r.halt as u64)?;
    spaced(rt, b'c', r.carry as u64)
}

fn show(rt: &impl Print, c: Clock) -> io::Result<()> {
    let r = c.running;
    show_registers(rt, r)?;
    spaced(rt, b'+', c.sub as u64)?;
    spaced(rt, b'@', c.time)
}

fn show_line(rt: &impl Print, c: Clock) -> io::Result<()> {
    show(rt, c)?;
    byte(rt, b'\n')
}

// What the answer is, and the clock for what follows.
fn answered(rt: &impl Print, a: Result<Clock, AdvanceRefusal>, c: Clock) -> io::Result<Clock> {
    match a {
        Ok(d) => {
            show(rt, d)?;
            Ok(d)
        }
        Err(why) => {
            spaced(rt, b'N', why.number() as u64)?;
            Ok(c)
        }
    }
}

fn ending(rt: &impl Print, mark: u8) -> io::Result<()> {
    byte(rt, b' ')?;
    byte(rt, mark)?;
    byte(rt, b'\n')
}

fn verdict(rt: &impl Print, ok: bool) -> io::Result<()> {
    if ok {
        ending(rt, b'=')
    } else {
        ending(rt, b'#')
    }
}

fn advanced(rt: &impl Print, c: Clock, n: u64) -> io::Result<Clock> {
    show(rt, c)?;
    spaced(rt, b',', n)?;
    answered(rt, c.advance(n), c)
}

fn at(day: u16, hour: u8, minute: u8, second: u8) -> Registers {
    Registers {
        second,
        minute,
        hour,
        day,
        halt: false,
        carry: false,
    }
}

fn from(running: Registers, sub: u32, time: u64) -> Clock {
    let frozen = Registers::new();
    Clock {
        running,
        sub,
        time,
        latched: false,
        frozen,
    }
}

// n clocks from 7 3:12:second, and as many slow ticks.
fn clocks(rt: &impl Print, second: u8, sub: u32, time: u64, n: u64) -> io::Result<()> {
    let c = from(at(7, 3, 12, second), sub, time);
    let d = advanced(rt, c, n)?;
    verdict(rt, slow_clock::same(slow_clock::ticks(c, n), d))
}

// n seconds, and as many slow seconds.
fn seconds(rt: &impl Print, r: Registers, n: u32) -> io::Result<()> {
    let c = from(r, 5, 0);
    let d = advanced(rt, c, n as u64 * 2_097_152)?;
    verdict(rt, slow_clock::same(slow_clock::seconds(c, n as u64), d))
}

fn by_hand(rt: &impl Print, c: Clock, n: u64) -> io::Result<()> {
    advanced(rt, c, n)?;
    ending(rt, b'!')
}

fn bench_rows(rt: &impl Print) -> io::Result<()> {
    seconds(rt, at(511, 23, 59, 59), 1)?;
    clocks(rt, 60, 5, 0, 8_388_608)?;
    seconds(rt, at(7, 3, 63, 59), 1)?;
    clocks(rt, 8, 2_097_151, 0, 1)?;
    seconds(rt, at(7, 0, 0, 40), 30)
}

fn second_corners(rt: &impl Print) -> io::Result<()> {
    seconds(rt, at(7, 3, 12, 58), 1)?;
    seconds(rt, at(7, 3, 12, 59), 1)?;
    seconds(rt, at(7, 3, 12, 60), 1)?;
    seconds(rt, at(7, 3, 12, 61), 62)?;
    seconds(rt, at(7, 3, 12, 62), 61)?;
    seconds(rt, at(7, 3, 12, 63), 61)
}

fn minute_corners(rt: &impl Print) -> io::Result<()> {
    seconds(rt, at(7, 3, 59, 59), 1)?;
    seconds(rt, at(7, 3, 60, 59), 241)?;
    seconds(rt, at(7, 3, 61, 59), 3721)?;
    seconds(rt, at(7, 3, 62, 59), 3661)?;
    seconds(rt, at(7, 3, 63, 59), 3601)
}

fn hour_and_day_corners(rt: &impl Print) -> io::Result<()> {
    seconds(rt, at(7, 23, 59, 59), 1)?;
    seconds(rt, at(7, 24, 59, 59), 25_201)?;
    seconds(rt, at(7, 28, 59, 59), 97_201)?;
    seconds(rt, at(7, 31, 59, 59), 86_401)?;
    seconds(rt, at(510, 23, 59, 59), 1)?;
    seconds(rt, at(511, 23, 59, 58), 3)
}

// 400 days, a period, a second less, and a period from registers that no clock counts to.
fn long_sleeps(rt: &impl Print) -> io::Result<()> {
    seconds(rt, at(200, 3, 12, 61), 34_560_000)?;
    seconds(rt, at(7, 3, 12, 8), 44_236_800)?;
    seconds(rt, at(7, 3, 12, 8), 44_236_799)?;
    seconds(rt, at(511, 31, 63, 63), 44_236_800)
}

// Nothing, within a second, and the last second that the time has room for.
fn sub_second_corners(rt: &impl Print) -> io::Result<()> {
    clocks(rt, 8, 2_097_151, 9, 0)?;
    clocks(rt, 8, 2_097_150, 9, 1)?;
    clocks(rt, 8, 0, 9, 2_097_151)?;
    clocks(rt, 8, 2_097_151, LAST - 1, 1)?;
    clocks(rt, 8, 2_097_150, LAST, 1)
}

// 17: no room for a second, and none for the second of two.
fn late(rt: &impl Print) -> io::Result<()> {
    by_hand(rt, from(at(7, 3, 12, 8), 2_097_151, LAST), 1)?;
    by_hand(rt, from(at(7, 3, 12, 8), 0, LAST - 1), 4_194_304)
}

// 13: each register, the sub-second and a register of the copy just beyond its width.
fn unfit(rt: &impl Print) -> io::Result<()> {
    by_hand(rt, from(at(7, 3, 12, 64), 0, 0), 1)?;
    by_hand(rt, from(at(7, 3, 64, 8), 0, 0), 1)?;
    by_hand(rt, from(at(7, 32, 12, 8), 0, 0), 1)?;
    by_hand(rt, from(at(512, 3, 12, 8), 0, 0), 1)?;
    by_hand(rt, from(at(7, 3, 12, 8), 2_097_152, 0), 1)?;
    let copy = Clock {
        frozen: at(7, 3, 12, 64),
        ..Clock::new(0)
    };
    by_hand(rt, copy, 1)
}

// 2^64 - 1 + 2,097,151 clocks are 2^43 seconds and 2,097,150 clocks. From 7 3:12:08, 2^43 seconds, which are 101,806,632
// days, 4 h, 50 min and 8 s, lead to day 101,806,639, 8:02:16, and that is 47 more than 198,841 times 512. A halted clock
// stays, though its time is full.
fn most_clocks(rt: &impl Print) -> io::Result<()> {
    by_hand(rt, from(at(7, 3, 12, 8), 2_097_151, 0), LAST)?;
    let halted = Registers {
        halt: true,
        ..at(7, 3, 12, 8)
    };
    by_hand(rt, from(halted, 2_097_151, LAST), LAST)
}

fn show_read(rt: &impl Print, c: Clock, n: u8) -> io::Result<()> {
    match c.read(n) {
        Some(b) => field(rt, b' ', b as u64),
        None => byte(rt, b'-'),
    }
}

// What the five registers and the one after them read.
fn show_reads(rt: &impl Print, c: Clock) -> io::Result<()> {
    show_read(rt, c, 0)?;
    show_read(rt, c, 1)?;
    show_read(rt, c, 2)?;
    show_read(rt, c, 3)?;
    show_read(rt, c, 4)?;
    show_read(rt, c, 5)?;
    byte(rt, b'\n')
}

fn written(rt: &impl Print, c: Clock, n: u8, b: u8) -> io::Result<Clock> {
    match c.write(n, b) {
        Some(d) => Ok(d),
        None => {
            ending(rt, b'-')?;
            Ok(c)
        }
    }
}

// Register 4 packed, and each register written with all bits: six of second and minute, five of hour, the day's eight and
// its ninth, and 0x3E, which has none of register 4's three.
fn registers(rt: &impl Print) -> io::Result<()> {
    let set = Registers {
        halt: true,
        carry: true,
        ..at(0x1A5, 23, 45, 61)
    };
    show_reads(rt, from(set, 0, 0))?;
    let a = written(rt, from(at(0x0A5, 3, 12, 8), 77, 9), 0, 0xFF)?;
    show_line(rt, a)?;
    let b = written(rt, written(rt, a, 1, 0xFF)?, 2, 0xFF)?;
    show_line(rt, b)?;
    let c = written(rt, written(rt, b, 3, 0x5A)?, 4, 0xFF)?;
    show_line(rt, c)?;
    show_line(rt, written(rt, c, 4, 0x3E)?)?;
    written(rt, c, 5, 1)?;
    Ok(())
}

// Frozen at 3:12:08 for a minute: the copy is read, a second 1 leaves it, a 0 shows the running clock, and 0 and 1 freeze
// anew. A write while frozen reaches both, and the sub-second is zeroed by register 0 alone.
fn latch(rt: &impl Print) -> io::Result<()> {
    let frozen = from(at(7, 3, 12, 8), 6, 0).latch(1);
    let later = advanced(rt, frozen, 2_097_152 * 60)?;
    ending(rt, b'!')?;
    show_reads(rt, later)?;
    show_reads(rt, later.latch(0xFF))?;
    show_reads(rt, later.latch(0xFE))?;
    show_reads(rt, later.latch(0).latch(1))
}

fn write_frozen(rt: &impl Print) -> io::Result<()> {
    let frozen = from(at(7, 3, 12, 8), 6, 0).latch(1);
    let minute = written(rt, frozen, 1, 33)?;
    show_line(rt, minute)?;
    show_reads(rt, minute)?;
    let second = written(rt, minute, 0, 5)?;
    show_line(rt, second)?;
    show_reads(rt, second.latch(0))
}

fn forward(rt: &impl Print, r: Registers, n: u64) -> io::Result<()> {
    show_registers(rt, r)?;
    spaced(rt, b',', n)?;
    match r.forward(n) {
        Some(q) => show_registers(rt, q)?,
        None => byte(rt, b'-')?,
    }
    ending(rt, b'!')
}

// 400 days from second 61, three of whose seconds pass before 0: 399 days and 86,397 s from 23:59:00 of day 511 are day 911,
// which is 399. 2^64 - 1 seconds are 213,503,982,334,601 days and 7:00:15, and day 213,503,982,334,608 is 144. Day 512 is unfit.
fn forwards(rt: &impl Print) -> io::Result<()> {
    forward(rt, at(511, 23, 59, 61), 34_560_000)?;
    forward(rt, at(7, 3, 12, 8), LAST)?;
    forward(rt, at(512, 3, 12, 8), 1)
}

fn advances(rt: &impl Print) -> io::Result<()> {
    bench_rows(rt)?;
    second_corners(rt)?;
    minute_corners(rt)?;
    hour_and_day_corners(rt)?;
    long_sleeps(rt)?;
    sub_second_corners(rt)
}

fn refusals(rt: &impl Print) -> io::Result<()> {
    late(rt)?;
    unfit(rt)?;
    most_clocks(rt)?;
    answered(
        rt,
        from(at(7, 3, 12, 8), 2_097_151, 0).tick(),
        Clock::new(0),
    )?;
    byte(rt, b'\n')?;
    show_line(rt, Clock::new(1_700_000_000))
}

fn main(rt: HostRuntime) -> io::Result<()> {
    advances(&rt)?;
    refusals(&rt)?;
    registers(&rt)?;
    latch(&rt)?;
    write_frozen(&rt)?;
    forwards(&rt)
}
