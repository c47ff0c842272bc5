// A second clock, slow and written apart from the first: Clock 2 and Clock 3 with remainders, one step at a time.
#![tactic(auto)]

use clock::Clock;
use clock_registers::Registers;

fn day(r: Registers) -> Registers {
    if r.day == 511 {
        return Registers {
            day: 0,
            carry: true,
            ..r
        };
    }
    Registers {
        day: r.day % 512 + 1,
        ..r
    }
}

fn hour(r: Registers) -> Registers {
    let next = (r.hour % 32 + 1) % 32;
    if next == 24 {
        return day(Registers { hour: 0, ..r });
    }
    Registers { hour: next, ..r }
}

fn minute(r: Registers) -> Registers {
    let next = (r.minute % 64 + 1) % 64;
    if next == 60 {
        return hour(Registers { minute: 0, ..r });
    }
    Registers { minute: next, ..r }
}

fn second(r: Registers) -> Registers {
    let next = (r.second % 64 + 1) % 64;
    if next == 60 {
        return minute(Registers { second: 0, ..r });
    }
    Registers { second: next, ..r }
}

// A step of the clock. A trait, since a loop that is handed a closure takes half as long again or more (docs/DESIGN-PASS.md).
trait Step {
    fn step(c: Clock) -> Clock;
}

struct ByTick;

struct BySecond;

// A whole second: the registers and the time. A time with no room stands.
impl Step for BySecond {
    fn step(c: Clock) -> Clock {
        if c.time == 0xFFFF_FFFF_FFFF_FFFF {
            return c;
        }
        let r = c.running;
        Clock {
            running: second(r),
            time: c.time + 1,
            ..c
        }
    }
}

impl Step for ByTick {
    fn step(c: Clock) -> Clock {
        let next = c.sub % 2_097_152 + 1;
        if next == 2_097_152 {
            return BySecond::step(Clock { sub: 0, ..c });
        }
        Clock { sub: next, ..c }
    }
}

// A step made n times.
fn repeated<S: Step>(start: Clock, n: u64) -> Clock {
    let mut c = start;
    for _ in 0..n {
        c = S::step(c);
    }
    c
}

pub fn ticks(start: Clock, n: u64) -> Clock {
    repeated::<ByTick>(start, n)
}

pub fn seconds(start: Clock, n: u64) -> Clock {
    repeated::<BySecond>(start, n)
}

fn same_registers(a: Registers, b: Registers) -> bool {
    (a.second, a.minute, a.hour, a.day, a.carry) == (b.second, b.minute, b.hour, b.day, b.carry)
}

// Halt, latch and freeze are not looked at: no clock that passes changes them.
pub fn same(a: Clock, b: Clock) -> bool {
    (a.sub, a.time) == (b.sub, b.time) && same_registers(a.running, b.running)
}
