// Replays of many images and traces, each under the names of its files. The images and traces in data/ were made by a script, the
// accesses of the mappers drawn with seed 20261115; the expected text is what mizu-core 1.3.0, unchanged behind a bench that reads
// and writes as the rules say, gives for them.
#![tactic(auto)]

use std::io;
use std::rt::Files;

fn case(rt: &(impl Print + Files), rom: &[u8], trace: &[u8]) -> io::Result<()> {
    rt.write_all(rom)?;
    rt.write_all(b" ")?;
    rt.write_all(trace)?;
    rt.write_all(b"\n")?;
    replay_files::run(rt, rom, trace)
}

// Each mapper that fits 32 KiB, on images of unequal length.
fn mappers(rt: &(impl Print + Files)) -> io::Result<()> {
    case(rt, b"mbc1.rom", b"mbc1.trace")?;
    case(rt, b"mbc1x.rom", b"mbc1.trace")?;
    case(rt, b"none.rom", b"none.trace")?;
    case(rt, b"noneram.rom", b"none.trace")?;
    case(rt, b"none2k.rom", b"none.trace")?;
    case(rt, b"mbc2.rom", b"mbc2.trace")?;
    case(rt, b"mbc2ram.rom", b"mbc2.trace")?;
    case(rt, b"mbc3.rom", b"mbc3.trace")?;
    case(rt, b"mbc3t.rom", b"timer.trace")?;
    case(rt, b"timer.rom", b"timer.trace")?;
    case(rt, b"mbc5.rom", b"mbc5.trace")?;
    case(rt, b"rumble.rom", b"mbc5.trace")
}

// 15 and 16 in the middle, on a cartridge that has selections and on one that has none.
fn refusals(rt: &(impl Print + Files)) -> io::Result<()> {
    case(rt, b"mbc3.rom", b"refused.trace")?;
    case(rt, b"mbc1.rom", b"refused.trace")
}

// The greatest count, with no clock and with one.
fn counts(rt: &(impl Print + Files)) -> io::Result<()> {
    case(rt, b"mbc5.rom", b"count.trace")?;
    case(rt, b"mbc3t.rom", b"count.trace")
}

// A write, a read and clocks, cut behind each of their bytes.
fn cuts(rt: &(impl Print + Files)) -> io::Result<()> {
    case(rt, b"mbc1.rom", b"cut00.trace")?;
    case(rt, b"mbc1.rom", b"cut01.trace")?;
    case(rt, b"mbc1.rom", b"cut02.trace")?;
    case(rt, b"mbc1.rom", b"cut03.trace")?;
    case(rt, b"mbc1.rom", b"cut04.trace")?;
    case(rt, b"mbc1.rom", b"cut05.trace")?;
    case(rt, b"mbc1.rom", b"cut06.trace")?;
    case(rt, b"mbc1.rom", b"cut07.trace")?;
    case(rt, b"mbc1.rom", b"cut08.trace")?;
    case(rt, b"mbc1.rom", b"cut09.trace")?;
    case(rt, b"mbc1.rom", b"cut10.trace")?;
    case(rt, b"mbc1.rom", b"cut11.trace")?;
    case(rt, b"mbc1.rom", b"cut12.trace")?;
    case(rt, b"mbc1.rom", b"cut13.trace")?;
    case(rt, b"mbc1.rom", b"cut14.trace")?;
    case(rt, b"mbc1.rom", b"cut15.trace")
}

// A wrong first or second byte in each of three marks.
fn marks(rt: &(impl Print + Files)) -> io::Result<()> {
    case(rt, b"mbc1.rom", b"markfirst0.trace")?;
    case(rt, b"mbc1.rom", b"markfirst1.trace")?;
    case(rt, b"mbc1.rom", b"markfirst2.trace")?;
    case(rt, b"mbc1.rom", b"marksecond0.trace")?;
    case(rt, b"mbc1.rom", b"marksecond1.trace")?;
    case(rt, b"mbc1.rom", b"marksecond2.trace")
}

// No record; a trace of 16,384 bytes, and one whose last record is cut.
fn limits(rt: &(impl Print + Files)) -> io::Result<()> {
    case(rt, b"mbc1.rom", b"empty.trace")?;
    case(rt, b"none.rom", b"full.trace")?;
    case(rt, b"none.rom", b"cutfull.trace")
}

// Files that are missing or a byte too long.
fn files(rt: &(impl Print + Files)) -> io::Result<()> {
    case(rt, b"long.rom", b"empty.trace")?;
    case(rt, b"none.rom", b"long.trace")?;
    case(rt, b"missing.rom", b"empty.trace")?;
    case(rt, b"none.rom", b"missing.trace")?;
    case(rt, b"missing.rom", b"missing.trace")?;
    case(rt, b"long.rom", b"long.trace")
}

// Images that are not mounted.
fn mountings(rt: &(impl Print + Files)) -> io::Result<()> {
    case(rt, b"ram32.rom", b"empty.trace")?;
    case(rt, b"logo.rom", b"empty.trace")?;
    case(rt, b"sum.rom", b"empty.trace")?;
    case(rt, b"type.rom", b"empty.trace")?;
    case(rt, b"mmm01.rom", b"empty.trace")?;
    case(rt, b"ram.rom", b"empty.trace")?;
    case(rt, b"empty.rom", b"empty.trace")
}

fn main(rt: HostRuntime) -> io::Result<()> {
    mappers(&rt)?;
    refusals(&rt)?;
    counts(&rt)?;
    cuts(&rt)?;
    marks(&rt)?;
    limits(&rt)?;
    files(&rt)?;
    mountings(&rt)
}
