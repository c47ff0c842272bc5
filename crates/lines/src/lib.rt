// The lines of a replay, each written into lent room from a place on: a letter and a number, a letter with an address and a
// byte, and the last line. Each call hands back the place behind its line.
#![tactic(auto)]

ghost use Rattle.std.specs.Prelude.{◌+◌, ◌≤◌, length};
ghost use Rattle.digits.specs.Put.{Put};
ghost use Rattle.lines.specs.Lines.{numbered, addressed, end_line};

// A line of a letter and a number.
pub fn put_numbered(room: &mut [u8], at: usize, letter: u8, n: u64) -> usize
    requires { at + length (numbered letter n) ≤ length room.old }
    ensures { Put room.old at (numbered letter n) room.new result }
{
    let named = digits::put_text(room, at, &[letter, b' ']);
    let told = digits::put_decimal(room, named, n);
    digits::put_text(room, told, b"\n")
}

// A line of a letter, an address and a byte.
pub fn put_addressed(room: &mut [u8], at: usize, letter: u8, addr: u16, byte: u8) -> usize
    requires { at + 10 ≤ length room.old }
    ensures { Put room.old at (addressed letter addr byte) room.new result }
{
    let lettered = digits::put_text(room, at, &[letter, b' ']);
    let placed = digits::put_hex(room, lettered, 4, addr as u64);
    let parted = digits::put_text(room, placed, b" ");
    let shown = digits::put_hex(room, parted, 2, byte as u64);
    digits::put_text(room, shown, b"\n")
}

// The last line.
pub fn put_end(room: &mut [u8], at: usize, count: u64) -> usize
    requires { at + length (end_line count) ≤ length room.old }
    ensures { Put room.old at (end_line count) room.new result }
{
    let named = digits::put_text(room, at, b"end ");
    let counted = digits::put_decimal(room, named, count);
    digits::put_text(room, counted, b"\n")
}
