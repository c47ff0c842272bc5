// Text written into lent room from a place on: bytes, and numbers by their digits. Each call hands back the place behind its text.
#![tactic(auto)]

ghost use Rattle.std.specs.Prelude.{◌≡◌, ◌+◌, ◌<◌, ◌≤◌, length};
ghost use Rattle.digits.specs.Digits.{figure_of, digits_of, width_of, hex_of, decimal_of};
ghost use Rattle.digits.specs.Put.{Put};

// Writes all of the text.
pub fn put_text(room: &mut [u8], at: usize, text: &[u8]) -> usize
    requires { at + length text.now ≤ length room.old }
    ensures { Put room.old at text.now room.new result }
{
    let end = at + text.len();
    room[at..end].copy_from_slice(text);
    end
}

fn figure(digit: u64) -> u8
    requires { digit < 16 }
    ensures { result ≡ figure_of digit }
{
    if digit < 10 {
        48 + digit as u8
    } else {
        55 + digit as u8
    }
}

// Writes the last digits of n in a base, so many as told, from the last to the first.
fn put_digits(room: &mut [u8], at: usize, base: u64, count: usize, n: u64) -> usize
    requires base_nonzero { (0 < base) × (base ≤ 16) }
    requires count_in_bounds { at + count ≤ length room.old }
    ensures { Put room.old at (digits_of base count n) room.new result }
{
    let mut rest = n;
    for i in (at..at + count).rev() {
        room[i] = figure(rest % base);
        rest /= base;
    }
    at + count
}

// Writes n in hexadecimal with a number of digits, in upper case.
pub fn put_hex(room: &mut [u8], at: usize, count: usize, n: u64) -> usize
    requires { at + count ≤ length room.old }
    ensures { Put room.old at (hex_of count n) room.new result }
{
    put_digits(room, at, 16, count, n)
}

// How many decimal digits a number has: 0 has one, as 1 has.
fn width(n: u64) -> usize
    ensures { result ≡ width_of n }
{
    n.max(1).ilog10() as usize + 1
}

// Writes n in decimal, without a zero in front.
pub fn put_decimal(room: &mut [u8], at: usize, n: u64) -> usize
    requires { at + length (decimal_of n) ≤ length room.old }
    ensures { Put room.old at (decimal_of n) room.new result }
{
    put_digits(room, at, 10, width(n), n)
}
