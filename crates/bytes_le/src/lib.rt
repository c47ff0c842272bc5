// Numbers of one, two, four and eight bytes, the least byte first, read from lent bytes and written to them at a place. A wider field is
// two of half its width, one behind the other.
#![tactic(auto)]

ghost use Rattle.std.specs.Prelude.{◌≡◌, ℕ, ◌+◌, ◌≤◌, length};
ghost use Rattle.bytes_le.specs.Little.{field_at, put_at};

// A number that a field of some bytes holds.
pub trait Field {
    // How many bytes.
    ghost width: { ℕ };

    // The number that it is.
    ghost value: { Self → ℕ };

    fn read(bytes: &[u8], at: usize) -> Self
        requires { at + width ≤ length bytes.now }
        ensures { value result ≡ field_at width bytes.now at };

    fn write(bytes: &mut [u8], at: usize, n: Self)
        requires { at + width ≤ length bytes.old }
        ensures { bytes.new ≡ put_at width bytes.old at (value n) };

    // What is read is one alone: the number tells which.
    ghost told_apart: { (m n : Self) → value m ≡ value n → m ≡ n };
}

impl Field for u8 {
    ghost width = { 1 };

    ghost value = { λ n. n };

    ghost told_apart = { λ m n e. e };

    fn read(bytes: &[u8], at: usize) -> u8 {
        bytes[at]
    }

    fn write(bytes: &mut [u8], at: usize, n: u8) {
        bytes[at] = n;
    }
}

impl Field for u16 {
    ghost width = { 2 };

    ghost value = { λ n. n };

    ghost told_apart = { λ m n e. e };

    fn read(bytes: &[u8], at: usize) -> u16 {
        let low = u8::read(bytes, at) as u16;
        let high = u8::read(bytes, at + 1) as u16;
        low + 256 * high
    }

    fn write(bytes: &mut [u8], at: usize, n: u16) {
        u8::write(bytes, at, (n % 256) as u8);
        u8::write(bytes, at + 1, (n / 256) as u8);
    }
}

impl Field for u32 {
    ghost width = { 4 };

    ghost value = { λ n. n };

    ghost told_apart = { λ m n e. e };

    fn read(bytes: &[u8], at: usize) -> u32 {
        let low = u16::read(bytes, at) as u32;
        let high = u16::read(bytes, at + 2) as u32;
        low + 65536 * high
    }

    fn write(bytes: &mut [u8], at: usize, n: u32) {
        u16::write(bytes, at, (n % 65536) as u16);
        u16::write(bytes, at + 2, (n / 65536) as u16);
    }
}

impl Field for u64 {
    ghost width = { 8 };

    ghost value = { λ n. n };

    ghost told_apart = { λ m n e. e };

    fn read(bytes: &[u8], at: usize) -> u64 {
        let low = u32::read(bytes, at) as u64;
        let high = u32::read(bytes, at + 4) as u64;
        low + 4294967296 * high
    }

    fn write(bytes: &mut [u8], at: usize, n: u64) {
        u32::write(bytes, at, (n % 4294967296) as u32);
        u32::write(bytes, at + 4, (n / 4294967296) as u32);
    }
}
