// The bench's program but for its name: it opens and reads the image and the trace, and writes out what `replay_program` makes of
// them. No byte of the text is chosen here.
#![tactic(auto)]

ghost use Rattle.std.specs.Prelude.{◌≡◌, ◌≤◌, length, option_copied, IfOk, IfSome};

use std::io::Read;
use std::rt::Files;
use std::{fs, io};

// Room for a file, for the RAM area or for the text.
fn room<const N: usize>() -> [u8; N]
    ensures { N ≡ length result }
{
    [0; N]
}

// Read until the room is full or nothing is left to read; how many bytes came. No `for`: how far a read came, it alone says.
fn read_full(reader: &mut impl Read, room: &mut [u8]) -> io::Result<usize>
    ensures { IfOk result (λ count. count ≤ length room.old) }
{
    let mut count: usize = 0;
    while count < room.len() {
        let n = reader.read(&mut room[count..])?;
        if n == 0 {
            break;
        }
        count += n;
    }
    Ok(count)
}

// The bytes of a file, read into the room. One that was read whole leaves nothing to read behind it. A path that is no UTF-8 names no
// file.
fn fetch<'a>(rt: &impl Files, path: &[u8], room: &'a mut [u8]) -> Option<&'a [u8]>
    ensures { IfSome (option_copied result) (λ bytes. length bytes ≤ length room.old) }
{
    let mut more = [0u8; 1];
    if let Ok(path) = str::from_utf8(path)
        && let Ok(mut file) = fs::open(rt, path)
        && let Ok(count) = read_full(&mut file, room)
        && let Ok(0) = file.read(&mut more)
    {
        return Some(&room[..count]);
    }
    None
}

pub fn run(rt: &(impl Print + Files), rom_path: &[u8], trace_path: &[u8]) -> io::Result<()> {
    // A byte more than the image and the trace may have, so that one too many is seen.
    let mut rom = room::<32769>();
    let mut records = room::<16385>();
    let mut ram = room::<8192>();
    let mut text = room::<41008>();
    let image = fetch(rt, rom_path, &mut rom);
    let trace = fetch(rt, trace_path, &mut records);
    let n = replay_program::write(image, trace, &mut ram, &mut text);
    rt.write_all(&text[..n])
}
