// The replay of a trace against a cartridge, and its text: a line for each record, then why the reading stopped before the trace's
// end, then the number of records. The caller lends room that is long enough for every trace of its length.
#![tactic(auto)]

ghost use Rattle.std.specs.Prelude.{◌≡◌, ◌≤◌, length};
ghost use Rattle.digits.specs.Put.{Put};
ghost use Rattle.replay_step.specs.Step.{machine};
ghost use Rattle.replay_text.specs.Replay.{room_for, left_of, text_of};

use cartridge::Cartridge;
use replay_step::Reached;

// The records from the trace's start on, then why the reading stopped, then their number. No `for` over the records: what ends
// them is written too.
pub fn run(start: Cartridge, rom: &[u8], ram: &mut [u8], trace: &[u8], room: &mut [u8]) -> Reached
    requires { room_for (length trace.now) ≤ length room.old }
    ensures ram_after { machine result.cart ram.new
        ≡ left_of rom.now (machine start ram.old) trace.now }
    ensures put { Put room.old 0
        (text_of rom.now (machine start ram.old) trace.now) room.new result.end }
    ensures end_in_bounds { result.end ≤ length room.old }
{
    let mut cart = start;
    let mut at: usize = 0;
    let mut end: usize = 0;
    let mut count: usize = 0;
    loop {
        match trace::next_record(trace, at) {
            Ok(Some((asked, after))) => {
                let reached = replay_step::step(cart, rom, ram, room, end, asked);
                cart = reached.cart;
                end = reached.end;
                at = after;
                count += 1;
            }
            Ok(None) => {
                return Reached {
                    cart,
                    end: lines::put_end(room, end, count as u64),
                };
            }
            Err(why) => {
                let stopped = lines::put_numbered(room, end, b'T', why.place() as u64);
                return Reached {
                    cart,
                    end: lines::put_end(room, stopped, count as u64),
                };
            }
        }
    }
}
