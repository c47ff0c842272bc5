// The block that a save file holds behind the RAM of a cartridge with a timer: 21 bytes, little-endian. A block by value stands
// between the clock and the bytes, so another layout is another crate beside this one.
#![tactic(auto)]

ghost use Rattle.std.specs.Prelude.{◌≡◌, ◌+◌, ◌≤◌, length, nat_lt};
ghost use Rattle.clock_block.specs.Layout.{block_in, put_block};
ghost use Rattle.clock_block.specs.Waking.{number_of, block_of, taken_of, wake_of};

use bytes_le::Field;
use clock::Clock;
use clock_registers::Registers;
use facts::saturating_sub;

// Bytes of a block.
pub const BLOCK_SIZE: usize = 21;

const LAST_TIME: u64 = 0xFFFF_FFFF_FFFF_FFFF;

#[derive(Clone, Copy)]
pub struct Block {
    pub second: u8,
    pub minute: u8,
    pub hour: u8,
    pub day: u16,
    // The clock's time in seconds when it was saved.
    pub time: u64,
    // By how much that was ahead of the wall time.
    pub offset: u64,
}

// Why a block wakes no clock, in the order of the tests.
#[derive(Clone, Copy, Debug, PartialEq, Eq)]
pub enum BlockRefusal {
    // A register is beyond its width.
    Beyond,
    // The time would pass 2^64 - 1 seconds.
    Late,
}

impl BlockRefusal {
    pub fn number(self) -> u8
        ensures { result ≡ number_of self }
    {
        match self {
            BlockRefusal::Beyond => 20,
            BlockRefusal::Late => 17,
        }
    }
}

// Whether wall time plus offset passes the last time.
fn passes(wall: u64, offset: u64) -> bool
    ensures { result ≡ nat_lt 18446744073709551615 (wall + offset) }
{
    LAST_TIME - wall < offset
}

impl Block {
    // What is kept of a clock at this wall time.
    pub fn new(clock: Clock, wall: u64) -> Self
        ensures { result ≡ block_of clock wall }
    {
        let running = clock.running;
        Block {
            second: running.second,
            minute: running.minute,
            hour: running.hour,
            day: running.day,
            time: clock.time,
            offset: saturating_sub(clock.time, wall),
        }
    }

    // The block that lent bytes begin with.
    pub fn read(bytes: &[u8]) -> Self
        requires { 21 ≤ length bytes.now }
        ensures { result ≡ block_in bytes.now }
    {
        Block {
            second: u8::read(bytes, 0),
            minute: u8::read(bytes, 1),
            hour: u8::read(bytes, 2),
            day: u16::read(bytes, 3),
            time: u64::read(bytes, 5),
            offset: u64::read(bytes, 13),
        }
    }

    // The block written to the first 21 bytes of the room.
    pub fn write(self, room: &mut [u8])
        requires { 21 ≤ length room.old }
        ensures { room.new ≡ put_block self room.old }
    {
        u8::write(room, 0, self.second);
        u8::write(room, 1, self.minute);
        u8::write(room, 2, self.hour);
        u16::write(room, 3, self.day);
        u64::write(room, 5, self.time);
        u64::write(room, 13, self.offset);
    }

    // The registers as they are taken from a block: neither halted nor carried.
    fn registers(self) -> Registers
        ensures { result ≡ taken_of self }
    {
        Registers {
            second: self.second,
            minute: self.minute,
            hour: self.hour,
            day: self.day,
            halt: false,
            carry: false,
        }
    }

    // The clock at this wall time, caught up from the saved time in one step. That step is the test of the registers' widths, so
    // a time that is too late is told only behind it.
    pub fn wake(self, wall: u64) -> Result<Clock, BlockRefusal>
        ensures { result ≡ wake_of self wall }
    {
        let time = std::num::wrapping_add_u64(wall, self.offset);
        let taken = self.registers();
        let Some(running) = taken.forward(saturating_sub(time, self.time)) else {
            return Err(BlockRefusal::Beyond);
        };
        if passes(wall, self.offset) {
            return Err(BlockRefusal::Late);
        }
        let fresh = Clock::new(time);
        Ok(Clock { running, ..fresh })
    }
}
