// What a battery keeps beside the RAM: of an MBC3 with a timer its clock, as a block; of any other cartridge nothing.
#![tactic(auto)]

ghost use Rattle.std.specs.Prelude.{◌≡◌, ◌≤◌, length};
ghost use Rattle.battery.specs.Battery.{timer_of, clock_in, with_clock, has_clock, battery_size, put_battery, loaded_by, load_of};

use clock::Clock;
use clock_block::{Block, BlockRefusal};
use facts::both;
use mapper::Mapper;
use mbc3::Mbc3;

fn timer_of(m: Mbc3) -> Option<Clock>
    ensures { result ≡ timer_of m }
{
    if m.timer { Some(m.clock) } else { None }
}

// A mapper's clock, if it has one.
pub fn clock_in(m: Mapper) -> Option<Clock>
    ensures { result ≡ clock_in m }
{
    match m {
        Mapper::NoMapper(_) => None,
        Mapper::Mbc1(_) => None,
        Mapper::Mbc2(_) => None,
        Mapper::Mbc3(mbc3) => timer_of(mbc3),
        Mapper::Mbc5(_) => None,
    }
}

fn has_clock(m: Mapper) -> bool
    ensures { result ≡ has_clock (clock_in m) }
{
    clock_in(m).is_some()
}

// The mapper with another clock. One that is not an MBC3 stays as it is.
fn with_clock(m: Mapper, clock: Clock) -> Mapper
    ensures { result ≡ with_clock m clock }
{
    match m {
        Mapper::NoMapper(_) => m,
        Mapper::Mbc1(_) => m,
        Mapper::Mbc2(_) => m,
        Mapper::Mbc3(mbc3) => Mapper::Mbc3(Mbc3 { clock, ..mbc3 }),
        Mapper::Mbc5(_) => m,
    }
}

// The bytes that stand behind the RAM in a save.
pub fn save_battery_size(m: Mapper) -> usize
    ensures { result ≡ battery_size (clock_in m) }
{
    if has_clock(m) {
        return clock_block::BLOCK_SIZE;
    }
    0
}

// Writes those bytes at the start of the room.
pub fn save_battery(m: Mapper, wall: u64, room: &mut [u8])
    requires { battery_size (clock_in m) ≤ length room.old }
    ensures { room.new ≡ put_battery (clock_in m) wall room.old }
{
    if let Some(clock) = clock_in(m) {
        Block::new(clock, wall).write(room);
    }
}

fn woken_into(m: Mapper, woken: Result<Clock, BlockRefusal>) -> Result<Option<Mapper>, BlockRefusal>
    ensures { result ≡ loaded_by m woken }
{
    Ok(Some(with_clock(m, woken?)))
}

// The mapper after the bytes behind the RAM were read; none where there is no clock to wake, or no whole block to wake it from. Where
// another kind of block stands there, this is the place to tell.
pub fn load_battery(m: Mapper, bytes: &[u8], wall: u64) -> Result<Option<Mapper>, BlockRefusal>
    ensures { result ≡ load_of m bytes.now wall }
{
    if both(has_clock(m), clock_block::BLOCK_SIZE <= bytes.len()) {
        let block = Block::read(bytes);
        return woken_into(m, block.wake(wall));
    }
    Ok(None)
}
