// The save file: the RAM area, and behind it what the battery keeps of a clock. Saving writes into lent room, loading reads lent
// bytes; what is refused, by the first of the numbers 13 to 21 that holds, has changed no byte and no field.
#![tactic(auto)]

ghost use Rattle.std.specs.Prelude.{◌≡◌, ◌≤◌, length, take};
ghost use Rattle.save_file.specs.declared.SaveRefusal.TheVariants.{Block};
ghost use Rattle.save_file.specs.Admit.{number_of, admit_of};
ghost use Rattle.save_file.specs.Save.{bytes_of, saved_of, room_by, save_of, room_after, room_for};
ghost use Rattle.save_file.specs.Load.{loaded_of, area_by, load_of, area_after};

use cartridge::Cartridge;
use clock_block::BlockRefusal;
use mapper::Mapper;

// Why a save is neither written nor read.
#[derive(Clone, Copy, Debug, PartialEq, Eq)]
pub enum SaveRefusal {
    Unfit,
    WrongLength,
    NoBattery,
    ShortSave,
    Block(BlockRefusal),
    ShortRoom,
}

// A clock's block that is refused refuses the save.
impl From<BlockRefusal> for SaveRefusal {
    ghost from_gives = { λ why r. r ≡ Block why };

    fn from(why: BlockRefusal) -> SaveRefusal {
        SaveRefusal::Block(why)
    }
}

impl SaveRefusal {
    pub fn number(self) -> u8
        ensures { result ≡ number_of self }
    {
        match self {
            SaveRefusal::Unfit => 13,
            SaveRefusal::WrongLength => 14,
            SaveRefusal::NoBattery => 18,
            SaveRefusal::ShortSave => 19,
            SaveRefusal::Block(why) => why.number(),
            SaveRefusal::ShortRoom => 21,
        }
    }
}

// The three tests that saving and loading begin with: whether a cartridge with a RAM area of some length can have a save.
fn admit(cart: Cartridge, area: usize) -> Result<(), SaveRefusal>
    ensures { result ≡ admit_of cart area }
{
    if !cart.fit() {
        return Err(SaveRefusal::Unfit);
    }
    if !cart.is_area(area) {
        return Err(SaveRefusal::WrongLength);
    }
    if cart.battery {
        return Ok(());
    }
    Err(SaveRefusal::NoBattery)
}

// The room that a save of this cartridge asks for.
pub fn ask_room(cart: Cartridge) -> Result<usize, SaveRefusal>
    ensures { result ≡ room_for cart }
{
    if !cart.fit() {
        return Err(SaveRefusal::Unfit);
    }
    if !cart.battery {
        return Err(SaveRefusal::NoBattery);
    }
    let mapper = cart.mapper;
    Ok(mapper.area(cart.size) + battery::save_battery_size(mapper))
}

fn save_admitted(
    mapper: Mapper,
    ram: &[u8],
    room: &mut [u8],
    wall: u64,
) -> Result<usize, SaveRefusal>
    ensures value { result ≡ saved_of (bytes_of mapper ram.now wall) (length room.old) }
    ensures room_after { room.new ≡ room_by (bytes_of mapper ram.now wall) room.old result }
{
    let kept = battery::save_battery_size(mapper);
    if room.len() < ram.len() {
        return Err(SaveRefusal::ShortRoom);
    }
    if room.len() - ram.len() < kept {
        return Err(SaveRefusal::ShortRoom);
    }
    let start = ram.len();
    room[..start].copy_from_slice(ram);
    battery::save_battery(mapper, wall, &mut room[start..]);
    Ok(start + kept)
}

// Writes the save of a cartridge at this wall time to the start of the room: how many bytes of it are the save.
pub fn save(cart: Cartridge, ram: &[u8], room: &mut [u8], wall: u64) -> Result<usize, SaveRefusal>
    ensures value { result ≡ save_of cart ram.now (length room.old) wall }
    ensures room_after { room.new ≡ room_after cart ram.now room.old wall }
{
    admit(cart, ram.len())?;
    save_admitted(cart.mapper, ram, room, wall)
}

// The RAM area as a save has it.
fn restore(ram: &mut [u8], save: &[u8])
    requires { length ram.old ≤ length save.now }
    ensures { ram.new ≡ take (length ram.old) save.now }
{
    let start: usize = 0;
    let end = ram.len();
    ram.copy_from_slice(&save[start..end]);
}

fn load_admitted(
    cart: Cartridge,
    ram: &mut [u8],
    save: &[u8],
    wall: u64,
) -> Result<Option<Cartridge>, SaveRefusal>
    ensures value { result ≡ loaded_of cart (length ram.old) save.now wall }
    ensures ram_after { ram.new ≡ area_by ram.old save.now result }
{
    if save.len() < ram.len() {
        return Err(SaveRefusal::ShortSave);
    }
    let woken = battery::load_battery(cart.mapper, &save[ram.len()..], wall)?;
    restore(ram, save);
    match woken {
        Some(mapper) => Ok(Some(Cartridge { mapper, ..cart })),
        None => Ok(None),
    }
}

// Reads a save into a cartridge and its RAM area at this wall time: the cartridge with its clock, or none where the RAM area was read and
// the cartridge is as it was.
pub fn load(
    cart: Cartridge,
    ram: &mut [u8],
    save: &[u8],
    wall: u64,
) -> Result<Option<Cartridge>, SaveRefusal>
    ensures value { result ≡ load_of cart (length ram.old) save.now wall }
    ensures ram_after { ram.new ≡ area_after cart ram.old save.now wall }
{
    admit(cart, ram.len())?;
    load_admitted(cart, ram, save, wall)
}
