// What a player links: the calls of the cartridge over lent bytes, with numbers for answers. The cartridge is 64 bytes that the caller
// keeps; no call asks anything of them. Each answers 0 or the number of the refusal, and a refused call has changed no lent byte.
#![tactic(auto)]

ghost use Rattle.std.specs.Prelude.{◌≡◌, ◌<◌, length};
ghost use Rattle.mount.specs.Mount as mounting;
ghost use Rattle.windows.specs.Through.{rom_start};
ghost use Rattle.flat_write.specs.Calls.{state_written, area_written, state_advanced};
ghost use Rattle.player.specs.Header.{kind_number, has_timer, has_rumble, Small, facts_of, header_of, facts_after};
ghost use Rattle.player.specs.Bus.{mount_of, state_mounted, read_number, read_of, write_of, advance_of};
ghost use Rattle.player.specs.Save.{size_number, size_told, size_of, size_asked, save_of, room_saved, size_saved, loaded_number, loaded_state, loaded_clock, load_of, state_loaded, area_loaded, clock_loaded};
ghost use Rattle.player.specs.Windows.{windows_in, asked_number, asked_windows, windows_number, windows_after, window_read, window_write, area_through};

use access::BusRefusal;
use cartridge::Cartridge;
use header::Facts;
use save_file::SaveRefusal;
use states::Kept;
use types::Kind;
use windows::{Miss, Windows};

// Added to the number where a call's answer is a byte.
const REFUSED: u32 = 0x100;

// The number of bytes that are no state.
const NO_STATE: u32 = 13;

// An answer that is no refusal: the windows cannot say, the state can.
const ASK: u32 = 0x200;

// The number that a state of this kind has.
fn kind_number(kind: Kind, multicart: bool) -> u32
    ensures { result ≡ kind_number kind multicart }
{
    mount::start(kind, multicart, 0).kind() as u32
}

// Here and in the next each kind is named, so that a new one has to be placed.
fn has_timer(kind: Kind) -> bool
    ensures { result ≡ has_timer kind }
{
    match kind {
        Kind::NoMapper => false,
        Kind::Mbc1 => false,
        Kind::Mbc2 => false,
        Kind::Mbc3 { timer } => timer,
        Kind::Mbc5 { rumble: _ } => false,
        Kind::Mmm01 => false,
        Kind::Mbc6 => false,
        Kind::Mbc7 => false,
    }
}

fn has_rumble(kind: Kind) -> bool
    ensures { result ≡ has_rumble kind }
{
    match kind {
        Kind::NoMapper => false,
        Kind::Mbc1 => false,
        Kind::Mbc2 => false,
        Kind::Mbc3 { timer: _ } => false,
        Kind::Mbc5 { rumble } => rumble,
        Kind::Mmm01 => false,
        Kind::Mbc6 => false,
        Kind::Mbc7 => false,
    }
}

fn facts_of(found: Facts) -> [u32; 12]
    requires { Small found }
    ensures { result ≡ facts_of found }
{
    let kind = found.kind;
    let number = kind_number(kind, found.multicart);
    let area = mount::area_of(kind, found.size) as u32;
    let timer = has_timer(kind) as u32;
    let rumble = has_rumble(kind) as u32;
    [
        number,
        found.banks as u32,
        found.size as u32,
        area,
        found.battery as u32,
        timer,
        rumble,
        found.colour as u32,
        0x134,
        found.title as u32,
        0,
        0,
    ]
}

// What the header of an image says: kind, ROM banks, the header's RAM size, the RAM area to lend, battery, timer, rumble, colour, and
// the title's place and length in the image.
pub fn imf_header(image: &[u8], facts: &mut [u32; 12]) -> u32
    ensures value { result ≡ header_of image.now }
    ensures facts_after { facts.new ≡ facts_after image.now facts.old }
{
    match header::check(image) {
        Ok(found) => {
            *facts = facts_of(found);
            0
        }
        Err(why) => why.number() as u32,
    }
}

// Mounts an image: its state, and a zeroed RAM area.
pub fn imf_mount(state: &mut [u8; 64], image: &[u8], ram: &mut [u8], wall: u64) -> u32
    ensures value { result ≡ mount_of image.now ram.old wall }
    ensures state_after { state.new ≡ state_mounted state.old image.now ram.old wall }
    ensures ram_after { ram.new ≡ mounting.area_after image.now ram.old wall }
{
    match mount::mount(image, ram, wall) {
        Ok(cart) => {
            states::encode(cart, state);
            0
        }
        Err(why) => why.number() as u32,
    }
}

fn read_number(answer: Result<u8, BusRefusal>) -> u32
    ensures { result ≡ read_number answer }
{
    match answer {
        Ok(b) => b as u32,
        Err(why) => REFUSED + (why.number() as u32),
    }
}

// What an address reads: the byte, or 0x100 and the number.
pub fn imf_read(state: &[u8; 64], image: &[u8], ram: &[u8], addr: u16) -> u32
    ensures { result ≡ read_of state.now image.now ram.now addr }
{
    read_number(flat::read(state, image, ram, addr))
}

// A byte written to an address.
pub fn imf_write(state: &mut [u8; 64], ram: &mut [u8], addr: u16, byte: u8) -> u32
    ensures value { result ≡ write_of state.old ram.old addr byte }
    ensures state_after { state.new ≡ state_written state.old ram.old addr byte }
    ensures ram_after { ram.new ≡ area_written state.old ram.old addr byte }
{
    match flat_write::write(state, ram, addr, byte) {
        Ok(()) => 0, // Also where nothing is mapped.
        Err(why) => why.number() as u32,
    }
}

// n mapper clocks on.
pub fn imf_advance(state: &mut [u8; 64], n: u64) -> u32
    ensures value { result ≡ advance_of state.old n }
    ensures state_after { state.new ≡ state_advanced state.old n }
{
    match flat_write::advance(state, n) {
        Ok(()) => 0, // Also without a timer, where nothing moves.
        Err(why) => why.number() as u32,
    }
}

// A size told where it is answered: that of the room asked for, or of the save written.
fn take_size(size: &mut u64, answer: Result<usize, SaveRefusal>) -> u32
    ensures value { result ≡ size_number answer }
    ensures size_after { size.new ≡ size_told size.old answer }
{
    match answer {
        Ok(bytes) => {
            *size = bytes as u64;
            0
        }
        Err(why) => why.number() as u32,
    }
}

// How many bytes a save takes.
pub fn imf_save_size(state: &[u8; 64], size: &mut u64) -> u32
    ensures value { result ≡ size_of state.now }
    ensures size_after { size.new ≡ size_asked state.now size.old }
{
    match states::decode(state) {
        Some(cart) => take_size(size, save_file::ask_room(cart)),
        None => NO_STATE,
    }
}

// Writes the save at this wall time to the start of the room, and how many bytes it is.
pub fn imf_save_out(state: &[u8; 64], ram: &[u8], room: &mut [u8], wall: u64, size: &mut u64) -> u32
    ensures value { result ≡ save_of state.now ram.now (length room.old) wall }
    ensures room_after { room.new ≡ room_saved state.now ram.now room.old wall }
    ensures size_after { size.new ≡ size_saved state.now ram.now (length room.old) wall size.old }
{
    match states::decode(state) {
        Some(cart) => take_size(size, save_file::save(cart, ram, room, wall)),
        None => NO_STATE,
    }
}

fn take_loaded(
    state: &mut [u8; 64],
    clock: &mut u32,
    answer: Result<Option<Cartridge>, SaveRefusal>,
) -> u32
    ensures value { result ≡ loaded_number answer }
    ensures state_after { state.new ≡ loaded_state state.old answer }
    ensures clock_after { clock.new ≡ loaded_clock clock.old answer }
{
    match answer {
        Ok(woken) => match woken {
            Some(next) => {
                states::encode(next, state);
                *clock = 1;
                0
            }
            None => {
                *clock = 0;
                0
            }
        },
        Err(why) => why.number() as u32,
    }
}

// Reads a save at this wall time, and says whether the clock came with it: 1, or 0 where only the RAM did.
pub fn imf_save_in(
    state: &mut [u8; 64],
    ram: &mut [u8],
    save: &[u8],
    wall: u64,
    clock: &mut u32,
) -> u32
    ensures value { result ≡ load_of state.old (length ram.old) save.now wall }
    ensures state_after { state.new ≡ state_loaded state.old (length ram.old) save.now wall }
    ensures ram_after { ram.new ≡ area_loaded state.old ram.old save.now wall }
    ensures clock_after { clock.new ≡ clock_loaded state.old (length ram.old) save.now wall clock.old }
{
    match states::decode(state) {
        Some(cart) => take_loaded(state, clock, save_file::load(cart, ram, save, wall)),
        None => NO_STATE,
    }
}

fn take_windows(windows: &mut [u32; 6], answer: Option<Windows>) -> u32
    ensures value { result ≡ asked_number answer }
    ensures windows_after { windows.new ≡ asked_windows windows.old answer }
{
    let Some(w) = answer else {
        return NO_STATE;
    };
    *windows = [w.rom0, w.romx, w.ram, w.mask, w.how, 0];
    0
}

// Where the windows stand now: the places that 0x0000, 0x4000 and 0xA000 show, the mask of the last, and how it is mapped.
pub fn imf_windows(state: &[u8; 64], windows: &mut [u32; 6]) -> u32
    ensures value { result ≡ windows_number state.now }
    ensures windows_after { windows.new ≡ windows_after state.now windows.old }
{
    take_windows(windows, flat_windows::of(state))
}

fn windows_in(w: &[u32; 6]) -> Windows
    ensures { result ≡ windows_in w.now }
{
    Windows {
        rom0: w[0],
        romx: w[1],
        ram: w[2],
        mask: w[3],
        how: w[4],
    }
}

// Where the ROM window of an address stands: by an index into the numbers, which costs less than to go by cases.
fn rom_start(windows: &[u32; 6], addr: u16) -> u32
    requires { addr < 0x8000 }
    ensures { result ≡ rom_start (windows_in windows.now) addr }
{
    let i = (addr >> 14) as usize;
    windows[i]
}

// What an address reads through windows: the byte, 0x10F outside, or 0x200 where the state must be asked. Most reads are of ROM, and
// are answered first.
pub fn imf_window_read(windows: &[u32; 6], image: &[u8], ram: &[u8], addr: u16) -> u32
    ensures { result ≡ window_read windows.now image.now ram.now addr }
{
    if addr < 0x8000 {
        return windows::rom_byte(image, rom_start(windows, addr), addr) as u32;
    }
    match windows::read(windows_in(windows), image, ram, addr) {
        Ok(b) => b as u32,
        Err(Miss::BadAddress) => REFUSED + 15,
        Err(Miss::Ask) => ASK, // The state is asked for the byte.
    }
}

// A byte written to the RAM window: 0, 15 outside, or 0x200 where it is the state's to take.
pub fn imf_window_write(windows: &[u32; 6], ram: &mut [u8], addr: u16, byte: u8) -> u32
    ensures value { result ≡ window_write windows.now addr }
    ensures ram_after { ram.new ≡ area_through windows.now ram.old addr byte }
{
    match windows::write(windows_in(windows), ram, addr, byte) {
        Ok(()) => 0,
        Err(Miss::BadAddress) => 15,
        Err(Miss::Ask) => ASK, // The state takes the byte.
    }
}
