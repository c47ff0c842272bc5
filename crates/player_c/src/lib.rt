// What a player in C or Rust links, `libplayer.a`: the calls of `player` under their own names, by C's calling convention. Each says what
// `player` says of it, word for word (`tools/contracts check` holds that), and hands its arguments on. A caller that is not Rattle is checked
// by nothing: include/imfelkuz.h says what it must lend.
#![tactic(auto)]

ghost use Rattle.std.specs.Prelude.{◌≡◌, length};
ghost use Rattle.mount.specs.Mount as mounting;
ghost use Rattle.flat_write.specs.Calls.{state_written, area_written, state_advanced};
ghost use Rattle.player.specs.Header.{header_of, facts_after};
ghost use Rattle.player.specs.Bus.{mount_of, state_mounted, read_of, write_of, advance_of};
ghost use Rattle.player.specs.Save.{size_of, size_asked, save_of, room_saved, size_saved, load_of, state_loaded, area_loaded, clock_loaded};
ghost use Rattle.player.specs.Windows.{windows_number, windows_after, window_read, window_write, area_through};

// What the header of an image says: kind, ROM banks, the header's RAM size, the RAM area to lend, battery, timer, rumble, colour, and
// the title's place and length in the image.
#[unsafe(no_mangle)]
pub extern "C" fn imf_header(image: &[u8], facts: &mut [u32; 12]) -> u32
    ensures value { result ≡ header_of image.now }
    ensures facts_after { facts.new ≡ facts_after image.now facts.old }
{
    player::imf_header(image, facts)
}

// Mounts an image: its state, and a zeroed RAM area.
#[unsafe(no_mangle)]
pub extern "C" fn imf_mount(state: &mut [u8; 64], image: &[u8], ram: &mut [u8], wall: u64) -> u32
    ensures value { result ≡ mount_of image.now ram.old wall }
    ensures state_after { state.new ≡ state_mounted state.old image.now ram.old wall }
    ensures ram_after { ram.new ≡ mounting.area_after image.now ram.old wall }
{
    player::imf_mount(state, image, ram, wall)
}

// What an address reads: the byte, or 0x100 and the number.
#[unsafe(no_mangle)]
pub extern "C" fn imf_read(state: &[u8; 64], image: &[u8], ram: &[u8], addr: u16) -> u32
    ensures { result ≡ read_of state.now image.now ram.now addr }
{
    player::imf_read(state, image, ram, addr)
}

// A byte written to an address.
#[unsafe(no_mangle)]
pub extern "C" fn imf_write(state: &mut [u8; 64], ram: &mut [u8], addr: u16, byte: u8) -> u32
    ensures value { result ≡ write_of state.old ram.old addr byte }
    ensures state_after { state.new ≡ state_written state.old ram.old addr byte }
    ensures ram_after { ram.new ≡ area_written state.old ram.old addr byte }
{
    player::imf_write(state, ram, addr, byte)
}

// n mapper clocks on.
#[unsafe(no_mangle)]
pub extern "C" fn imf_advance(state: &mut [u8; 64], n: u64) -> u32
    ensures value { result ≡ advance_of state.old n }
    ensures state_after { state.new ≡ state_advanced state.old n }
{
    player::imf_advance(state, n)
}

// How many bytes a save takes.
#[unsafe(no_mangle)]
pub extern "C" fn imf_save_size(state: &[u8; 64], size: &mut u64) -> u32
    ensures value { result ≡ size_of state.now }
    ensures size_after { size.new ≡ size_asked state.now size.old }
{
    player::imf_save_size(state, size)
}

// Writes the save at this wall time to the start of the room, and how many bytes it is.
#[unsafe(no_mangle)]
pub extern "C" fn imf_save_out(
    state: &[u8; 64],
    ram: &[u8],
    room: &mut [u8],
    wall: u64,
    size: &mut u64,
) -> u32
    ensures value { result ≡ save_of state.now ram.now (length room.old) wall }
    ensures room_after { room.new ≡ room_saved state.now ram.now room.old wall }
    ensures size_after { size.new ≡ size_saved state.now ram.now (length room.old) wall size.old }
{
    player::imf_save_out(state, ram, room, wall, size)
}

// Reads a save at this wall time, and says whether the clock came with it: 1, or 0 where only the RAM did.
#[unsafe(no_mangle)]
pub extern "C" fn imf_save_in(
    state: &mut [u8; 64],
    ram: &mut [u8],
    save: &[u8],
    wall: u64,
    clock: &mut u32,
) -> u32
    ensures value { result ≡ load_of state.old (length ram.old) save.now wall }
    ensures state_after { state.new ≡ state_loaded state.old (length ram.old) save.now wall }
    ensures ram_after { ram.new ≡ area_loaded state.old ram.old save.now wall }
    ensures clock_after { clock.new ≡ clock_loaded state.old (length ram.old) save.now wall clock.old }
{
    player::imf_save_in(state, ram, save, wall, clock)
}

// Where the windows stand now: the places that 0x0000, 0x4000 and 0xA000 show, the mask of the last, and how it is mapped.
#[unsafe(no_mangle)]
pub extern "C" fn imf_windows(state: &[u8; 64], windows: &mut [u32; 6]) -> u32
    ensures value { result ≡ windows_number state.now }
    ensures windows_after { windows.new ≡ windows_after state.now windows.old }
{
    player::imf_windows(state, windows)
}

// What an address reads through windows: the byte, 0x10F outside, or 0x200 where the state must be asked. Most reads are of ROM, and
// are answered first.
#[unsafe(no_mangle)]
pub extern "C" fn imf_window_read(windows: &[u32; 6], image: &[u8], ram: &[u8], addr: u16) -> u32
    ensures { result ≡ window_read windows.now image.now ram.now addr }
{
    player::imf_window_read(windows, image, ram, addr)
}

// A byte written to the RAM window: 0, 15 outside, or 0x200 where it is the state's to take.
#[unsafe(no_mangle)]
pub extern "C" fn imf_window_write(windows: &[u32; 6], ram: &mut [u8], addr: u16, byte: u8) -> u32
    ensures value { result ≡ window_write windows.now addr }
    ensures ram_after { ram.new ≡ area_through windows.now ram.old addr byte }
{
    player::imf_window_write(windows, ram, addr, byte)
}
