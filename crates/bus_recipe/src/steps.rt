// What a mounted cartridge is given, one thing after the other.

#[derive(Clone, Copy)]
pub enum Step {
    // An address is read.
    Read(u16),
    // A byte is written to an address.
    Write(u16, u8),
    // The same, and no line tells of it unless it is refused.
    Quiet(u16, u8),
    // So many mapper clocks pass.
    Clocks(u64),
    // The whole RAM area is filled through the bus.
    Fill,
}
