// What a case goes through.

// Day, hour, minute and second of a clock's block.
#[derive(Clone, Copy)]
pub struct Moment(pub u16, pub u8, pub u8, pub u8);

// Blocks were saved at time 1000, and what names no wall time is read at 1000.
#[derive(Clone, Copy)]
pub enum Job {
    // A whole save, read at this wall time.
    Whole(Moment, u64),
    // With this offset in its block.
    Offset(Moment, u64),
    // The same, refused by a cartridge that has been filled.
    Refused(Moment, u64),
    // Read by a cartridge in use.
    Used(Moment),
    // The first bytes of a save, so many.
    Cut(Moment, usize),
    // Filled through the bus, saved at 1000, and read.
    Plain,
    // Filled, the clock at work on day 111, saved at this wall time, and read then and at three more.
    Day111(u32),
    // The same on day 300, and saved while it is halted.
    Day300(u32),
    // Filled, and saved into a room of so many bytes.
    Short(usize),
    // Saved and read with this number of banks, so many bytes of RAM and ten of a save.
    Wrong(u16, usize),
}
