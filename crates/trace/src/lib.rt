// The trace: records one behind the other in lent bytes, each a mark of two bytes and a body. What stands at a place is a record
// and the place behind it, the end, or a refusal with the record's place.
#![tactic(auto)]

ghost use Rattle.std.specs.Prelude.{◌≡◌, ◌+◌, ◌≤◌, length};
ghost use Rattle.trace.specs.Trace.{number_of, place_of, body_of, kind_of, record_of, whole_at, record_at, reader_at};

use bytes_le::Field;

#[derive(Clone, Copy, Debug, PartialEq, Eq)]
pub enum Record {
    Read { addr: u16 },
    Write { addr: u16, byte: u8 },
    Clocks { count: u32 },
}

// Why no record stands at a place, with that place.
#[derive(Clone, Copy, Debug, PartialEq, Eq)]
pub enum TraceRefusal {
    UnknownMark(usize),
    CutShort(usize),
}

// A kind of record has a mark, a length of its body, and fields: `kind_of`, `body` and `record_of` say which.
#[derive(Clone, Copy)]
enum Kind {
    Read,
    Write,
    Clocks,
}

impl TraceRefusal {
    pub fn number(self) -> u8
        ensures { result ≡ number_of self }
    {
        match self {
            TraceRefusal::UnknownMark(_) => 22,
            TraceRefusal::CutShort(_) => 23,
        }
    }

    // Where the record's first byte stands.
    pub fn place(self) -> usize
        ensures { result ≡ place_of self }
    {
        match self {
            TraceRefusal::UnknownMark(at) => at,
            TraceRefusal::CutShort(at) => at,
        }
    }
}

impl Kind {
    // The number of bytes behind the mark.
    fn body(self) -> usize
        ensures { result ≡ body_of self }
    {
        match self {
            Kind::Read => 2,
            Kind::Write => 3,
            Kind::Clocks => 4,
        }
    }
}

// The kind of record that two bytes mark, if they mark one.
fn kind_of(first: u8, second: u8) -> Option<Kind>
    ensures { result ≡ kind_of first second }
{
    match 256 * (first as u16) + second as u16 {
        0x5244 => Some(Kind::Read),
        0x5752 => Some(Kind::Write),
        0x434B => Some(Kind::Clocks),
        _ => None,
    }
}

// The record whose body stands at a place.
fn record_of(kind: Kind, bytes: &[u8], at: usize) -> Record
    requires { at + body_of kind ≤ length bytes.now }
    ensures { result ≡ record_of kind bytes.now at }
{
    match kind {
        Kind::Read => Record::Read {
            addr: u16::read(bytes, at),
        },
        Kind::Write => Record::Write {
            addr: u16::read(bytes, at),
            byte: u8::read(bytes, at + 2),
        },
        Kind::Clocks => Record::Clocks {
            count: u32::read(bytes, at),
        },
    }
}

// The record whose mark stands at a place, and the place behind it, unless its body is cut.
fn whole_at(kind: Kind, bytes: &[u8], at: usize) -> Result<Option<(Record, usize)>, TraceRefusal>
    requires { at + 2 ≤ length bytes.now }
    ensures { result ≡ whole_at kind bytes.now at }
{
    let body = kind.body();
    if bytes.len() - at - 2 < body {
        return Err(TraceRefusal::CutShort(at));
    }
    Ok(Some((record_of(kind, bytes, at + 2), at + 2 + body)))
}

// What stands at a place: a record and the place behind it, or none. At the trace's end and beyond it nothing is left.
fn record_at(bytes: &[u8], at: usize) -> Result<Option<(Record, usize)>, TraceRefusal>
    ensures { result ≡ record_at bytes.now at }
{
    if bytes.len() <= at {
        return Ok(None);
    }
    if bytes.len() - at < 2 {
        return Err(TraceRefusal::CutShort(at));
    }
    let Some(kind) = kind_of(bytes[at], bytes[at + 1]) else {
        return Err(TraceRefusal::UnknownMark(at));
    };
    whole_at(kind, bytes, at)
}

// A reader: the trace that is lent to it, and the place where it stands.
#[derive(Drop)]
pub struct Reader<'a> {
    pub trace: &'a [u8],
    pub at: usize,
}

impl<'a> Reader<'a> {
    // The reader at the trace's start.
    pub fn new(trace: &'a [u8]) -> Reader<'a>
        ensures { result ≡ reader_at trace.entry 0 }
    {
        Reader { trace, at: 0 }
    }

    // The reader at another place of its trace.
    pub fn moved(self, at: usize) -> Reader<'a>
        ensures { result ≡ reader_at self.entry.trace at }
    {
        Reader {
            trace: self.trace,
            at,
        }
    }

    // What stands at the reader's place.
    pub fn next(self) -> Result<Option<(Record, usize)>, TraceRefusal>
        ensures { result ≡ record_at self.entry.trace.now self.entry.at }
    {
        record_at(self.trace, self.at)
    }
}

// What stands at a place of a trace, for a caller that keeps the two itself.
pub fn next_record(trace: &[u8], at: usize) -> Result<Option<(Record, usize)>, TraceRefusal>
    ensures { result ≡ record_at trace.now at }
{
    Reader::new(trace).moved(at).next()
}
