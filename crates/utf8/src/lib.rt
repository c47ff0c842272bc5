// Whether bytes are UTF-8, as RFC 3629 has it: a reader that goes byte by byte and knows what the character it is in still
// asks for.
#![tactic(auto)]

ghost use Rattle.std.specs.Prelude.{◌≡◌};
ghost use Rattle.utf8.specs.Utf8.{chars, begun, after, done, is_utf8, pending};

// Where a reader of UTF-8 stands: between characters, inside one that wants a byte of lo..=hi and
// then some more tail bytes, or lost.
#[derive(Clone, Copy)]
enum State {
    Whole,
    Tail { lo: u8, hi: u8, more: u8 },
    Bad,
}

// After a character's first byte.
fn first(b: u8) -> State
    ensures { pending result ≡ begun chars b }
{
    match b {
        0x00..=0x7F => State::Whole,
        0xC2..=0xDF => State::Tail {
            lo: 0x80,
            hi: 0xBF,
            more: 0,
        },
        0xE0 => State::Tail {
            lo: 0xA0,
            hi: 0xBF,
            more: 1,
        },
        0xE1..=0xEC => State::Tail {
            lo: 0x80,
            hi: 0xBF,
            more: 1,
        },
        0xED => State::Tail {
            lo: 0x80,
            hi: 0x9F,
            more: 1,
        },
        0xEE..=0xEF => State::Tail {
            lo: 0x80,
            hi: 0xBF,
            more: 1,
        },
        0xF0 => State::Tail {
            lo: 0x90,
            hi: 0xBF,
            more: 2,
        },
        0xF1..=0xF3 => State::Tail {
            lo: 0x80,
            hi: 0xBF,
            more: 2,
        },
        0xF4 => State::Tail {
            lo: 0x80,
            hi: 0x8F,
            more: 2,
        },
        _ => State::Bad,
    }
}

// One byte on.
fn next(state: State, b: u8) -> State
    ensures { pending result ≡ after (pending state) b }
{
    match state {
        State::Whole => first(b),
        State::Tail { lo, hi, more } => {
            if b < lo {
                return State::Bad;
            }
            if hi < b {
                return State::Bad;
            }
            if more == 0 {
                return State::Whole;
            }
            State::Tail {
                lo: 0x80,
                hi: 0xBF,
                more: more - 1,
            }
        }
        State::Bad => State::Bad,
    }
}

fn whole(state: State) -> bool
    ensures { result ≡ done (pending state) }
{
    match state {
        State::Whole => true,
        State::Tail {
            lo: _,
            hi: _,
            more: _,
        } => false,
        State::Bad => false,
    }
}

// Whether the bytes are UTF-8.
pub fn is_utf8(s: &[u8]) -> bool
    ensures { result ≡ is_utf8 s.now }
{
    let mut state = State::Whole;
    for &b in s {
        state = next(state, b);
    }
    whole(state)
}
