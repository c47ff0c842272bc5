// What several crates need and nothing of the domain. Most of it is in specs/ (definitions) and proofs/ (laws).
#![tactic(auto)]

ghost use Rattle.std.specs.Prelude.{◌≡◌, ◌+◌, ◌-◌, ◌/◌, ◌%◌, ◌<◌};
ghost use Rattle.facts.specs.Choice.{both, either};

// Whether both hold. `&&` and `||` as calls are said whole: an operator's arms part and meet again, and a caller's proof
// would lose what was known in them.
pub fn both(a: bool, b: bool) -> bool
    ensures { result ≡ both a b }
{
    if a { b } else { false }
}

// Whether one of the two holds.
pub fn either(a: bool, b: bool) -> bool
    ensures { result ≡ either a b }
{
    if a { true } else { b }
}

// a less b, or 0 where that would be negative, which is what `-` means in definitions.
pub fn saturating_sub(a: u64, b: u64) -> u64
    ensures { result ≡ a - b }
{
    if a < b { 0 } else { a - b }
}

// A counter's value after some steps, and how many of them carried.
#[derive(Drop)]
pub struct Counted {
    pub value: u64,
    pub carried: u64,
}

// n steps from a value below the stop. The sum v + n, which may not fit, is formed only where it is below the stop.
pub fn from_below(stop: u64, v: u64, n: u64) -> Counted
    requires { v < stop }
    ensures { (result.value ≡ (v + n) % stop) × (result.carried ≡ (v + n) / stop) }
{
    let left = stop - v;
    if n < left {
        return Counted {
            value: v + n,
            carried: 0,
        };
    }
    let past = n - left;
    Counted {
        value: past % stop,
        carried: past / stop + 1,
    }
}
