// Replays `cart.trace` on `cart.rom`, both in the folder that it is run in. `make replay` builds and runs it.
#![tactic(auto)]

use std::io;

fn main(rt: HostRuntime) -> io::Result<()> {
    replay_files::run(&rt, b"cart.rom", b"cart.trace")
}
