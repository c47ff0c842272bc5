// The images, cases and drawn accesses of the programs that show the bus and the save file, by recipes that can be followed
// elsewhere.
#![tactic(auto)]

pub mod build;
pub mod draw;
pub mod steps;
#[cfg(test)]
mod tests;

ghost use Rattle.std.specs.Prelude.{◌≡◌, IfOk, vec_len};

use std::alloc::{AllocError, Global};

// Where an image is filled: n zeros, on the heap, since a stack has no room for them.
pub fn blank(alloc: Global, n: usize) -> Result<Vec<u8>, AllocError>
    ensures { IfOk result (λ image. vec_len image ≡ n) }
{
    vec![in alloc; 0; n]
}
