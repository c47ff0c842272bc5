// The Rust cartridge module written down as functions on values, and the theorem that within Original 1 to 3 it answers as the
// product does. There is no code here.
#![tactic(auto)]
