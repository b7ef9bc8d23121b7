//! What the program `arc` does with its words, over an outside and five disks that are handed in: `arc drill` reads a script
//! from standard input and writes its report to standard output.
//!
//! It stands on `arc_drill`. `run` has all that matters; the program itself (`arc`) only makes the real outside, `Standard`, and
//! five empty disks in memory. `MemoryOutside` is the outside's twin in memory.
//!
//! The promise that `run` carries is the drill's theorem, over the bytes that its outside tells and over the disks.
#![tactic(auto)]

mod memory_outside;
mod outside;
mod standard;
mod top;

pub use memory_outside::MemoryOutside;
pub use outside::Outside;
pub use standard::{Standard, words_of};
pub use top::run;
