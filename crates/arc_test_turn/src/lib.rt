//! Tests of the turn: several threads take it, and passes that meet.
//!
//! They stand apart from the crate that they test, so that it is proved once, and not once more with its tests.
//!
//! It stands on `arc_turn`, which it tests. It exports nothing, and no promise rests on it.
#![tactic(auto)]

#[cfg(test)]
mod threads;
