//! Tests of the snapshot readers: what a reader is told at each token.
//!
//! They stand apart from the crate that they test, so that it is proved once, and not once more with its tests.
//!
//! It stands on `arc_snapshot`, which it tests. It exports nothing, and no promise rests on it.
#![tactic(auto)]

#[cfg(test)]
mod readers;
