//! Tests of engines: how calls end while exchanges fail or nodes are down, what is answered, and how long the lists are then.
//!
//! They stand apart from the crate that they test, so that it is proved once, and not once more with its tests.
//!
//! It stands on `arc_engine`, which it tests, on `arc_data` for operations and replies, on `arc_cluster` for tallies, and on
//! `arc_bytes`, `arc_disk` and `arc_courier` for what an engine is made of. It exports nothing, and no promise rests on it.
#![tactic(auto)]

#[cfg(test)]
mod calls;
#[cfg(test)]
mod engine;
#[cfg(test)]
mod stops;
