//! Tests of the outside: the adapters over readers and writers of the standard library, inputs of several pieces, and the
//! fates of a scripted courier.
//!
//! They stand apart from the crates that they test, so that those are proved once, and not once more with their tests.
//!
//! It stands on `arc_bytes` and `arc_courier`, which it tests. It exports nothing, and no promise rests on it.
#![tactic(auto)]

#[cfg(test)]
mod courier;
#[cfg(test)]
mod inputs;
#[cfg(test)]
mod readers;
#[cfg(test)]
mod writers;
