//! Tests of the protocol: what the votes of five journals choose and which journals are sound, what a node appends and answers,
//! and what an endpoint proposes.
//!
//! They stand apart from the crates that they test, so that those are proved once, and not once more with their tests. Each
//! module tests one crate, over tables of numbers.
//!
//! It stands on `arc_voting`, `arc_acceptor` and `arc_proposer`, which it tests, and on `arc_bytes` and `arc_data` for what is
//! handed to them. It exports nothing, and no promise rests on it.
#![tactic(auto)]

#[cfg(test)]
mod answered;
#[cfg(test)]
mod audited;
#[cfg(test)]
mod named;
#[cfg(test)]
mod proposed;
