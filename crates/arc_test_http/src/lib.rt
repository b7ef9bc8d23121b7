//! Tests of HTTP: requests, refusals and responses, worked out by hand.
//!
//! They stand apart from the crate that they test, so that it is proved once, and not once more with its tests.
//!
//! It stands on `arc_http`, which it tests, and on `arc_token` for the token of a response. It exports nothing, and no
//! promise rests on it.
#![tactic(auto)]

#[cfg(test)]
mod heads;
#[cfg(test)]
mod pieces;
#[cfg(test)]
mod responses;
