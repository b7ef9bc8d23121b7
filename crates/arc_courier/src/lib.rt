//! The network between five nodes, as far as a proof needs it: what becomes of each exchange with a peer.
//!
//! It stands on `arc_bytes` for counts and for five values, and on nothing else. Who sends messages from node to node asks
//! a courier for the fate of each exchange; nothing of ours does so yet.
//!
//! The law that it keeps: a peer's count of troubles rises exactly where its messages are kept alone or its answer is
//! lost, so that whoever misses an answer has a trouble to show for it. A courier that is silent to a peer stays so,
//! whatever it is asked.
//!
//! What the caller owes: a peer below 5, and a pattern of 1 to 64 fates.
#![tactic(auto)]

mod courier;
mod direct;
mod peer;
mod scripted;

pub use courier::{Courier, Fate};
pub use direct::Direct;
pub use scripted::Scripted;
