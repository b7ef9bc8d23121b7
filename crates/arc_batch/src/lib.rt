//! Batches: changes of several controls that are made together or not at all.
//!
//! It stands on `arc_panel` for controls and on `arc_rules` for what forbids a batch. `arc_plain` has the definitions that
//! its contract cites.
//!
//! The law that it keeps: a batch whose controls and overrides exist is accepted exactly where no rule that it doesn't
//! override forbids it. It then sets all its entries; a batch that is refused changes nothing.
//!
//! What the caller owes: a list time of at most `MAX_MS`.
#![tactic(auto)]

mod batch;

pub use batch::{Controls, commit};
