//! Snapshot readers: published commands, and what they make, read without waiting for anybody.
//!
//! It stands on `left_right` for two copies of a plain cluster, on `arc_state` for what commands do and what a read is
//! answered, and on `arc_token`. The record of all commands that were taken over stands in proofs alone (`logbook`). No server
//! stands on it yet.
//!
//! `sides` gives one `WriteSide` and some `ReadSide`s. The writer takes commands over and publishes them, all at once;
//! a reader enters the list that is published at that moment, and answers a read operation after it. Each side may live
//! in a thread of its own.
//!
//! ```text
//!   write side   published: 1 2 3        taken: 1 2 3 4 5     (4 and 5 wait for the next `publish`)
//!   reader A     has seen:  1 2 3        entered lists of 0, 2 and 3 commands, was told of 1 2
//!   reader B     has seen:  1            its next read enters 1 2 3, or more
//! ```
//!
//! What a reader may rely on:
//! - `read` waits for nobody. It enters exactly one list, whose length n joins `lengths`; only where the write side is gone
//!   (`Closed`) it enters none.
//! - That list begins with all that this reader has seen before, and with all that it was told of. So n is below no earlier
//!   length and not below `told`: a reader never goes back.
//! - The answer is that of the plain cluster after these n commands, and its token is n, which isn't below the token that
//!   was asked for. `Behind` comes exactly where n is below it.
//! - After `tell` the reader was told of all that is published.
//! - The published list and all lists that readers of these sides have seen or were told of begin one list: that is the
//!   rule which every step keeps (`Keeps`).
//!
//! What it may not rely on: that a snapshot has another caller's last command, unless that caller's token is asked for; that
//! anything is published soon, or at all; any order in time between readers that told each other nothing.
//!
//! What is published, and when: `publish` takes commands over behind those that were taken, and shows readers all of them
//! at once; it may wait for readers that still read the older copy. After want of memory readers see what they saw, and some
//! of the new commands, from the front, may have been taken over: the next `publish`, of none too, publishes these first.
//!
//! How `tell` knows that a reader found what is published: `left_right` doesn't say that a reader which has read is still one
//! of the same writer. So each copy is marked, before it is shown, with what the record has; a reader that is told looks at
//! the published copy, and what it finds begins the one record, as the published list does. Of two beginnings of one length
//! one is the other.
//!
//! What the caller owes: commands within their limits, fewer than 2^64 - 1 in all; at `tell`, a reader of these sides.
#![tactic(auto)]

mod known;
mod places;
mod read_end;
mod read_side;
mod record;
mod rule;
mod snapshot;
mod taken;
mod write_side;
mod writing;

pub use arc_bytes::Memory;
pub use places::{Handles, PlaceEnd, Places, SidesEnd, sides};
pub use read_end::ReadEnd;
pub use read_side::ReadSide;
pub use write_side::WriteSide;
