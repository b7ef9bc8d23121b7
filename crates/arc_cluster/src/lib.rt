//! Five nodes that agree on one list of commands, though messages are lost and disks fail.
//!
//! It stands on `arc_node` for the nodes and their disks, on `arc_courier` for what becomes of each exchange between
//! two nodes, on `arc_proposer` for the ballots of an endpoint, and on `arc_voting` for what journals choose and for the
//! laws of sound ones.
//!
//! The law that it keeps: a cluster is in order after every call. For each node choose a list of entries that its disk
//! may have: the kept one, or that with the entry in doubt behind it. Whichever are chosen, the five lists are sound: a
//! slot has one command, and what a node has applied begins all that it applies later. A phase keeps this at every
//! moment: whatever crashes leave of the five disks, each at a moment of its own since the phase began, their journals
//! are sound.
//!
//! A held message is delivered to its receiver alone, and stays held. A node that is started again compares what is on its
//! disk with what it keeps, and only then appends its next start; no command gets a vote by either. Five disks with journals
//! are opened where each is there, each is a journal of its node, all are for one greatest length, and together they are
//! sound. These are tested in this order before anything is written, and the first test that fails is named, at its least
//! node.
//!
//! What the caller owes: five empty disks for a new cluster, and mail that is lawful whichever of those lists are
//! chosen. What is held stays lawful for ever, so that it can be delivered at any time, and again.
//!
//! A worked case. A new cluster is in order: each disk has `Opened { inc: 1 }`. In its first phase nodes 1, 2 and 3 are
//! sent `Prepare { slot: 0, ballot: 5 }`, and disk 3 fails.
//!
//! | node | answers | keeps then | a crash since the phase began leaves |
//! |---|---|---|---|
//! | 0, 4 | none: no mail | `Opened` | `Opened` |
//! | 1, 2 | `Promise { slot: 0, ballot: 5, vote: None }` | `Opened`, `Promised` | that, or before the answer `Opened` |
//! | 3 | none: it is down | `Opened`, with `Promised` in doubt | `Opened`, with or without `Promised` |
//!
//! Whichever of these are chosen, they are sound: what a crash undoes is an entry that nobody was told of.
//!
//! An attempt, phase by phase, in another new cluster: node 0 is to give the command `a` its slot, and in phase 3 the answer of
//! node 4 is lost.
//!
//! | phase | who gets what | what is appended, before the answer | what is answered |
//! |---|---|---|---|
//! | 1 | 1, 2, 3, 4: `Status { slot: 0 }` | nothing | `At { length: 0, ballot: 0, known: None }` |
//! | 2 | nobody: none lacks a command below slot 0 | | |
//! | 3 | all five: `Prepare { slot: 0, ballot: 5 }`, the least ballot of node 0 above 0 | `Promised { from: 0, ballot: 5 }` on all five disks | `Promise { slot: 0, ballot: 5, vote: None }`; that of node 4 is lost, so it is out |
//! | 4 | 0 alone: `Accept { slot: 0, ballot: 5, a }`, since no vote was told | `Voted { slot: 0, ballot: 5, a }` on disk 0 | `Accepted` |
//! | 5 | 1, 2, 3: the same | the same on disks 1, 2, 3 | `Accepted`: four votes, where three would do |
//! | 6 | 0 alone: `Learn { slot: 0, a }` | `Closed { slot: 0, a }` on disk 0 | `Learned { length: 1 }` |
//! | 7 | 1, 2, 3: the same | the same on disks 1, 2, 3 | `Learned { length: 1 }` |
//!
//! It ends in `Placed { slot: 0 }`. Disks 0 to 3 hold `Opened`, `Promised`, `Voted`, `Closed`; disk 4 holds `Opened` and
//! `Promised`. In the next attempt node 4 answers `At { length: 0, .. }`, is told `a` in phase 2, and stands beside the others.
//! Had the answers of 3 and 2 been lost too, two promises would have been counted: `Disturbed`, with the digits of 0 and 1, and
//! nothing voted for.
//!
//! Where to go: `attempting` chains the phases; `asking` has 1 and 2, `balloting` 3 to 7; `exchange` sends, asks the courier and
//! keeps what comes later; `handling` lets nodes handle their mail; `delivering`, `restarting`, `adopting` are the other calls.
#![tactic(auto)]

mod adopting;
mod asking;
mod attempt;
mod attempting;
mod balloting;
mod cluster;
mod counting;
mod delivering;
mod disks;
mod exchange;
mod fates;
mod handling;
mod held;
mod laws;
mod loading;
mod noting;
mod opening;
mod restarting;
mod telling;
mod waking;
mod work;

pub use attempt::{Attempt, Tally};
pub use cluster::Cluster;
pub use delivering::Delivered;
pub use held::Envelope;
pub use laws::{
    attempts_may_follow, commands_may_be_attempted_again, new_commands_may_be_attempted,
};
pub use opening::OpenEnd;
