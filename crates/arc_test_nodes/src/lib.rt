//! Tests of one node and its journal: the bytes of a new node, what is seen and found in damaged bytes, what a crash leaves
//! of an append, and a node that is loaded.
//!
//! They stand apart from the crates that they test, so that those are proved once, and not once more with their tests. What a
//! drill shows of nodes, and of disks that stop in one, is told by the stories and by `arc_test_drill`.
//!
//! It stands on `arc_journal` and `arc_node`, which it tests, on `arc_command` for entries and on `arc_bytes` and `arc_disk` for
//! what is handed to them. It exports nothing, and no promise rests on it.
#![tactic(auto)]

#[cfg(test)]
mod image;
#[cfg(test)]
mod journal;
#[cfg(test)]
mod node;
