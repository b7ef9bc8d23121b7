//! Tests of five nodes: how attempts end while exchanges fail or nodes are down, what each node promises by them, and how
//! long the lists are then; what is answered to messages that come late; nodes that are started again; and five disks that
//! are opened, whole, damaged and exchanged.
//!
//! They stand apart from the crate that they test, so that it is proved once, and not once more with its tests.
//!
//! It stands on `arc_cluster`, which it tests, on `arc_data` for commands, on `arc_bytes`, `arc_disk` and `arc_courier` for
//! what a cluster is made of, and on `arc_journal` for journals that no node wrote. It exports nothing, and no promise rests
//! on it.
#![tactic(auto)]

#[cfg(test)]
mod attempts;
#[cfg(test)]
mod five;
#[cfg(test)]
mod held;
#[cfg(test)]
mod opening;
#[cfg(test)]
mod restarted;
