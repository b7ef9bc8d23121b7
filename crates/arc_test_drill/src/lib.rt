//! Tests of the drill where no script reaches: sources, sinks and disks that fail or stop in a chosen call, and what a crash
//! leaves on the disk then.
//!
//! They stand apart from the crate that they test, so that it is proved once, and not once more with its tests. What a
//! script can show is told by the stories.
//!
//! It stands on `arc_drill`, which it tests, on `arc_bytes` and `arc_disk` for what is handed to it, and on `arc_journal` for
//! what is read of the disk. It exports nothing, and no promise rests on it.
#![tactic(auto)]

#[cfg(test)]
mod drilling;
#[cfg(test)]
mod faults;
#[cfg(test)]
mod narrow;
#[cfg(test)]
mod stops;
