//! Disks: what a read gives, and what a crash at any moment may leave.
//!
//! It stands on `arc_bytes`, and what is kept on a disk stands on it.
//!
//! The laws that it keeps: between two syncs a crash may leave any bytes in the ranges that were written, and leaves
//! the others; after a sync it leaves what a read gives. A failure is the disk's own: `Failed` is answered only where
//! the count of faults of the disk that was handed in rose.
//!
//! What the caller owes, where the disk tells its contents: a read lies within them, and a write leaves no gap.
#![tactic(auto)]

mod disk;
mod event;
mod history;
mod memory_disk;
mod range;
mod schedule;

pub use arc_bytes::{Failed, Memory};
pub use disk::{Disk, Rig, WriteEnd};
pub use memory_disk::MemoryDisk;
