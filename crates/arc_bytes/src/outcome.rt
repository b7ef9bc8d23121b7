//! The two ways in which a call of the outside ends badly.

use std::alloc::{AllocError, AllocFailed};

/// There was no memory left. It is merged with no other outcome.
#[derive(Clone, Copy, Debug, PartialEq, Eq)]
pub struct Memory;

/// The outside failed: the count of faults of the object that was handed in rose.
#[derive(Clone, Copy, Debug, PartialEq, Eq)]
pub struct Failed;

impl From<AllocError> for Memory {
    fn from(_: AllocError) -> Memory {
        Memory
    }
}

impl<T: Drop> From<AllocFailed<T>> for Memory {
    fn from(_: AllocFailed<T>) -> Memory {
        Memory
    }
}
