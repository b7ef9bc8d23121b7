//! A range of bytes of a disk.

/// A range that was written and not synced.
#[derive(Clone, Copy, PartialEq, Eq)]
pub(crate) struct Range {
    /// The place of its first byte.
    pub at: usize,
    /// How many bytes it has.
    pub len: usize,
}
