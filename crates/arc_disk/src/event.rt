//! What changes a disk.

/// What changed a disk in memory, with what the clock said afterwards.
#[derive(Clone, Copy)]
pub(crate) enum Event {
    /// So many bytes were written from a place on. The log keeps them beside its events.
    Write { time: u64, at: usize, len: usize },
    /// What waited was synced.
    Sync { time: u64 },
    /// A crash left this byte in what waited.
    Crash { time: u64, fill: u8 },
}
