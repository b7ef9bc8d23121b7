//! How a start of a node ends.

use arc_data::Record;

/// How a start of a node ends.
#[derive(Drop)]
pub enum Restart {
    /// The node is up, started for the time with this number.
    Up {
        inc: u32,
    },
    /// The journal has as many entries as it takes, this many. The node is retired.
    Full {
        count: u32,
    },
    /// The disk failed: its count of faults rose.
    Disk,
    /// The bytes on the disk are no journal of the node. `place` is that of the first wrong byte of the head, or that of
    /// the gate of the first entry that isn't one; 12 where the head names another greatest length of the list.
    NotOurs {
        place: u64,
    },
    /// The digest that stands behind an entry's body isn't that of the body. `place` is that of the entry's gate.
    Rotten {
        place: u64,
        stored: [u8; 32],
        computed: [u8; 32],
    },
    /// The entries on the disk are neither those that the node keeps nor these with the one in doubt. `place` is the first
    /// at which they differ from the kept ones, and there stand these two entries, or `None` past an end.
    Damaged {
        place: u32,
        kept: Option<Record>,
        found: Option<Record>,
    },
    /// There was no memory left.
    Memory,
}
