//! How an attempt ends.

/// The slot at which an attempt worked, and the nodes that were clear in it.
#[derive(Clone, Copy)]
pub struct Tally {
    pub slot: u32,
    /// Bit j is set exactly where node j was clear: it was up throughout, its disk didn't fail, and each exchange with it
    /// brought its answer.
    pub clear: u8,
}

/// How an attempt ends.
#[derive(Clone, Copy)]
pub enum Attempt {
    /// The slot closed with the command.
    Placed { slot: u32 },
    /// The slot closed with another command.
    Other { slot: u32 },
    /// Fewer than three nodes were clear, and the slot is as open as it was to the endpoint.
    Disturbed { tally: Tally },
    /// The endpoint's node isn't up: it wasn't, or its disk failed, or its journal is full.
    NodeDown { node: u8 },
    /// The endpoint's list has as many commands as it takes.
    ListFull { length: u32 },
    /// There was no memory left.
    Memory,
}
