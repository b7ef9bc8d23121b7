//! How a call ends.

use arc_cluster::Tally;
use arc_data::Reply;

/// How many attempts of a call may be disturbed: the last of them ends it.
pub const MOST_DISTURBED: usize = 8;

/// How a call ends. After `Unavailable`, `Memory` and, where the node was up, `NodeDown` the command of the call may be finished
/// later, by another call; it has an identifier of its own, so that a retry is a second command.
#[derive(Drop)]
pub enum CallEnd {
    /// The command has this place in the list, from 0 on, and this is its reply there. The token is the place and one.
    Answered { slot: u32, reply: Reply, token: u64 },
    /// Eight attempts were disturbed: these are their tallies, the first one first.
    Unavailable { tallies: [Tally; MOST_DISTURBED] },
    /// The endpoint's node isn't up: it wasn't, or its disk failed, or its journal is full.
    NodeDown { node: u8 },
    /// The endpoint's list has as many commands as it takes, and the call's isn't among them.
    ListFull { length: u32 },
    /// There was no memory left.
    Memory,
}
