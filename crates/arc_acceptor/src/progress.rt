//! How far a list of entries has come.
ghost use Rattle.std.specs.Prelude.{◌≡◌, ◌<◌, ◌^◌, length};
ghost use Rattle.arc_acceptor.specs.Answering.{progress_of};

use arc_data::{Record, closed_len, promise};

/// How far a list of entries has come: what most messages are answered by.
#[derive(Clone, Copy)]
pub(crate) struct Progress {
    /// How many commands the entries close slots with.
    pub length: u32,
    /// The last promised ballot, or 0.
    pub promise: u64,
}

impl Progress {
    /// How far these entries have come, by a walk over them.
    pub(crate) fn of(rs: &[Record]) -> Progress
        requires { length rs.now < 2 ^ 32 }
        ensures { result ≡ progress_of rs.now }
    {
        Progress {
            length: closed_len(rs),
            promise: promise(rs),
        }
    }
}
