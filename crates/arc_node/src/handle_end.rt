//! How the handling of a message ends.

use arc_data::Answer;

/// How the handling of a message ends.
#[derive(Drop)]
pub enum HandleEnd {
    /// The node answers. What it appended is on its disk.
    Answered(Answer),
    /// The node was not up, or it went down: its disk failed, or its journal has no room for the entry.
    Down,
    /// There was no memory left. The node is as it was.
    Memory,
}
