//! What is known at the sides. No value of these types is made: they stand in proofs alone.

use arc_data::Command;

/// What a reader knows. A clause reads an array as a list, of any length.
pub struct Known {
    /// The longest list of commands that it has seen.
    pub seen: [Command; 0],
    /// How many commands each list had that a read entered, the first read first.
    pub lengths: [u64; 0],
    /// The list of commands that it was told of.
    pub told: [Command; 0],
    /// Which sides it is of, in numbers.
    pub sides: [u64; 0],
}

/// What the writer holds.
pub struct Lists {
    /// The commands that readers see.
    pub published: [Command; 0],
    /// These, and the commands that were taken over after them.
    pub taken: [Command; 0],
    /// Which sides it is of, in numbers.
    pub sides: [u64; 0],
}

/// What a snapshot holds.
pub struct Version {
    /// The commands that made it.
    pub commands: [Command; 0],
    /// What was recorded when it was last marked.
    pub recorded: [Command; 0],
    /// Which sides it is of, in numbers.
    pub sides: [u64; 0],
}

/// What was seen of a record.
pub struct Recorded {
    /// Of which sides it is, in numbers.
    pub sides: [u64; 0],
    pub list: [Command; 0],
}

/// What is recorded of the commands that were taken over.
pub struct Whole {
    /// Of which sides it is, in numbers.
    pub sides: [u64; 0],
    pub list: [Command; 0],
    /// Whether every command that was taken over is recorded.
    pub whole: bool,
}
