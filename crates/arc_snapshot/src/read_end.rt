//! How a read ends that isn't answered.

/// Why a read wasn't answered.
#[derive(Clone, Copy, Debug, PartialEq, Eq)]
pub enum ReadEnd {
    /// The list that was entered has fewer commands than the token asks for.
    Behind { have: u64, asked: u64 },
    /// The write side is gone, and nothing is published any more. Nothing was entered.
    Closed,
    /// There was no memory for the answer.
    Memory,
}
