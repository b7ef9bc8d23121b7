//! A request as a caller sees it.

/// A request, as ranges of the bytes that it was read from and a few values.
#[derive(Clone, Copy, Debug, PartialEq, Eq)]
pub struct RequestView<'a> {
    /// The operation that is asked for.
    pub op: &'a [u8],
    /// How many commands the caller knows to be in the list, 0 where it doesn't say.
    pub token: u64,
    /// What comes with the operation.
    pub body: &'a [u8],
    /// Whether the connection ends after the answer.
    pub close: bool,
    /// Whether a snapshot is to be read.
    pub local: bool,
}
