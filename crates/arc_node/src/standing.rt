//! Whether a node is up, and why it isn't.

/// Whether a node is up, and why it isn't.
#[derive(Clone, Copy)]
pub(crate) enum Standing {
    /// It was loaded, and not woken yet.
    Asleep,
    /// It handles messages.
    Up,
    /// Its disk failed or crashed, so that what is on it has to be read again.
    Down,
    /// Its journal has as many entries as it takes.
    Retired,
}
