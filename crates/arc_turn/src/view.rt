//! What a seat at the turn's table knows. No value of these types is made: they stand in proofs alone.

/// How far a seat has come.
pub enum Stage {
    /// It has no ticket.
    Idle,
    /// It has drawn this ticket, and it isn't its turn yet.
    Waits(u64),
    /// It is its turn, by this ticket, and the slot is out with it.
    Serves(u64),
    /// It was joined into another, and knows nothing.
    Spent,
}

/// What a seat tells another at a join.
pub struct Told {
    pub seen: [[u64; 0]; 0],
    pub name: [u64; 0],
}

/// What a seat knows. A clause reads an array as a list, of any length.
pub struct View {
    pub stage: Stage,
    /// The history as far as it was seen.
    pub seen: [[u64; 0]; 0],
    /// What a join put together, until a look has compared it.
    pub joined: [Told; 0],
    /// The name of the turn's value.
    pub name: [u64; 0],
}
