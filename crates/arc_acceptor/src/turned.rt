//! What an acceptor makes of a message.

use arc_data::{Answer, Record};

/// What is to be appended to the journal, and then answered.
#[derive(Drop)]
pub struct Turned {
    /// The entry that has to be on the disk before the answer goes out, if there is one.
    pub append: Option<Record>,
    pub reply: Answer,
}
