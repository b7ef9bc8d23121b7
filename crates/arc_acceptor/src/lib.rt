//! The acceptor: what a node that keeps some entries appends and answers to a message.
//!
//! It stands on `arc_data` for entries, messages and answers, and on `arc_voting` for the table and for what a list of
//! entries says. A node stands on it. It knows no disk.
//!
//! The law that it keeps is the acceptor's of Lamport, "Paxos Made Simple", section 2.2: a node that has promised a
//! ballot takes part in no lower one, and a promise tells the vote of highest ballot. A slot is closed once, and only at
//! the end of the list.
//!
//! An answer takes no more than the tail of the entries, where each vote stands at the slot that was open when it was given
//! (`answer_tail`); for other entries it looks through all of them (`answer`). It asks for memory only to copy a command.
//!
//! What the caller owes: fewer than 2^32 entries, and a slot below 2^32 - 1 in what is to be learned.
#![tactic(auto)]

mod laws;
mod progress;
mod table;
mod turned;

pub use laws::each_message_has_one_turn;
pub use table::{answer, answer_tail};
pub use turned::Turned;
