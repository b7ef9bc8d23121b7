//! Nodes: a journal on a disk, the entries that it has, and what is answered to messages.
//!
//! It stands on `arc_journal` for the disk's entries, on `arc_acceptor` for the table of messages and answers, and on
//! `arc_voting` for what a list of entries says. A cluster is five nodes.
//!
//! The law that it keeps: a node's entries change only by a message that it handles and by a start, and what it appends is
//! on its disk before it answers. Whatever a crash leaves on its disk is a journal with the entries that it keeps, or with
//! the one entry that is in doubt behind them.
//!
//! What the caller owes: commands within their limits, a slot below the greatest length of the list in what is to be
//! learned, and an empty disk for a new node. A node that was loaded is woken once, and handles messages only if each of
//! its votes stands at the slot that was open when it was given: that is so of a new node, and each call keeps it so.
#![tactic(auto)]

mod answering;
mod appending;
mod comparing;
mod entries;
mod handle_end;
mod node;
mod restart;
mod standing;
mod starts;

pub use arc_journal::JournalEnd;
pub use handle_end::HandleEnd;
pub use node::Node;
pub use restart::Restart;
