//! What is appended and answered to a message behind a list of entries.
ghost use Rattle.std.specs.Prelude.{◌≡◌, IfOk, OnErr};
ghost use Rattle.arc_acceptor.specs.Answering.{CopiesCommand, IsLearnable, turn_in};
ghost use Rattle.arc_voting.specs.Replies.{slot_of};
ghost use Rattle.arc_voting.specs.Tails.{VotesAreInPlace};
ghost use Rattle.arc_voting.specs.Turn.{IsTurn, Turn};

use crate::entries::Entries;
use arc_acceptor::{Turned, answer_tail};
use arc_bytes::Memory;
use arc_data::Message;
use std::alloc::Global;

/// What the table says of a message behind these entries, by a look at those alone that stand behind the last closed slot.
pub(crate) fn turn_behind(
    alloc: Global,
    entries: &Entries,
    message: &Message,
) -> Result<Turned, Memory>
    requires learnable { IsLearnable message.now }
    requires in_place { VotesAreInPlace entries.now }
    ensures table { IfOk result (λ turned. IsTurn entries.now message.now (turn_in turned)) }
    ensures memory { OnErr result ((turn : Turn) → IsTurn entries.now message.now turn → CopiesCommand turn) }
{
    answer_tail(
        alloc,
        entries.closed_len(),
        entries.promise(),
        entries.applied_at(slot_of(message)),
        entries.tail(),
        message,
    )
}

/// The slot that a message speaks of.
fn slot_of(message: &Message) -> u32
    ensures { result ≡ slot_of message.now }
{
    match message {
        Message::Status { slot } => *slot,
        Message::Prepare { slot, .. } => *slot,
        Message::Accept { slot, .. } => *slot,
        Message::Learn { slot, .. } => *slot,
    }
}
