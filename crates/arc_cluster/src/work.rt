//! What an attempt works with.
ghost use Rattle.std.specs.Prelude.{ℕ, ◌≡◌, ◌<◌, ◌==◌, ◌||◌, ◌↔◌, true, [], ◌∷◌, ◌++◌, OnOk, if◌then◌else◌};
ghost use Rattle.arc_bytes.specs.Five.{at};
ghost use Rattle.arc_cluster.specs.Asking.{HasNoMail, is_behind};
ghost use Rattle.arc_cluster.specs.Attempts.{has_digit};
ghost use Rattle.arc_cluster.specs.Handling.{lent_to, mail_of};
ghost use Rattle.arc_cluster.specs.Work.{TakesPart, is_for};

use crate::Tally;
use arc_bytes::{Five, Memory};
use arc_data::Message;
use std::alloc::Global;
use std::slice;

/// The endpoint and the slot of an attempt, and its peers.
#[derive(Drop)]
pub(crate) struct Work {
    pub endpoint: u8,
    pub slot: u32,
    /// The peers that are in the attempt: up, and with an answer to every exchange so far.
    pub peers: Five<bool>,
    /// The closed length of each peer that is in.
    pub lengths: Five<u32>,
}

impl Work {
    /// Whether a peer that is in lacks a command below the slot.
    pub(crate) fn lacks(&self) -> bool
        ensures { result ≡ is_behind self.now 0 || is_behind self.now 1 || is_behind self.now 2 || is_behind self.now 3 || is_behind self.now 4 }
    {
        self.is_behind(0)
            || self.is_behind(1)
            || self.is_behind(2)
            || self.is_behind(3)
            || self.is_behind(4)
    }

    /// Whether this peer is in and lacks a command below the slot.
    pub(crate) fn is_behind(&self, peer: u8) -> bool
        requires { peer < 5 }
        ensures { result ≡ is_behind self.now peer }
    {
        *self.peers.get(peer) && *self.lengths.get(peer) < self.slot
    }

    /// The nodes to which a message goes: the peers that are in, and the endpoint where it is to have it.
    pub(crate) fn receivers(&self, own_too: bool) -> Five<bool>
        ensures { (node : ℕ) → node < 5 → at result node ≡ is_for self.now own_too node }
    {
        let own = alone(self.endpoint);
        Five {
            d0: self.peers.d0 || (own_too && own.d0),
            d1: self.peers.d1 || (own_too && own.d1),
            d2: self.peers.d2 || (own_too && own.d2),
            d3: self.peers.d3 || (own_too && own.d3),
            d4: self.peers.d4 || (own_too && own.d4),
        }
    }

    /// The slot, with the nodes that take part: the endpoint, and the peers that are in.
    pub(crate) fn tally(&self) -> Tally
        ensures slot { result.slot ≡ self.now.slot }
        ensures five { result.clear < 32 }
        ensures clear { (node : ℕ) → node < 5 → (has_digit result.clear node ≡ true) ↔ TakesPart self.now node }
    {
        Tally {
            slot: self.slot,
            clear: digits_of(&self.receivers(true)),
        }
    }
}

/// A number whose binary digits say of which of five it holds, that of node 0 last.
fn digits_of(holds: &Five<bool>) -> u8
    ensures five { result < 32 }
    ensures digits { (node : ℕ) → node < 5 → has_digit result node ≡ at holds.now node }
{
    value_of(holds.d0, 1)
        + value_of(holds.d1, 2)
        + value_of(holds.d2, 4)
        + value_of(holds.d3, 8)
        + value_of(holds.d4, 16)
}

/// The value of a digit that is set, or 0.
fn value_of(is_set: bool, value: u8) -> u8
    ensures { result ≡ (if is_set then value else 0) }
{
    if is_set { value } else { 0 }
}

/// Which of the five is this node.
pub(crate) fn alone(node: u8) -> Five<bool>
    ensures { (n : ℕ) → n < 5 → at result n ≡ (n == node) }
{
    Five {
        d0: node == 0,
        d1: node == 1,
        d2: node == 2,
        d3: node == 3,
        d4: node == 4,
    }
}

/// No messages.
pub(crate) fn no_mail(alloc: Global) -> Five<Vec<Message>>
    ensures { HasNoMail result }
{
    Five {
        d0: Vec::new(alloc),
        d1: Vec::new(alloc),
        d2: Vec::new(alloc),
        d3: Vec::new(alloc),
        d4: Vec::new(alloc),
    }
}

/// Puts a message into a node's mail.
pub(crate) fn put(mail: &mut Vec<Message>, message: Message) -> Result<(), Memory>
    ensures { OnOk result (mail.new.items ≡ mail.old.items ++ message ∷ []) }
{
    match mail.push(message) {
        Ok(()) => Ok(()),
        Err(lost) => {
            drop(lost);
            Err(Memory)
        }
    }
}

/// Lends each node its mail.
pub(crate) fn lend_mail(mail: &Five<Vec<Message>>) -> Five<&[Message]>
    ensures { lent_to result ≡ mail_of mail.now }
{
    Five {
        d0: &mail.d0,
        d1: &mail.d1,
        d2: &mail.d2,
        d3: &mail.d3,
        d4: &mail.d4,
    }
}

/// Lends the message to each node to which it goes.
pub(crate) fn lend_message<'m>(to: &Five<bool>, message: &'m Message) -> Five<&'m [Message]>
    ensures { (node : ℕ) → node < 5 → lent_to result node ≡ (if at to.now node then message.now ∷ [] else []) }
{
    Five {
        d0: lend(to.d0, message),
        d1: lend(to.d1, message),
        d2: lend(to.d2, message),
        d3: lend(to.d3, message),
        d4: lend(to.d4, message),
    }
}

/// Lends the message to a node, where it goes to that node.
fn lend(is_for: bool, message: &Message) -> &[Message]
    ensures { result.now ≡ (if is_for then message.now ∷ [] else []) }
{
    if !is_for {
        return &[];
    }
    slice::from_ref(message)
}
