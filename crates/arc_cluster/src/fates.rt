//! The fates of exchanges, and what they make of mail, of answers and of who is in.
ghost use Rattle.std.specs.Prelude.{ℕ, ◌≡◌, ◌<◌, OnOk, OnErr};
ghost use Rattle.arc_bytes.specs.Five.{at};
ghost use Rattle.arc_cluster.specs.Fates.{AreFates, IsAskedOf, IsPartOfCopies, coming, is_asked, keeps_copies, meets_trouble, reaching, stays_in, with_copies};
ghost use Rattle.arc_cluster.specs.Handling.{lent_to};
ghost use Rattle.arc_cluster.specs.Work.{IsSameWork};

use crate::held::Held;
use crate::work::Work;
use arc_bytes::{Five, Memory};
use arc_courier::{Courier, Fate};
use arc_data::{Answer, Message};
use std::alloc::Global;

/// Asks the courier what becomes of the exchange with each peer that has mail, from node 0 on. The endpoint's fate isn't asked.
pub(crate) fn ask_fates<C: Courier>(
    courier: &mut C,
    endpoint: u8,
    mail: &Five<&[Message]>,
) -> Five<Option<Fate>>
    ensures { AreFates C.troubles C.asked C.is_silent courier.old courier.new endpoint (lent_to mail.now) result }
{
    Five {
        d0: ask_fate(courier, endpoint, 0, mail.d0),
        d1: ask_fate(courier, endpoint, 1, mail.d1),
        d2: ask_fate(courier, endpoint, 2, mail.d2),
        d3: ask_fate(courier, endpoint, 3, mail.d3),
        d4: ask_fate(courier, endpoint, 4, mail.d4),
    }
}

/// Asks the courier what becomes of the exchange with a peer, where it has mail and isn't the endpoint.
fn ask_fate<C: Courier>(courier: &mut C, endpoint: u8, peer: u8, mail: &[Message]) -> Option<Fate>
    requires { peer < 5 }
    ensures { IsAskedOf C.troubles C.asked C.is_silent courier.old courier.new peer (is_asked endpoint peer mail.now) result }
{
    if mail.is_empty() || peer == endpoint {
        return None;
    }
    Some(courier.fate(peer))
}

/// Holds copies of the mail that comes later, and of that which comes twice, in the order of its receivers.
pub(crate) fn keep_copies(
    alloc: Global,
    held: &mut Held,
    fates: &Five<Option<Fate>>,
    mail: &Five<&[Message]>,
) -> Result<(), Memory>
    ensures held { OnOk result (held.new.envelopes.items
        ≡ with_copies held.old.envelopes.items fates.now (lent_to mail.now) 5) }
    ensures memory { OnErr result (IsPartOfCopies held.old.envelopes.items held.new.envelopes.items fates.now (lent_to mail.now)) }
{
    for peer in 0..5u8 {
        if are_kept(*fates.get(peer)) {
            held.hold_copies(alloc, peer, mail_to(mail, peer))?;
        }
    }
    Ok(())
}

/// The messages to this node.
fn mail_to<'m>(mail: &Five<&'m [Message]>, node: u8) -> &'m [Message]
    requires { node < 5 }
    ensures { result.now ≡ lent_to mail.now node }
{
    *mail.get(node)
}

/// Whether copies of the messages are held.
fn are_kept(fate: Option<Fate>) -> bool
    ensures { result ≡ keeps_copies fate }
{
    matches!(fate, Some(Fate::Later | Fate::Both))
}

/// The mail without what comes later.
pub(crate) fn withdraw_all<'m>(
    fates: &Five<Option<Fate>>,
    mail: &Five<&'m [Message]>,
) -> Five<&'m [Message]>
    ensures { (node : ℕ) → node < 5 → lent_to result node ≡ reaching (at fates.now node) (lent_to mail.now node) }
{
    Five {
        d0: withdraw(fates.d0, mail.d0),
        d1: withdraw(fates.d1, mail.d1),
        d2: withdraw(fates.d2, mail.d2),
        d3: withdraw(fates.d3, mail.d3),
        d4: withdraw(fates.d4, mail.d4),
    }
}

/// The messages, or none where they come later.
fn withdraw(fate: Option<Fate>, mail: &[Message]) -> &[Message]
    ensures { result.now ≡ reaching fate mail.now }
{
    match fate {
        Some(Fate::Later) => &[],
        _ => mail,
    }
}

/// Takes out the answers that don't come, and leaves the peers out whose answers don't.
pub(crate) fn settle_all(
    work: &mut Work,
    fates: &Five<Option<Fate>>,
    answers: &mut Five<Option<Answer>>,
)
    ensures same { IsSameWork work.old work.new }
    ensures lengths { work.new.lengths ≡ work.old.lengths }
    ensures answers { (node : ℕ) → node < 5 → at answers.new node ≡ coming (at fates.now node) (at answers.old node) }
    ensures peers { (node : ℕ) → node < 5 →
        at work.new.peers node ≡ stays_in (at fates.now node) (at answers.old node) (at work.old.peers node) }
{
    settle(fates.d0, &mut work.peers.d0, &mut answers.d0);
    settle(fates.d1, &mut work.peers.d1, &mut answers.d1);
    settle(fates.d2, &mut work.peers.d2, &mut answers.d2);
    settle(fates.d3, &mut work.peers.d3, &mut answers.d3);
    settle(fates.d4, &mut work.peers.d4, &mut answers.d4);
}

/// Takes out an answer that doesn't come, and leaves a peer out whose answer doesn't.
fn settle(fate: Option<Fate>, is_in: &mut bool, answer: &mut Option<Answer>)
    ensures answer { answer.new ≡ coming fate answer.old }
    ensures is_in { is_in.new ≡ stays_in fate answer.old is_in.old }
{
    let Some(fate) = fate else {
        return;
    };
    if is_lost(fate) {
        drop(answer.take());
    }
    *is_in = *is_in && answer.is_some();
}

/// Whether no answer comes.
fn is_lost(fate: Fate) -> bool
    ensures { result ≡ meets_trouble (Some fate) }
{
    matches!(fate, Fate::Later | Fate::Mute)
}
