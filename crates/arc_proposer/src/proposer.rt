//! The proposer of one ballot.
ghost use Rattle.std.specs.Prelude.{◌≡◌, ◌↔◌, ◌<◌, ◌≤◌, ◌%◌, ◌+◌, ◌^◌, ℕ, IsTrue, IsSome, IfOk, OnOk, OnErr, OnSome, IfNone, IfSome, max};
ghost use Rattle.arc_bytes.specs.Five.{at};
ghost use Rattle.arc_voting.specs.Proposal.{IsProposal};
ghost use Rattle.arc_proposer.specs.Counting.{ByThreeWith};
ghost use Rattle.arc_proposer.specs.Laws.{HasMajority};
ghost use Rattle.arc_proposer.specs.Proposing.{
  begun,
  ballot_of,
  promises_of,
  shown_by,
  with_promise,
  with_vote,
  proposed_by,
  HasNoneCounted,
  CopiesVote,
};

use crate::ballots::least_above;
use crate::highest::{Told, has_majority, highest_told};
use crate::majority::by_three_with;
use arc_bytes::{Five, Memory};
use arc_data::{Answer, Command};
use std::alloc::Global;
use std::marker::Model;

/// An endpoint that wants to place its own command at a slot: what it was shown, promised and voted.
#[derive(Drop)]
pub struct Proposer {
    node: u8,
    slot: u32,
    own: Command,
    shown: u64,
    promises: Five<Told>,
    votes: Five<bool>,
}

impl Model for Proposer {
    ghost use Rattle.std.specs.Prelude.{◌<◌, ◌≤◌, ◌^◌};
    ghost use Rattle.arc_proposer.specs.Proposing.{Proposing};

    ghost Value = { Proposing };

    ghost view = { λ p. record {
      node = p.node;
      slot = p.slot;
      own = p.own;
      shown = p.shown;
      promises = p.promises;
      votes = p.votes;
    } };

    ghost invariant = { λ p. (p.node < 5) × (p.shown ≤ 2 ^ 63) };
}

impl Proposer {
    /// Begins at this node and slot, for its own command. `promise` is the endpoint's promise, at most 2^63.
    pub fn begin(node: u8, slot: u32, own: Command, promise: u64) -> Proposer
        requires of_five { node < 5 }
        requires in_range { promise ≤ 2 ^ 63 }
        ensures { result ≡ begun node slot own promise }
    {
        Proposer {
            node,
            slot,
            own,
            shown: promise,
            promises: Five {
                d0: None,
                d1: None,
                d2: None,
                d3: None,
                d4: None,
            },
            votes: Five {
                d0: false,
                d1: false,
                d2: false,
                d3: false,
                d4: false,
            },
        }
    }

    /// Notes the ballot that a peer's answer to a status shows, at most 2^63. Other answers change nothing. No promise
    /// and no vote counts yet, since the ballot may rise.
    pub fn on_status(&mut self, _peer: u8, a: &Answer)
        requires none_counted { HasNoneCounted self.old }
        requires in_range { shown_by a.now ≤ 2 ^ 63 }
        ensures { self.new ≡ record self.old { shown = max self.old.shown (shown_by a.now) } }
    {
        if let Answer::At { ballot, .. } = a {
            self.shown = self.shown.max(*ballot);
        }
    }

    /// The ballot: the least one of the endpoint's own, those that leave its number as remainder by five, above its
    /// promise and above each that an answer to a status showed.
    pub fn ballot(&self) -> u64
        ensures value { result ≡ ballot_of self.now }
        ensures owner { result % 5 ≡ self.now.node }
        ensures above { self.now.shown < result }
        ensures least { (ballot : ℕ) → ballot % 5 ≡ self.now.node → self.now.shown < ballot → result ≤ ballot }
        ensures near { result ≤ self.now.shown + 5 }
    {
        least_above(self.node, self.shown)
    }

    /// Counts a peer's promise of the slot and the ballot, where it is that peer's first. Any other answer changes
    /// nothing. `Memory` comes only where the promise counts and tells a vote, and nothing has changed then.
    #[tactic(auto, unfolding(crate::specs::Proposing::with_promise))]
    pub fn on_promise(&mut self, alloc: Global, peer: u8, a: &Answer) -> Result<(), Memory>
        requires { peer < 5 }
        ensures ok { OnOk result (self.new ≡ with_promise self.old peer a.now) }
        ensures memory { OnErr result (self.new ≡ self.old) }
        ensures cause { OnErr result (CopiesVote self.old peer a.now) }
    {
        let Answer::Promise { slot, ballot, vote } = a else {
            return Ok(());
        };
        if *slot != self.slot {
            return Ok(());
        }
        if *ballot != least_above(self.node, self.shown) {
            return Ok(());
        }
        if self.promises.get(peer).is_some() {
            return Ok(());
        }
        let Ok(vote) = copy_of(alloc, vote) else {
            return Err(Memory);
        };
        drop(self.promises.get_mut(peer).replace(vote));
        Ok(())
    }

    /// What is to be proposed: the command of the told vote of highest ballot, of equal ones that of the least node, and
    /// the own command where no vote was told. `None` with fewer than three promises, and without the endpoint's.
    pub fn proposal(&self) -> Option<&Command>
        ensures some { OnSome result (HasMajority self.now) }
        ensures none { IfNone result (¬ HasMajority self.now) }
        ensures value { IfSome result (λ c. c.now ≡ proposed_by self.now) }
        ensures lawful { IfSome result (λ c. IsProposal (promises_of self.now) self.now.own c.now) }
    {
        if !has_majority(&self.promises, self.node) {
            return None;
        }
        match highest_told(&self.promises) {
            Some((_, command)) => Some(command),
            None => Some(&self.own),
        }
    }

    /// Counts a peer's vote at the slot and in the ballot. Any other answer changes nothing, nor does a second vote.
    #[tactic(auto, unfolding(crate::specs::Proposing::with_vote))]
    pub fn on_accepted(&mut self, peer: u8, a: &Answer)
        requires { peer < 5 }
        ensures { self.new ≡ with_vote self.old peer a.now }
    {
        let Answer::Accepted {
            slot,
            ballot: voted,
        } = a
        else {
            return;
        };
        if *slot != self.slot {
            return;
        }
        if *voted != least_above(self.node, self.shown) {
            return;
        }
        *self.votes.get_mut(peer) = true;
    }

    /// Whether the proposal was chosen: at least three votes are counted, the endpoint's among them.
    pub fn is_chosen(&self) -> bool
        ensures { IsTrue result ↔ ByThreeWith (λ node. IsTrue (at self.now.votes node)) self.now.node }
    {
        by_three_with(&self.votes, self.node)
    }
}

/// The same told vote again.
fn copy_of(alloc: Global, vote: &Option<(u64, Command)>) -> Result<Option<(u64, Command)>, Memory>
    ensures copy { IfOk result (λ copy. copy ≡ vote.now) }
    ensures memory { OnErr result (IsSome vote.now) }
{
    match vote {
        None => Ok(None),
        Some((ballot, command)) => {
            let Ok(command) = command.copy(alloc) else {
                return Err(Memory);
            };
            Ok(Some((*ballot, command)))
        }
    }
}
