//! An attempt: an endpoint tries to give a command the next slot of its list.
ghost use Rattle.std.specs.Prelude.{ℕ, ◌≡◌, ◌≢◌, ◌<◌, ◌+◌, ◌⊎◌, true, if◌then◌else◌};
ghost use Rattle.arc_bytes.specs.Five.{at};
ghost use Rattle.arc_data.specs.Entries.{closed_len, promise};
ghost use Rattle.arc_data.specs.Valid.{IsValidCommand};
ghost use Rattle.arc_node.specs.Node.{is_up, kept, slots_in};
ghost use Rattle.arc_proposer.specs.Laws.{HasMajority};
ghost use Rattle.arc_proposer.specs.Proposing.{HasNoneCounted, begun, proposed_by};
ghost use Rattle.arc_cluster.specs.declared.attempt.Attempt.TheVariants.{Placed, Other, NodeDown};
ghost use Rattle.arc_cluster.specs.declared.attempt.Attempt.TheVariants as ends;
ghost use Rattle.arc_cluster.specs.Attempts.{EndsAttempt, GivesAtMost, IsFullExactly, MetTroubleOnce, StaysSilent, is_peer, most_asked};
ghost use Rattle.arc_cluster.specs.Cluster.{IsInOrder};
ghost use Rattle.arc_cluster.specs.Coming.{ClosesFrom, Ended, EndsFrom, asks_left, asks_left_to_tell};
ghost use Rattle.arc_cluster.specs.Onward.{AsksAtMost, ClusterGoesOn};
ghost use Rattle.arc_cluster.specs.Phases.{AreLevel, ArePromised, HasClosed, IsProposerOf, IsShown, IsVotedForGood, KnowsLengths, MayBeAttempted};
ghost use Rattle.arc_cluster.specs.Work.{HasPeers, IsUnderWay};

use crate::balloting::Votes;
use crate::work::Work;
use crate::{Attempt, Cluster};
use arc_bytes::{Five, Memory};
use arc_courier::Courier;
use arc_data::{Command, Equals};
use arc_disk::Disk;
use arc_proposer::Proposer;
use std::alloc::Global;

impl<D: Disk, C: Courier + Drop> Cluster<D, C> {
    /// Lets a node try to give a command the next slot of its list, and says how that ended.
    pub fn attempt(&mut self, alloc: Global, node: u8, c: &Command) -> Attempt
        requires of_five { node < 5 }
        requires in_order { IsInOrder D.tells D.content D.may_leave self.old }
        requires valid { IsValidCommand c.now }
        requires may { is_up (at self.old.nodes node) ≡ true → MayBeAttempted self.old.nodes node c.now }
        ensures in_order { IsInOrder D.tells D.content D.may_leave self.new }
        ensures go_on { ClusterGoesOn D.faults D.stops_in D.is_tame C.troubles C.is_silent (λ d. d ≡ c.now) self.old self.new }
        ensures ends { EndsAttempt D.faults C.troubles self.old self.new node c.now result }
        ensures full { IsFullExactly self.old node result }
        ensures silent { StaysSilent C.is_silent self.old self.new node c.now result }
        ensures asked { AsksAtMost (C.asked self.old.courier) (C.asked self.new.courier) (most_asked self.old.nodes node) }
        ensures once { MetTroubleOnce C.troubles self.old.courier self.new.courier }
        ensures bounds { GivesAtMost 1 2 self.old.nodes self.new.nodes }
    {
        let own = self.nodes.get(node);
        let slot = own.applied_len();
        if slot == own.max_slots() {
            return Attempt::ListFull { length: slot };
        }
        if !own.is_up() {
            return Attempt::NodeDown { node };
        }
        let promise = own.promise();
        let Ok(copy) = c.copy(alloc) else {
            return Attempt::Memory;
        };
        self.attempt_up(
            alloc,
            node,
            slot,
            Proposer::begin(node, slot, copy, promise),
            c,
        )
    }

    /// The attempt of an up node whose list isn't full, with the proposer of its own command.
    fn attempt_up(
        &mut self,
        alloc: Global,
        node: u8,
        slot: u32,
        proposer: Proposer,
        c: &Command,
    ) -> Attempt
        requires of_five { node < 5 }
        requires in_order { IsInOrder D.tells D.content D.may_leave self.old }
        requires up { is_up (at self.old.nodes node) ≡ true }
        requires slot { slot ≡ closed_len (kept (at self.old.nodes node)) }
        requires room { slot ≢ slots_in (at self.old.nodes node) }
        requires proposer { proposer ≡ begun node slot c.now (promise (kept (at self.old.nodes node))) }
        requires own { MayBeAttempted self.old.nodes node c.now }
        ensures in_order { IsInOrder D.tells D.content D.may_leave self.new }
        ensures ended { Ended D.faults D.stops_in D.is_tame C.troubles C.is_silent C.asked self.old self.new node c.now result }
        ensures bounds { GivesAtMost 1 2 self.old.nodes self.new.nodes }
    {
        let mut proposer = proposer;
        let mut work = self.begin(node, slot);
        let end = self.attempt_at(alloc, &mut work, &mut proposer, c);
        drop(proposer);
        end
    }

    /// The work of an attempt: all other nodes that are up are in.
    fn begin(&self, endpoint: u8, slot: u32) -> Work
        requires of_five { endpoint < 5 }
        ensures endpoint { result.endpoint ≡ endpoint }
        ensures slot { result.slot ≡ slot }
        ensures peers { (node : ℕ) → node < 5 → at result.peers node ≡ is_peer self.now.nodes endpoint node }
    {
        Work {
            endpoint,
            slot,
            peers: Five {
                d0: endpoint != 0 && self.nodes.d0.is_up(),
                d1: endpoint != 1 && self.nodes.d1.is_up(),
                d2: endpoint != 2 && self.nodes.d2.is_up(),
                d3: endpoint != 3 && self.nodes.d3.is_up(),
                d4: endpoint != 4 && self.nodes.d4.is_up(),
            },
            lengths: Five {
                d0: slot,
                d1: slot,
                d2: slot,
                d3: slot,
                d4: slot,
            },
        }
    }

    /// The phases of an attempt. Where a peer knows the command at the slot, the endpoint learns that, and it ends there.
    fn attempt_at(
        &mut self,
        alloc: Global,
        work: &mut Work,
        proposer: &mut Proposer,
        c: &Command,
    ) -> Attempt
        requires in_order { IsInOrder D.tells D.content D.may_leave self.old }
        requires under_way { IsUnderWay self.old.nodes work.old }
        requires peers { (node : ℕ) → node < 5 → at work.old.peers node ≡ is_peer self.old.nodes work.old.endpoint node }
        requires proposer { IsProposerOf proposer.old work.old c.now }
        requires none { HasNoneCounted proposer.old }
        requires begun { proposer.old.shown ≡ promise (kept (at self.old.nodes work.old.endpoint)) }
        requires own { MayBeAttempted self.old.nodes work.old.endpoint c.now }
        ensures in_order { IsInOrder D.tells D.content D.may_leave self.new }
        ensures ended { Ended D.faults D.stops_in D.is_tame C.troubles C.is_silent C.asked self.old self.new work.old.endpoint c.now result }
        ensures bounds { GivesAtMost 1 2 self.old.nodes self.new.nodes }
    {
        let endpoint = work.endpoint;
        match self.ask(alloc, work, proposer) {
            Ok(Some(known)) => {
                let end = self.close_known(alloc, work, &known, c);
                drop(known);
                end
            }
            Ok(None) => self.catch_up(alloc, work, proposer, c),
            Err(Memory) => self.wanting(endpoint),
        }
    }

    /// Lets the endpoint learn the command that a peer knows at the slot.
    fn close_known(&mut self, alloc: Global, work: &Work, command: &Command, c: &Command) -> Attempt
        requires in_order { IsInOrder D.tells D.content D.may_leave self.old }
        requires under_way { IsUnderWay self.old.nodes work.now }
        requires valid { IsValidCommand command.now }
        requires chosen { IsVotedForGood self.old.nodes work.now.slot command.now }
        ensures in_order { IsInOrder D.tells D.content D.may_leave self.new }
        ensures ends { ClosesFrom D.faults D.stops_in D.is_tame C.troubles C.is_silent C.asked self.old self.new work.now c.now command.now
            (asks_left 0 work.now) result }
        ensures bounds { GivesAtMost 0 0 self.old.nodes self.new.nodes }
    {
        match self.learn_own(alloc, work, command) {
            Ok(true) => placed(work.slot, command, c),
            Ok(false) => Attempt::NodeDown {
                node: work.endpoint,
            },
            Err(Memory) => self.wanting(work.endpoint),
        }
    }

    /// Phases 2 to 7: tells the peers what they lack, and goes on to the ballot.
    fn catch_up(
        &mut self,
        alloc: Global,
        work: &mut Work,
        proposer: &mut Proposer,
        c: &Command,
    ) -> Attempt
        requires in_order { IsInOrder D.tells D.content D.may_leave self.old }
        requires under_way { IsUnderWay self.old.nodes work.old }
        requires lengths { KnowsLengths self.old.nodes work.old }
        requires shown { IsShown self.old.nodes work.old proposer.old.shown }
        requires proposer { IsProposerOf proposer.old work.old c.now }
        requires none { HasNoneCounted proposer.old }
        requires own { MayBeAttempted self.old.nodes work.old.endpoint c.now }
        ensures in_order { IsInOrder D.tells D.content D.may_leave self.new }
        ensures ends { EndsFrom D.faults D.stops_in D.is_tame C.troubles C.is_silent C.asked self.old self.new work.old c.now
            proposer.old.shown (asks_left_to_tell work.old) result }
        ensures bounds { GivesAtMost 1 2 self.old.nodes self.new.nodes }
    {
        let endpoint = work.endpoint;
        match self.catch_up_peers(alloc, work) {
            Ok(()) => self.ballot(alloc, work, proposer, c),
            Err(Memory) => self.wanting(endpoint),
        }
    }

    /// Phases 3 to 7: asks for promises, and goes on to the proposal.
    fn ballot(
        &mut self,
        alloc: Global,
        work: &mut Work,
        proposer: &mut Proposer,
        c: &Command,
    ) -> Attempt
        requires in_order { IsInOrder D.tells D.content D.may_leave self.old }
        requires under_way { IsUnderWay self.old.nodes work.old }
        requires level { AreLevel self.old.nodes work.old }
        requires shown { IsShown self.old.nodes work.old proposer.old.shown }
        requires proposer { IsProposerOf proposer.old work.old c.now }
        requires none { HasNoneCounted proposer.old }
        requires own { MayBeAttempted self.old.nodes work.old.endpoint c.now }
        ensures in_order { IsInOrder D.tells D.content D.may_leave self.new }
        ensures ends { EndsFrom D.faults D.stops_in D.is_tame C.troubles C.is_silent C.asked self.old self.new work.old c.now
            proposer.old.shown (asks_left 3 work.old) result }
        ensures bounds { GivesAtMost 1 2 self.old.nodes self.new.nodes }
    {
        let endpoint = work.endpoint;
        match self.prepare(alloc, work, proposer) {
            Ok(true) => self.propose(alloc, work, proposer, c),
            Ok(false) => Attempt::NodeDown { node: endpoint },
            Err(Memory) => self.wanting(endpoint),
        }
    }

    /// Phases 4 to 7: proposes what the promises leave to be proposed. With fewer than three of them the attempt is disturbed.
    fn propose(
        &mut self,
        alloc: Global,
        work: &mut Work,
        proposer: &mut Proposer,
        c: &Command,
    ) -> Attempt
        requires in_order { IsInOrder D.tells D.content D.may_leave self.old }
        requires under_way { IsUnderWay self.old.nodes work.old }
        requires promised { ArePromised self.old.nodes work.old proposer.old }
        requires proposer { IsProposerOf proposer.old work.old c.now }
        requires own { MayBeAttempted self.old.nodes work.old.endpoint c.now }
        ensures in_order { IsInOrder D.tells D.content D.may_leave self.new }
        ensures ends { EndsFrom D.faults D.stops_in D.is_tame C.troubles C.is_silent C.asked self.old self.new work.old c.now
            proposer.old.shown (asks_left 2 work.old) result }
        ensures bounds { GivesAtMost 0 2 self.old.nodes self.new.nodes }
    {
        let Some(proposal) = proposer.proposal() else {
            return Attempt::Disturbed {
                tally: work.tally(),
            };
        };
        let Ok(proposal) = proposal.copy(alloc) else {
            return Attempt::Memory;
        };
        let end = self.poll(alloc, work, proposer, &proposal, c);
        drop(proposal);
        end
    }

    /// Asks for votes for the proposal. Where three nodes voted, the slot is closed with it; else the attempt is disturbed.
    fn poll(
        &mut self,
        alloc: Global,
        work: &mut Work,
        proposer: &mut Proposer,
        proposal: &Command,
        c: &Command,
    ) -> Attempt
        requires in_order { IsInOrder D.tells D.content D.may_leave self.old }
        requires under_way { IsUnderWay self.old.nodes work.old }
        requires promised { ArePromised self.old.nodes work.old proposer.old }
        requires majority { HasMajority proposer.old }
        requires proposal { proposal.now ≡ proposed_by proposer.old }
        requires valid { IsValidCommand proposal.now }
        requires proposer { IsProposerOf proposer.old work.old c.now }
        requires own { MayBeAttempted self.old.nodes work.old.endpoint c.now }
        ensures in_order { IsInOrder D.tells D.content D.may_leave self.new }
        ensures ends { EndsFrom D.faults D.stops_in D.is_tame C.troubles C.is_silent C.asked self.old self.new work.old c.now
            proposer.old.shown (asks_left 2 work.old) result }
        ensures bounds { GivesAtMost 0 2 self.old.nodes self.new.nodes }
    {
        let endpoint = work.endpoint;
        match self.vote(alloc, work, proposer, proposal) {
            Ok(Votes::Chosen) => self.close(alloc, work, proposal, c),
            Ok(Votes::TooFew) => Attempt::Disturbed {
                tally: work.tally(),
            },
            Ok(Votes::Fallen) => Attempt::NodeDown { node: endpoint },
            Err(Memory) => self.wanting(endpoint),
        }
    }

    /// Phases 6 and 7: lets the endpoint close its slot with the command that is chosen there, and tells the peers.
    fn close(&mut self, alloc: Global, work: &mut Work, command: &Command, c: &Command) -> Attempt
        requires in_order { IsInOrder D.tells D.content D.may_leave self.old }
        requires under_way { IsUnderWay self.old.nodes work.old }
        requires valid { IsValidCommand command.now }
        requires chosen { IsVotedForGood self.old.nodes work.old.slot command.now }
        ensures in_order { IsInOrder D.tells D.content D.may_leave self.new }
        ensures ends { ClosesFrom D.faults D.stops_in D.is_tame C.troubles C.is_silent C.asked self.old self.new work.old c.now command.now
            (asks_left 1 work.old) result }
        ensures bounds { GivesAtMost 0 0 self.old.nodes self.new.nodes }
    {
        match self.learn_own(alloc, work, command) {
            Ok(true) => self.tell_peers(alloc, work, command, c),
            Ok(false) => Attempt::NodeDown {
                node: work.endpoint,
            },
            Err(Memory) => self.wanting(work.endpoint),
        }
    }

    /// Phase 7, once the endpoint has closed its slot. Where memory is wanting, a peer learns of it by a later attempt.
    fn tell_peers(
        &mut self,
        alloc: Global,
        work: &mut Work,
        command: &Command,
        c: &Command,
    ) -> Attempt
        requires in_order { IsInOrder D.tells D.content D.may_leave self.old }
        requires closed { HasClosed (at self.old.nodes work.old.endpoint) work.old.slot command.now }
        requires length { closed_len (kept (at self.old.nodes work.old.endpoint)) ≡ work.old.slot + 1 }
        requires peers { HasPeers self.old.nodes work.old }
        requires valid { IsValidCommand command.now }
        requires chosen { IsVotedForGood self.old.nodes work.old.slot command.now }
        ensures in_order { IsInOrder D.tells D.content D.may_leave self.new }
        ensures ends { ClosesFrom D.faults D.stops_in D.is_tame C.troubles C.is_silent C.asked self.old self.new work.old c.now command.now
            (asks_left 1 work.old) result }
        ensures bounds { GivesAtMost 0 0 self.old.nodes self.new.nodes }
    {
        let slot = work.slot;
        let _ = self.tell_chosen(alloc, work, command);
        placed(slot, command, c)
    }

    /// How an attempt ends in want of memory: so, unless the endpoint's node went down before.
    fn wanting(&self, node: u8) -> Attempt
        requires of_five { node < 5 }
        ensures { result ≡ (if is_up (at self.now.nodes node) then ends.Memory else NodeDown node) }
    {
        if self.nodes.get(node).is_up() {
            Attempt::Memory
        } else {
            Attempt::NodeDown { node }
        }
    }
}

/// How an attempt ends that closed this slot with the first command.
fn placed(slot: u32, command: &Command, c: &Command) -> Attempt
    ensures { ((command.now ≡ c.now) × (result ≡ Placed slot)) ⊎ ((command.now ≢ c.now) × (result ≡ Other slot)) }
{
    if command.equals(c) {
        Attempt::Placed { slot }
    } else {
        Attempt::Other { slot }
    }
}
