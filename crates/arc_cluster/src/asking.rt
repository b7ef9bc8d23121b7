//! The first phases of an attempt: how far the peers have come, and what they lack.
ghost use Rattle.std.specs.Prelude.{ℕ, ◌≡◌, ◌≤◌, ◌<◌, ◌+◌, ◌-◌, ◌/◌, false, Ok, None, Some, OnOk, IfOk, IfSome, IfNone, if◌then◌else◌};
ghost use Rattle.arc_bytes.specs.Five.{at};
ghost use Rattle.arc_data.specs.Entries.{promise};
ghost use Rattle.arc_node.specs.Node.{kept};
ghost use Rattle.arc_proposer.specs.Proposing.{HasNoneCounted};
ghost use Rattle.arc_cluster.specs.Asking.{HasFewerLeft, is_behind};
ghost use Rattle.arc_cluster.specs.Attempts.{GivesNone};
ghost use Rattle.arc_cluster.specs.Cluster.{IsInOrder};
ghost use Rattle.arc_cluster.specs.Onward.{AsksAtMost, ClusterGoesOn};
ghost use Rattle.arc_cluster.specs.Phases.{AreLevel, IsKnown, IsProposerOf, IsShown, KnowsLengths};
ghost use Rattle.arc_cluster.specs.Work.{IsUnderWay, MeetOnce, PeersGoOn};

use crate::Cluster;
use crate::handling::no_answers;
use crate::noting::{note_lengths, note_statuses};
use crate::telling::tell_peers;
use crate::work::{Work, lend_mail, no_mail};
use arc_bytes::Memory;
use arc_courier::Courier;
use arc_data::{Command, Message};
use arc_disk::Disk;
use arc_proposer::Proposer;
use std::alloc::Global;

impl<D: Disk, C: Courier + Drop> Cluster<D, C> {
    /// Phase 1: asks the peers how far they have come. Gives the command that the least of them knows at the slot, if one does.
    pub(crate) fn ask(
        &mut self,
        alloc: Global,
        work: &mut Work,
        proposer: &mut Proposer,
    ) -> Result<Option<Command>, Memory>
        requires in_order { IsInOrder D.tells D.content D.may_leave self.old }
        requires under_way { IsUnderWay self.old.nodes work.old }
        requires proposer { IsProposerOf proposer.old work.old proposer.old.own }
        requires none { HasNoneCounted proposer.old }
        requires begun { proposer.old.shown ≡ promise (kept (at self.old.nodes work.old.endpoint)) }
        ensures in_order { IsInOrder D.tells D.content D.may_leave self.new }
        ensures go_on { ClusterGoesOn D.faults D.stops_in D.is_tame C.troubles C.is_silent (λ c. ⊥) self.old self.new }
        ensures go_on_in { OnOk result (PeersGoOn C.troubles self.old self.new work.old work.new) }
        ensures under_way { OnOk result (IsUnderWay self.new.nodes work.new) }
        // A status appends nothing anywhere.
        ensures lists { (node : ℕ) → node < 5 → kept (at self.new.nodes node) ≡ kept (at self.old.nodes node) }
        ensures known { IfOk result (λ known. IfSome known (λ c. IsKnown self.new.nodes work.new c)) }
        // Where no peer knows a command there, it is known how far each has come, and which ballots were shown.
        ensures lengths { result ≡ Ok None → KnowsLengths self.new.nodes work.new }
        ensures shown { result ≡ Ok None → IsShown self.new.nodes work.new proposer.new.shown }
        ensures proposer { IsProposerOf proposer.new work.old proposer.old.own }
        ensures none { HasNoneCounted proposer.new }
        ensures silent { OnOk result ((peer : ℕ) → peer < 5 → C.is_silent self.old.courier peer → at work.new.peers peer ≡ false) }
        ensures meets { MeetOnce C.troubles self.old.courier self.new.courier work.old }
        ensures asked { AsksAtMost (C.asked self.old.courier) (C.asked self.new.courier) (λ peer. if at work.old.peers peer then 1 else 0) }
    {
        let message = Message::Status { slot: work.slot };
        let mut answers = no_answers();
        let sent = self.send(alloc, work, &message, false, &mut answers);
        drop(message);
        let known = match sent {
            Ok(()) => note_statuses(work, proposer, &mut answers),
            Err(Memory) => {
                drop(answers);
                return Err(Memory);
            }
        };
        drop(answers);
        Ok(known)
    }

    /// Phase 2: tells the peers that are in what they lack below the slot, at most 16 commands in an exchange.
    pub(crate) fn catch_up_peers(&mut self, alloc: Global, work: &mut Work) -> Result<(), Memory>
        requires in_order { IsInOrder D.tells D.content D.may_leave self.old }
        requires under_way { IsUnderWay self.old.nodes work.old }
        requires lengths { KnowsLengths self.old.nodes work.old }
        ensures in_order { IsInOrder D.tells D.content D.may_leave self.new }
        ensures go_on { ClusterGoesOn D.faults D.stops_in D.is_tame C.troubles C.is_silent (λ c. ⊥) self.old self.new }
        ensures go_on_in { OnOk result (PeersGoOn C.troubles self.old self.new work.old work.new) }
        ensures under_way { OnOk result (IsUnderWay self.new.nodes work.new) }
        ensures level { OnOk result (AreLevel self.new.nodes work.new) }
        // What is told is no promise, and no vote; and who isn't in, the endpoint's node among them, is told nothing.
        ensures promises { (node : ℕ) → node < 5 → promise (kept (at self.new.nodes node)) ≡ promise (kept (at self.old.nodes node)) }
        ensures counts { (node : ℕ) → node < 5 → GivesNone (kept (at self.old.nodes node)) (kept (at self.new.nodes node)) }
        ensures others { (node : ℕ) → node < 5 → at work.old.peers node ≡ false → at self.new.nodes node ≡ at self.old.nodes node }
        ensures meets { MeetOnce C.troubles self.old.courier self.new.courier work.old }
        ensures asked { AsksAtMost (C.asked self.old.courier) (C.asked self.new.courier) (λ peer.
            if at work.old.peers peer then (work.old.slot - at work.old.lengths peer + 15) / 16 else 0) }
    {
        while work.lacks() {
            self.catch_up_once(alloc, work)?;
        }
        Ok(())
    }

    /// One exchange with each peer that lacks something.
    fn catch_up_once(&mut self, alloc: Global, work: &mut Work) -> Result<(), Memory>
        requires in_order { IsInOrder D.tells D.content D.may_leave self.old }
        requires under_way { IsUnderWay self.old.nodes work.old }
        requires lengths { KnowsLengths self.old.nodes work.old }
        ensures in_order { IsInOrder D.tells D.content D.may_leave self.new }
        ensures go_on { ClusterGoesOn D.faults D.stops_in D.is_tame C.troubles C.is_silent (λ c. ⊥) self.old self.new }
        ensures go_on_in { OnOk result (PeersGoOn C.troubles self.old self.new work.old work.new) }
        ensures under_way { OnOk result (IsUnderWay self.new.nodes work.new) }
        ensures lengths { OnOk result (KnowsLengths self.new.nodes work.new) }
        ensures promises { (node : ℕ) → node < 5 → promise (kept (at self.new.nodes node)) ≡ promise (kept (at self.old.nodes node)) }
        ensures counts { (node : ℕ) → node < 5 → GivesNone (kept (at self.old.nodes node)) (kept (at self.new.nodes node)) }
        ensures others { (node : ℕ) → node < 5 → at work.old.peers node ≡ false → at self.new.nodes node ≡ at self.old.nodes node }
        ensures meets { MeetOnce C.troubles self.old.courier self.new.courier work.old }
        ensures asked { AsksAtMost (C.asked self.old.courier) (C.asked self.new.courier) (λ peer. if is_behind work.old peer then 1 else 0) }
        ensures fewer { OnOk result (HasFewerLeft work.old work.new) }
    {
        let mut mail = no_mail(alloc);
        match tell_peers(alloc, self.nodes.get(work.endpoint), work, &mut mail) {
            Ok(()) => {}
            Err(Memory) => {
                drop(mail);
                return Err(Memory);
            }
        }
        let mut answers = no_answers();
        let told = self.exchange(alloc, work, &lend_mail(&mail), &mut answers);
        drop(mail);
        match told {
            Ok(()) => note_lengths(work, &answers),
            Err(Memory) => {
                drop(answers);
                return Err(Memory);
            }
        }
        drop(answers);
        Ok(())
    }
}
