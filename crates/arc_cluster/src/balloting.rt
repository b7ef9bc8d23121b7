//! The later phases of an attempt: promises, votes, and what is chosen.
ghost use Rattle.std.specs.Prelude.{ℕ, IsTrue, ◌≡◌, ◌≢◌, ◌<◌, ◌+◌, Ok, true, false, OnOk, if◌then◌else◌};
ghost use Rattle.arc_bytes.specs.Five.{at};
ghost use Rattle.arc_node.specs.Node.{is_up, kept};
ghost use Rattle.arc_proposer.specs.Counting.{ByThreeWith};
ghost use Rattle.arc_proposer.specs.Laws.{HasMajority};
ghost use Rattle.arc_proposer.specs.Proposing.{HasNoneCounted, proposed_by};
ghost use Rattle.arc_cluster.specs.Attempts.{GivesAtMost};
ghost use Rattle.arc_cluster.specs.Cluster.{IsInOrder};
ghost use Rattle.arc_cluster.specs.Exchange.{AllGrow, AllSent, MayBeSent, sent};
ghost use Rattle.arc_cluster.specs.Handling.{none_of_five};
ghost use Rattle.arc_cluster.specs.Onward.{AsksAtMost, ClusterGoesOn};
ghost use Rattle.arc_cluster.specs.Phases.{AreFew, AreLevel, ArePromised, HasClosed, IsProposerOf, IsShown, IsVotedForGood, MayBeAttempted};
ghost use Rattle.arc_cluster.specs.Voting.{OwnVoteStands, asks_vote};
ghost use Rattle.arc_cluster.specs.Counted.{IsSameBallot};
ghost use Rattle.arc_cluster.specs.Work.{HasPeers, IsSameWork, IsUnderWay, MeetOnce, PeersGoOn, TakesPart};
ghost use Rattle.arc_data.specs.Entries.{closed_len};
ghost use Rattle.arc_data.specs.Valid.{IsValidCommand};
ghost use Rattle.arc_data.specs.declared.message.Message.TheVariants.{Prepare};
ghost use Rattle.arc_voting.specs.Journals.{ByThree};

use crate::Cluster;
use crate::counting::{count_promises, count_votes};
use crate::handling::no_answers;
use crate::work::Work;
use arc_bytes::{Five, Memory};
use arc_courier::Courier;
use arc_data::{Answer, Command, Message};
use arc_disk::Disk;
use arc_proposer::Proposer;
use std::alloc::Global;

/// How the votes for a proposal ended.
#[derive(Clone, Copy)]
pub(crate) enum Votes {
    /// At least three nodes voted for it, the endpoint's among them.
    Chosen,
    /// Fewer did.
    TooFew,
    /// The endpoint's node went down.
    Fallen,
}

impl<D: Disk, C: Courier + Drop> Cluster<D, C> {
    /// Phase 3: asks all that are in, the endpoint's node among them, for a promise. Whether that node is up still.
    pub(crate) fn prepare(
        &mut self,
        alloc: Global,
        work: &mut Work,
        proposer: &mut Proposer,
    ) -> Result<bool, Memory>
        requires in_order { IsInOrder D.tells D.content D.may_leave self.old }
        requires under_way { IsUnderWay self.old.nodes work.old }
        requires level { AreLevel self.old.nodes work.old }
        requires shown { IsShown self.old.nodes work.old proposer.old.shown }
        requires proposer { IsProposerOf proposer.old work.old proposer.old.own }
        requires none { HasNoneCounted proposer.old }
        ensures in_order { IsInOrder D.tells D.content D.may_leave self.new }
        ensures go_on { ClusterGoesOn D.faults D.stops_in D.is_tame C.troubles C.is_silent (λ c. ⊥) self.old self.new }
        ensures go_on_in { OnOk result (PeersGoOn C.troubles self.old self.new work.old work.new) }
        ensures under_way { result ≡ Ok true → IsUnderWay self.new.nodes work.new }
        ensures promised { result ≡ Ok true → ArePromised self.new.nodes work.new proposer.new }
        ensures fallen { result ≡ Ok false → is_up (at self.new.nodes work.old.endpoint) ≡ false }
        ensures proposer { IsProposerOf proposer.new work.old proposer.old.own }
        ensures shown { proposer.new.shown ≡ proposer.old.shown }
        ensures others { (node : ℕ) → node < 5 → node ≢ work.old.endpoint → at work.old.peers node ≡ false →
            at self.new.nodes node ≡ at self.old.nodes node }
        ensures meets { MeetOnce C.troubles self.old.courier self.new.courier work.old }
        ensures asked { AsksAtMost (C.asked self.old.courier) (C.asked self.new.courier) (λ peer. if at work.old.peers peer then 1 else 0) }
        ensures bounds { GivesAtMost 1 0 self.old.nodes self.new.nodes }
    {
        let mut answers = no_answers();
        let prepared = self.prepare_in(alloc, work, proposer, &mut answers);
        drop(answers);
        prepared
    }

    /// Asks for the promises, leaves the answers, and counts them. Whether the endpoint's node is up still.
    fn prepare_in(
        &mut self,
        alloc: Global,
        work: &mut Work,
        proposer: &mut Proposer,
        answers: &mut Five<Option<Answer>>,
    ) -> Result<bool, Memory>
        requires in_order { IsInOrder D.tells D.content D.may_leave self.old }
        requires under_way { IsUnderWay self.old.nodes work.old }
        requires level { AreLevel self.old.nodes work.old }
        requires shown { IsShown self.old.nodes work.old proposer.old.shown }
        requires proposer { IsProposerOf proposer.old work.old proposer.old.own }
        requires none { HasNoneCounted proposer.old }
        requires free { answers.old ≡ none_of_five }
        ensures in_order { IsInOrder D.tells D.content D.may_leave self.new }
        ensures go_on { ClusterGoesOn D.faults D.stops_in D.is_tame C.troubles C.is_silent (λ c. ⊥) self.old self.new }
        ensures go_on_in { OnOk result (PeersGoOn C.troubles self.old self.new work.old work.new) }
        ensures under_way { result ≡ Ok true → IsUnderWay self.new.nodes work.new }
        ensures promised { result ≡ Ok true → ArePromised self.new.nodes work.new proposer.new }
        ensures fallen { result ≡ Ok false → is_up (at self.new.nodes work.old.endpoint) ≡ false }
        ensures proposer { IsProposerOf proposer.new work.old proposer.old.own }
        ensures shown { proposer.new.shown ≡ proposer.old.shown }
        ensures others { (node : ℕ) → node < 5 → node ≢ work.old.endpoint → at work.old.peers node ≡ false →
            at self.new.nodes node ≡ at self.old.nodes node }
        ensures meets { MeetOnce C.troubles self.old.courier self.new.courier work.old }
        ensures asked { AsksAtMost (C.asked self.old.courier) (C.asked self.new.courier) (λ peer. if at work.old.peers peer then 1 else 0) }
        ensures bounds { GivesAtMost 1 0 self.old.nodes self.new.nodes }
    {
        self.ask_promises(alloc, work, proposer.ballot(), answers)?;
        count_promises(alloc, proposer, answers)?;
        Ok(answers.get(work.endpoint).is_some())
    }

    /// Asks all that are in, the endpoint's node among them, for a promise in this ballot.
    fn ask_promises(
        &mut self,
        alloc: Global,
        work: &mut Work,
        ballot: u64,
        answers: &mut Five<Option<Answer>>,
    ) -> Result<(), Memory>
        requires in_order { IsInOrder D.tells D.content D.may_leave self.old }
        requires peers { HasPeers self.old.nodes work.old }
        requires message { MayBeSent self.old.nodes (Prepare work.old.slot ballot) }
        requires none { answers.old ≡ none_of_five }
        ensures in_order { IsInOrder D.tells D.content D.may_leave self.new }
        ensures go_on { ClusterGoesOn D.faults D.stops_in D.is_tame C.troubles C.is_silent (λ c. ⊥) self.old self.new }
        ensures go_on_in { OnOk result (PeersGoOn C.troubles self.old self.new work.old work.new) }
        ensures each { OnOk result (AllSent C.troubles C.is_silent self.old self.new work.old work.new
            (Prepare work.old.slot ballot) true answers.new) }
        ensures grown { AllGrow self.old.nodes self.new.nodes (sent work.old true (Prepare work.old.slot ballot)) }
        ensures bounds { GivesAtMost 1 0 self.old.nodes self.new.nodes }
        ensures same { IsSameWork work.old work.new }
        ensures meets { MeetOnce C.troubles self.old.courier self.new.courier work.old }
        ensures asked { AsksAtMost (C.asked self.old.courier) (C.asked self.new.courier) (λ peer. if at work.old.peers peer then 1 else 0) }
    {
        let message = Message::Prepare {
            slot: work.slot,
            ballot,
        };
        let asked = self.send(alloc, work, &message, true, answers);
        drop(message);
        asked
    }

    /// Phases 4 and 5: asks the endpoint's node alone for its vote, and then the peers that are in.
    pub(crate) fn vote(
        &mut self,
        alloc: Global,
        work: &mut Work,
        proposer: &mut Proposer,
        proposal: &Command,
    ) -> Result<Votes, Memory>
        requires in_order { IsInOrder D.tells D.content D.may_leave self.old }
        requires under_way { IsUnderWay self.old.nodes work.old }
        requires promised { ArePromised self.old.nodes work.old proposer.old }
        requires majority { HasMajority proposer.old }
        requires proposal { proposal.now ≡ proposed_by proposer.old }
        requires valid { IsValidCommand proposal.now }
        requires proposer { IsProposerOf proposer.old work.old proposer.old.own }
        requires own { MayBeAttempted self.old.nodes work.old.endpoint proposer.old.own }
        ensures in_order { IsInOrder D.tells D.content D.may_leave self.new }
        ensures go_on { ClusterGoesOn D.faults D.stops_in D.is_tame C.troubles C.is_silent (λ c. c ≡ proposer.old.own) self.old self.new }
        ensures go_on_in { OnOk result (PeersGoOn C.troubles self.old self.new work.old work.new) }
        ensures chosen { result ≡ Ok Votes.Chosen →
            IsUnderWay self.new.nodes work.new × IsVotedForGood self.new.nodes work.old.slot proposal.now × ByThree (TakesPart work.old) }
        ensures too_few { result ≡ Ok Votes.TooFew → IsUnderWay self.new.nodes work.new × AreFew work.new }
        ensures fallen { result ≡ Ok Votes.Fallen → is_up (at self.new.nodes work.old.endpoint) ≡ false }
        ensures others { (node : ℕ) → node < 5 → node ≢ work.old.endpoint → at work.old.peers node ≡ false →
            at self.new.nodes node ≡ at self.old.nodes node }
        ensures meets { MeetOnce C.troubles self.old.courier self.new.courier work.old }
        ensures asked { AsksAtMost (C.asked self.old.courier) (C.asked self.new.courier) (λ peer. if at work.old.peers peer then 1 else 0) }
        ensures bounds { GivesAtMost 0 2 self.old.nodes self.new.nodes }
    {
        let Ok(command) = proposal.copy(alloc) else {
            return Err(Memory);
        };
        let message = Message::Accept {
            slot: work.slot,
            ballot: proposer.ballot(),
            command,
        };
        let votes = self.vote_by(alloc, work, proposer, &message);
        drop(message);
        votes
    }

    /// Sends the message that asks for the vote to the endpoint's node, and to the peers where that one voted.
    fn vote_by(
        &mut self,
        alloc: Global,
        work: &mut Work,
        proposer: &mut Proposer,
        message: &Message,
    ) -> Result<Votes, Memory>
        requires in_order { IsInOrder D.tells D.content D.may_leave self.old }
        requires under_way { IsUnderWay self.old.nodes work.old }
        requires promised { ArePromised self.old.nodes work.old proposer.old }
        requires majority { HasMajority proposer.old }
        requires message { message.now ≡ asks_vote work.old proposer.old (proposed_by proposer.old) }
        requires valid { IsValidCommand (proposed_by proposer.old) }
        requires proposer { IsProposerOf proposer.old work.old proposer.old.own }
        requires own { MayBeAttempted self.old.nodes work.old.endpoint proposer.old.own }
        ensures in_order { IsInOrder D.tells D.content D.may_leave self.new }
        ensures go_on { ClusterGoesOn D.faults D.stops_in D.is_tame C.troubles C.is_silent (λ c. c ≡ proposer.old.own) self.old self.new }
        ensures go_on_in { OnOk result (PeersGoOn C.troubles self.old self.new work.old work.new) }
        ensures chosen { result ≡ Ok Votes.Chosen →
            IsUnderWay self.new.nodes work.new × IsVotedForGood self.new.nodes work.old.slot (proposed_by proposer.old) × ByThree (TakesPart work.old) }
        ensures too_few { result ≡ Ok Votes.TooFew → IsUnderWay self.new.nodes work.new × AreFew work.new }
        ensures fallen { result ≡ Ok Votes.Fallen → is_up (at self.new.nodes work.old.endpoint) ≡ false }
        ensures others { (node : ℕ) → node < 5 → node ≢ work.old.endpoint → at work.old.peers node ≡ false →
            at self.new.nodes node ≡ at self.old.nodes node }
        ensures meets { MeetOnce C.troubles self.old.courier self.new.courier work.old }
        ensures asked { AsksAtMost (C.asked self.old.courier) (C.asked self.new.courier) (λ peer. if at work.old.peers peer then 1 else 0) }
        ensures bounds { GivesAtMost 0 2 self.old.nodes self.new.nodes }
    {
        match self.vote_own(alloc, work, proposer, message) {
            Ok(true) => self.ask_votes(alloc, work, proposer, message),
            Ok(false) => Ok(Votes::Fallen),
            Err(Memory) => Err(Memory),
        }
    }

    /// Asks the endpoint's node alone for its vote, and counts it. Whether that node is up still.
    fn vote_own(
        &mut self,
        alloc: Global,
        work: &Work,
        proposer: &mut Proposer,
        message: &Message,
    ) -> Result<bool, Memory>
        requires in_order { IsInOrder D.tells D.content D.may_leave self.old }
        requires under_way { IsUnderWay self.old.nodes work.now }
        requires promised { ArePromised self.old.nodes work.now proposer.old }
        requires majority { HasMajority proposer.old }
        requires message { message.now ≡ asks_vote work.now proposer.old (proposed_by proposer.old) }
        requires valid { IsValidCommand (proposed_by proposer.old) }
        requires proposer { IsProposerOf proposer.old work.now proposer.old.own }
        requires own { MayBeAttempted self.old.nodes work.now.endpoint proposer.old.own }
        ensures in_order { IsInOrder D.tells D.content D.may_leave self.new }
        ensures go_on { ClusterGoesOn D.faults D.stops_in D.is_tame C.troubles C.is_silent (λ c. c ≡ proposer.old.own) self.old self.new }
        ensures under_way { result ≡ Ok true → IsUnderWay self.new.nodes work.now }
        ensures stands { result ≡ Ok true → OwnVoteStands self.new.nodes work.now proposer.new (proposed_by proposer.old) }
        ensures fallen { result ≡ Ok false → is_up (at self.new.nodes work.now.endpoint) ≡ false }
        ensures ballot { IsSameBallot proposer.old proposer.new }
        ensures proposal { proposed_by proposer.new ≡ proposed_by proposer.old }
        ensures others { (node : ℕ) → node < 5 → node ≢ work.now.endpoint → at self.new.nodes node ≡ at self.old.nodes node }
        ensures courier { self.new.courier ≡ self.old.courier }
        ensures bounds { GivesAtMost 0 1 self.old.nodes self.new.nodes }
    {
        let mut answers = no_answers();
        let own = self.send_own(alloc, work.endpoint, message, &mut answers);
        count_votes(proposer, &answers);
        let voted = answers.get(work.endpoint).is_some();
        drop(answers);
        match own {
            Ok(()) => Ok(voted),
            Err(Memory) => Err(Memory),
        }
    }

    /// Asks the peers that are in for their votes, and counts these.
    fn ask_votes(
        &mut self,
        alloc: Global,
        work: &mut Work,
        proposer: &mut Proposer,
        message: &Message,
    ) -> Result<Votes, Memory>
        requires in_order { IsInOrder D.tells D.content D.may_leave self.old }
        requires under_way { IsUnderWay self.old.nodes work.old }
        requires stands { OwnVoteStands self.old.nodes work.old proposer.old (proposed_by proposer.old) }
        requires message { message.now ≡ asks_vote work.old proposer.old (proposed_by proposer.old) }
        requires valid { IsValidCommand (proposed_by proposer.old) }
        requires proposer { IsProposerOf proposer.old work.old proposer.old.own }
        ensures in_order { IsInOrder D.tells D.content D.may_leave self.new }
        ensures go_on { ClusterGoesOn D.faults D.stops_in D.is_tame C.troubles C.is_silent (λ c. ⊥) self.old self.new }
        ensures go_on_in { OnOk result (PeersGoOn C.troubles self.old self.new work.old work.new) }
        ensures chosen { result ≡ Ok Votes.Chosen →
            IsUnderWay self.new.nodes work.new × IsVotedForGood self.new.nodes work.old.slot (proposed_by proposer.old) × ByThree (TakesPart work.old) }
        ensures too_few { result ≡ Ok Votes.TooFew → IsUnderWay self.new.nodes work.new × AreFew work.new }
        ensures not_fallen { result ≢ Ok Votes.Fallen }
        ensures others { (node : ℕ) → node < 5 → node ≢ work.old.endpoint → at work.old.peers node ≡ false →
            at self.new.nodes node ≡ at self.old.nodes node }
        ensures meets { MeetOnce C.troubles self.old.courier self.new.courier work.old }
        ensures asked { AsksAtMost (C.asked self.old.courier) (C.asked self.new.courier) (λ peer. if at work.old.peers peer then 1 else 0) }
        ensures bounds { GivesAtMost 0 1 self.old.nodes self.new.nodes }
    {
        let mut answers = no_answers();
        let sent = self.send(alloc, work, message, false, &mut answers);
        count_votes(proposer, &answers);
        drop(answers);
        match sent {
            Ok(()) => Ok(votes_of(proposer)),
            Err(Memory) => Err(Memory),
        }
    }

    /// Phase 6: lets the endpoint's node alone learn a command that is chosen at the slot. Whether that node is up still.
    pub(crate) fn learn_own(
        &mut self,
        alloc: Global,
        work: &Work,
        command: &Command,
    ) -> Result<bool, Memory>
        requires in_order { IsInOrder D.tells D.content D.may_leave self.old }
        requires under_way { IsUnderWay self.old.nodes work.now }
        requires valid { IsValidCommand command.now }
        requires chosen { IsVotedForGood self.old.nodes work.now.slot command.now }
        ensures in_order { IsInOrder D.tells D.content D.may_leave self.new }
        ensures go_on { ClusterGoesOn D.faults D.stops_in D.is_tame C.troubles C.is_silent (λ c. ⊥) self.old self.new }
        ensures closed { result ≡ Ok true → HasClosed (at self.new.nodes work.now.endpoint) work.now.slot command.now
            × (closed_len (kept (at self.new.nodes work.now.endpoint)) ≡ work.now.slot + 1) }
        ensures fallen { result ≡ Ok false → is_up (at self.new.nodes work.now.endpoint) ≡ false }
        ensures others { (node : ℕ) → node < 5 → node ≢ work.now.endpoint → at self.new.nodes node ≡ at self.old.nodes node }
        ensures courier { self.new.courier ≡ self.old.courier }
        ensures bounds { GivesAtMost 0 0 self.old.nodes self.new.nodes }
    {
        let Ok(copy) = command.copy(alloc) else {
            return Err(Memory);
        };
        let message = Message::Learn {
            slot: work.slot,
            command: copy,
        };
        let mut answers = no_answers();
        let told = self.send_own(alloc, work.endpoint, &message, &mut answers);
        let learned = answers.get(work.endpoint).is_some();
        drop(answers);
        drop(message);
        match told {
            Ok(()) => Ok(learned),
            Err(Memory) => Err(Memory),
        }
    }

    /// Phase 7: tells the peers that are in what is chosen at the slot. Their answers change nothing.
    pub(crate) fn tell_chosen(
        &mut self,
        alloc: Global,
        work: &mut Work,
        command: &Command,
    ) -> Result<(), Memory>
        requires in_order { IsInOrder D.tells D.content D.may_leave self.old }
        requires closed { HasClosed (at self.old.nodes work.old.endpoint) work.old.slot command.now }
        requires peers { HasPeers self.old.nodes work.old }
        requires valid { IsValidCommand command.now }
        requires chosen { IsVotedForGood self.old.nodes work.old.slot command.now }
        ensures in_order { IsInOrder D.tells D.content D.may_leave self.new }
        ensures go_on { ClusterGoesOn D.faults D.stops_in D.is_tame C.troubles C.is_silent (λ c. ⊥) self.old self.new }
        ensures go_on_in { OnOk result (PeersGoOn C.troubles self.old self.new work.old work.new) }
        ensures meets { MeetOnce C.troubles self.old.courier self.new.courier work.old }
        ensures others { (node : ℕ) → node < 5 → at work.old.peers node ≡ false → at self.new.nodes node ≡ at self.old.nodes node }
        ensures asked { AsksAtMost (C.asked self.old.courier) (C.asked self.new.courier) (λ peer. if at work.old.peers peer then 1 else 0) }
        ensures bounds { GivesAtMost 0 0 self.old.nodes self.new.nodes }
    {
        let Ok(copy) = command.copy(alloc) else {
            return Err(Memory);
        };
        let message = Message::Learn {
            slot: work.slot,
            command: copy,
        };
        let mut answers = no_answers();
        let told = self.send(alloc, work, &message, false, &mut answers);
        drop(answers);
        drop(message);
        told
    }
}

/// How the votes that a proposer counted end.
fn votes_of(proposer: &Proposer) -> Votes
    ensures chosen { result ≡ Votes.Chosen → ByThreeWith (λ node. IsTrue (at proposer.now.votes node)) proposer.now.node }
    ensures too_few { result ≡ Votes.TooFew → ¬ ByThreeWith (λ node. IsTrue (at proposer.now.votes node)) proposer.now.node }
    ensures not_fallen { result ≢ Votes.Fallen }
{
    if proposer.is_chosen() {
        Votes::Chosen
    } else {
        Votes::TooFew
    }
}
