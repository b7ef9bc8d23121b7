//! Exchanges with peers.
ghost use Rattle.std.specs.Prelude.{◌≡◌, ◌<◌, OnOk, if◌then◌else◌};
ghost use Rattle.arc_bytes.specs.Five.{at};
ghost use Rattle.arc_cluster.specs.Cluster.{IsInOrder};
ghost use Rattle.arc_cluster.specs.Exchange.{AllExchanged, AllGrow, AllSent, MayBeExchanged, MayBeSent, OwnHandled, has_messages, sent, to_own};
ghost use Rattle.arc_cluster.specs.Fates.{is_asked};
ghost use Rattle.arc_cluster.specs.Handling.{MayBeHandled, lent_to, none_of_five};
ghost use Rattle.arc_cluster.specs.Onward.{AsksAtMost, AsksExactly, ClusterGoesOn};
ghost use Rattle.arc_cluster.specs.Work.{HasPeers, IsSameWork, MeetOnce, PeersGoOn};
ghost use Rattle.arc_voting.specs.Staying.{IsAskedFor};

use crate::Cluster;
use crate::fates::{ask_fates, keep_copies, settle_all, withdraw_all};
use crate::handling::handle_each;
use crate::work::{Work, alone, lend_message};
use arc_bytes::{Five, Memory};
use arc_courier::Courier;
use arc_data::{Answer, Message};
use arc_disk::Disk;
use std::alloc::Global;

impl<D: Disk, C: Courier + Drop> Cluster<D, C> {
    /// Sends a message to each peer that is in, and to the endpoint's own node where it is to have it. Leaves the answers that
    /// come; a peer of which none does is out then.
    pub(crate) fn send(
        &mut self,
        alloc: Global,
        work: &mut Work,
        message: &Message,
        own_too: bool,
        answers: &mut Five<Option<Answer>>,
    ) -> Result<(), Memory>
        requires in_order { IsInOrder D.tells D.content D.may_leave self.old }
        requires peers { HasPeers self.old.nodes work.old }
        requires message { MayBeSent self.old.nodes message.now }
        requires none { answers.old ≡ none_of_five }
        ensures in_order { IsInOrder D.tells D.content D.may_leave self.new }
        ensures go_on { ClusterGoesOn D.faults D.stops_in D.is_tame C.troubles C.is_silent (λ c. ⊥) self.old self.new }
        ensures go_on_in { OnOk result (PeersGoOn C.troubles self.old self.new work.old work.new) }
        ensures each { OnOk result (AllSent C.troubles C.is_silent self.old self.new work.old work.new message.now own_too answers.new) }
        ensures grown { AllGrow self.old.nodes self.new.nodes (sent work.old own_too message.now) }
        ensures same { IsSameWork work.old work.new }
        ensures lengths { work.new.lengths ≡ work.old.lengths }
        ensures meets { MeetOnce C.troubles self.old.courier self.new.courier work.old }
        ensures asked { AsksAtMost (C.asked self.old.courier) (C.asked self.new.courier) (λ peer. if at work.old.peers peer then 1 else 0) }
        // Each peer that is in is asked once, and nobody else.
        ensures fates { OnOk result (AsksExactly (C.asked self.old.courier) (C.asked self.new.courier) (λ peer. at work.old.peers peer)) }
    {
        let mail = lend_message(&work.receivers(own_too), message);
        self.exchange(alloc, work, &mail, answers)
    }

    /// One exchange with each node that has mail. The courier decides that with each peer, from node 0 on: what comes later is
    /// held and not handled now, of what comes twice copies are held, and a lost answer isn't left. A peer whose answer
    /// doesn't come is out then.
    pub(crate) fn exchange(
        &mut self,
        alloc: Global,
        work: &mut Work,
        mail: &Five<&[Message]>,
        answers: &mut Five<Option<Answer>>,
    ) -> Result<(), Memory>
        requires in_order { IsInOrder D.tells D.content D.may_leave self.old }
        requires peers { HasPeers self.old.nodes work.old }
        requires mail { MayBeExchanged self.old.nodes work.old (lent_to mail.now) }
        requires none { answers.old ≡ none_of_five }
        ensures in_order { IsInOrder D.tells D.content D.may_leave self.new }
        ensures go_on { ClusterGoesOn D.faults D.stops_in D.is_tame C.troubles C.is_silent (λ c. ⊥) self.old self.new }
        ensures go_on_in { OnOk result (PeersGoOn C.troubles self.old self.new work.old work.new) }
        ensures each { OnOk result (AllExchanged C.troubles C.is_silent self.old self.new work.old work.new (lent_to mail.now) answers.new) }
        ensures grown { AllGrow self.old.nodes self.new.nodes (lent_to mail.now) }
        ensures same { IsSameWork work.old work.new }
        ensures lengths { work.new.lengths ≡ work.old.lengths }
        ensures meets { MeetOnce C.troubles self.old.courier self.new.courier work.old }
        ensures asked { AsksAtMost (C.asked self.old.courier) (C.asked self.new.courier) (λ peer. if has_messages (lent_to mail.now peer) then 1 else 0) }
        // Each peer that has mail is asked once, and nobody else.
        ensures fates { AsksExactly (C.asked self.old.courier) (C.asked self.new.courier) (λ peer. is_asked work.old.endpoint peer (lent_to mail.now peer)) }
    {
        let fates = ask_fates(&mut self.courier, work.endpoint, mail);
        keep_copies(alloc, &mut self.held, &fates, mail)?;
        let left = withdraw_all(&fates, mail);
        handle_each(alloc, &mut self.nodes, &left, answers)?;
        settle_all(work, &fates, answers);
        Ok(())
    }

    /// Sends a message to the endpoint's own node alone, without the courier.
    pub(crate) fn send_own(
        &mut self,
        alloc: Global,
        endpoint: u8,
        message: &Message,
        answers: &mut Five<Option<Answer>>,
    ) -> Result<(), Memory>
        requires of_five { endpoint < 5 }
        requires in_order { IsInOrder D.tells D.content D.may_leave self.old }
        requires message { MayBeHandled self.old.nodes (to_own endpoint message.now) }
        requires none { answers.old ≡ none_of_five }
        ensures in_order { IsInOrder D.tells D.content D.may_leave self.new }
        ensures go_on { ClusterGoesOn D.faults D.stops_in D.is_tame C.troubles C.is_silent (IsAskedFor (to_own endpoint message.now)) self.old self.new }
        ensures handled { OnOk result (OwnHandled self.old.nodes self.new.nodes endpoint message.now answers.new) }
        ensures grown { AllGrow self.old.nodes self.new.nodes (to_own endpoint message.now) }
        ensures courier { self.new.courier ≡ self.old.courier }
        ensures held { self.new.held ≡ self.old.held }
    {
        let mail = lend_message(&alone(endpoint), message);
        handle_each(alloc, &mut self.nodes, &mail, answers)
    }
}
