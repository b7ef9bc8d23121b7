//! The cluster.
ghost use Rattle.std.specs.Prelude.{◌≡◌, ◌<◌, ◌≤◌, ◌↔◌, ℕ, List, [], Some, None, false, IfErr, IfOk, MatchResult};
ghost use Rattle.std.specs.Borrow.{sem};
ghost use Rattle.arc_bytes.specs.Five.{at};
ghost use Rattle.arc_disk.specs.Calls.{IsNoCall};
ghost use Rattle.arc_disk.specs.Disk.{Crashes, Elapses, IsUntouched};
ghost use Rattle.arc_node.specs.Node.{disk_in, is_up};
ghost use Rattle.arc_cluster.specs.Cluster.{IsInOrder, held_in};
ghost use Rattle.arc_cluster.specs.Lending.{LendsCourier};
ghost use Rattle.arc_cluster.specs.Handling.{AllAnswer, AllHandle, MayBeHandled, mail_of};
ghost use Rattle.arc_cluster.specs.Moments.{AllLeaveFronts, LeaveSound};
ghost use Rattle.arc_cluster.specs.Nodes.{AreSame, HaveSameChoices, KeepAllLists, disks_in};
ghost use Rattle.arc_cluster.specs.Opening.{AreCreated, AreEmpty, EndsCreation};
ghost use Rattle.arc_cluster.specs.Since.{AllSince, DisksSince};

use crate::disks::disks_of;
use crate::handling::{handle_each, no_answers};
use crate::held::Held;
use crate::opening::{OpenEnd, create_all};
use crate::work::lend_mail;
use arc_bytes::{Five, Memory};
use arc_courier::Courier;
use arc_data::{Answer, Message};
use arc_disk::{Disk, Rig};
use arc_node::Node;
use std::alloc::Global;

/// Five nodes, the courier that decides their exchanges, and the messages that are held.
#[derive(Drop)]
pub struct Cluster<D: Disk, C: Courier> {
    pub(crate) nodes: Five<Node<D>>,
    pub(crate) courier: C,
    pub(crate) held: Held,
}

impl<D: Disk, C: Courier + Drop> Cluster<D, C> {
    /// Makes five nodes on five empty disks, each with its first start, for lists of this greatest length. Where a disk
    /// fails or there is no memory, the disks are given back.
    pub fn create(
        alloc: Global,
        disks: Five<D>,
        courier: C,
        max_slots: u32,
    ) -> Result<Cluster<D, C>, (Five<D>, OpenEnd)>
        requires some { 1 ≤ max_slots }
        requires most { max_slots ≤ 16384 }
        requires empty { D.tells → AreEmpty D.content disks }
        ensures in_order { IfOk result (λ made. IsInOrder D.tells D.content D.may_leave made) }
        ensures created { IfOk result (λ made. AreCreated made.nodes max_slots) }
        ensures held { IfOk result (λ made. held_in made ≡ []) }
        ensures courier { IfOk result (λ made. made.courier ≡ courier) }
        ensures answer { IfErr result (λ e. EndsCreation D.faults disks e.0 e.1) }
        ensures since { MatchResult result
            (λ made. DisksSince D.faults D.stops_in D.is_tame disks (disks_in made.nodes))
            (λ e. DisksSince D.faults D.stops_in D.is_tame disks e.0) }
    {
        match create_all(alloc, disks, max_slots) {
            Ok(nodes) => Ok(Cluster {
                nodes,
                courier,
                held: Held::none(alloc),
            }),
            Err(end) => {
                drop(courier);
                Err(end)
            }
        }
    }

    /// Lets the five nodes handle their mail. The answer of each is that to its last message, `None` exactly where it has no
    /// mail or isn't up then.
    pub fn phase(
        &mut self,
        alloc: Global,
        mail: &Five<Vec<Message>>,
    ) -> Result<Five<Option<Answer>>, Memory>
        requires in_order { IsInOrder D.tells D.content D.may_leave self.old }
        requires mail { MayBeHandled self.old.nodes (mail_of mail.now) }
        ensures in_order { IsInOrder D.tells D.content D.may_leave self.new }
        ensures handle { AllHandle D.faults self.old.nodes self.new.nodes (mail_of mail.now) }
        ensures answer { IfOk result (λ answers. AllAnswer self.old.nodes self.new.nodes (mail_of mail.now) answers) }
        ensures any_moment { D.tells → LeaveSound D.moment D.left_since self.old.nodes self.new.nodes }
        ensures fronts { D.tells →
            AllLeaveFronts D.moment D.left_since self.old.nodes self.new.nodes (mail_of mail.now) }
        ensures since { AllSince D.faults D.stops_in D.is_tame self.old.nodes self.new.nodes }
        ensures same { AreSame self.old.nodes self.new.nodes }
        ensures held { self.new.held ≡ self.old.held }
        ensures courier { self.new.courier ≡ self.old.courier }
    {
        let mut answers = no_answers();
        match handle_each(alloc, &mut self.nodes, &lend_mail(mail), &mut answers) {
            Ok(()) => Ok(answers),
            Err(Memory) => {
                drop(answers);
                Err(Memory)
            }
        }
    }

    /// One of its nodes.
    pub fn node(&self, node: u8) -> &Node<D>
        requires of_five { node < 5 }
        ensures { result.now ≡ at self.now.nodes node }
    {
        self.nodes.get(node)
    }

    /// Its courier.
    pub fn courier(&mut self) -> &mut C
        ensures* writes_back { sem 𝓛 (LendsCourier D.row C.row self.entry result) }
        ensures value { result.now ≡ self.old.courier }
    {
        &mut self.courier
    }

    /// Takes a node down and crashes its disk.
    pub fn crash(&mut self, node: u8)
    where
        D: Rig,
        requires of_five { node < 5 }
        requires in_order { IsInOrder D.tells D.content D.may_leave self.old }
        ensures in_order { IsInOrder D.tells D.content D.may_leave self.new }
        ensures lists { KeepAllLists self.old.nodes self.new.nodes node }
        ensures choices { HaveSameChoices self.old.nodes self.new.nodes }
        ensures not_up { is_up (at self.new.nodes node) ≡ false }
        ensures crashed { D.crashed (disk_in (at self.old.nodes node)) (disk_in (at self.new.nodes node)) }
        ensures stop { D.stops_in (disk_in (at self.new.nodes node)) ≡ None }
        ensures crashes { D.tells → Crashes D.content D.may_leave
            (disk_in (at self.old.nodes node)) (disk_in (at self.new.nodes node)) }
        ensures time { D.tells → Elapses D.moment D.may_leave D.left_since
            (disk_in (at self.old.nodes node)) (disk_in (at self.new.nodes node)) }
        ensures no_call { IsNoCall D.moment D.faults D.is_tame
            (disk_in (at self.old.nodes node)) (disk_in (at self.new.nodes node)) }
        ensures held { self.new.held ≡ self.old.held }
        ensures courier { self.new.courier ≡ self.old.courier }
    {
        self.nodes.get_mut(node).crash();
    }

    /// Tells a node's disk to stop in the device call with this number from now on, and what to fill in at its crash.
    pub fn arm(&mut self, node: u8, calls: u32, fill: u8)
    where
        D: Rig,
        requires of_five { node < 5 }
        requires in_order { IsInOrder D.tells D.content D.may_leave self.old }
        ensures in_order { IsInOrder D.tells D.content D.may_leave self.new }
        ensures lists { KeepAllLists self.old.nodes self.new.nodes node }
        ensures choices { HaveSameChoices self.old.nodes self.new.nodes }
        ensures standing { (at self.new.nodes node).standing ≡ (at self.old.nodes node).standing }
        ensures armed { D.armed (disk_in (at self.old.nodes node)) calls fill (disk_in (at self.new.nodes node)) }
        ensures stop { D.stops_in (disk_in (at self.new.nodes node)) ≡ Some calls }
        ensures untouched { D.tells → IsUntouched D.content D.may_leave
            (disk_in (at self.old.nodes node)) (disk_in (at self.new.nodes node)) }
        ensures since { D.tells → (t : ℕ) (image : List ℕ) →
            D.left_since (disk_in (at self.new.nodes node)) t image
            ↔ D.left_since (disk_in (at self.old.nodes node)) t image }
        ensures no_call { IsNoCall D.moment D.faults D.is_tame
            (disk_in (at self.old.nodes node)) (disk_in (at self.new.nodes node)) }
        ensures held { self.new.held ≡ self.old.held }
        ensures courier { self.new.courier ≡ self.old.courier }
    {
        self.nodes.get_mut(node).arm(calls, fill);
    }

    /// Its disks.
    pub fn give_back(self) -> Five<D>
        ensures { result ≡ disks_in self.nodes }
    {
        let Cluster {
            nodes,
            courier,
            held,
        } = self;
        drop(courier);
        drop(held);
        disks_of(nodes)
    }
}
