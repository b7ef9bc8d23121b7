//! The engine.
ghost use Rattle.std.specs.Prelude.{◌≡◌, ◌≢◌, ◌<◌, ◌≤◌, ℕ, List, Some, None, false, length};
ghost use Rattle.std.specs.Borrow.{sem};
ghost use Rattle.arc_bytes.specs.Five.{at};
ghost use Rattle.arc_cluster.specs.Cluster.{held_in};
ghost use Rattle.arc_cluster.specs.Delivering.{Delivers};
ghost use Rattle.arc_cluster.specs.Moments.{LeaveSound};
ghost use Rattle.arc_cluster.specs.Nodes.{AllFollow, AreSame, KeepAllLists, disks_in};
ghost use Rattle.arc_cluster.specs.Onward.{ClusterGoesOn};
ghost use Rattle.arc_disk.specs.Calls.{IsNoCall};
ghost use Rattle.arc_disk.specs.Disk.{Crashes, Elapses, IsUntouched};
ghost use Rattle.arc_engine.specs.Engine.{IsInOrder, list_of};
ghost use Rattle.arc_engine.specs.Lending.{LendsCourier};
ghost use Rattle.arc_engine.specs.Lens.{AreLens, len_of};
ghost use Rattle.arc_node.specs.Calls.{StartsInRun};
ghost use Rattle.arc_node.specs.Node.{disk_in, is_up, kept, slots_in};
ghost use Rattle.arc_node.specs.Starting.{IsNoAccusation, LeavesStarted, Restarts};
ghost use Rattle.arc_voting.specs.Laws.{Begins};
ghost use Rattle.arc_voting.specs.Lists.{applied};

use arc_bytes::Five;
use arc_cluster::{Cluster, Delivered};
use arc_courier::Courier;
use arc_disk::{Disk, Rig};
use arc_node::{Node, Restart};
use arc_state::State;
use std::alloc::Global;

/// Five nodes that keep one list, and the state that a front of that list makes.
#[derive(Drop)]
pub struct Engine<D: Disk, C: Courier> {
    pub(crate) cluster: Cluster<D, C>,
    pub(crate) state: State,
}

impl<D: Disk, C: Courier + Drop> Engine<D, C> {
    /// Delivers the held message with this number, from 0 on. It stays held, and its answer goes to nobody.
    pub fn deliver(&mut self, alloc: Global, k: u32) -> Delivered
        requires in_order { IsInOrder D.tells D.content D.may_leave self.old }
        ensures in_order { IsInOrder D.tells D.content D.may_leave self.new }
        ensures delivers { Delivers D.faults self.old.cluster.nodes self.new.cluster.nodes (held_in self.old.cluster) k result }
        ensures no_such { length (held_in self.old.cluster) ≤ k → result ≡ Delivered.NoSuch (length (held_in self.old.cluster)) }
        ensures go_on { ClusterGoesOn D.faults D.stops_in D.is_tame C.troubles C.is_silent (λ c. ⊥) self.old.cluster self.new.cluster }
        ensures grows { Begins (list_of self.old) (list_of self.new) }
        ensures any_moment { D.tells → LeaveSound D.moment D.left_since self.old.cluster.nodes self.new.cluster.nodes }
        ensures held { self.new.cluster.held ≡ self.old.cluster.held }
        ensures courier { self.new.cluster.courier ≡ self.old.cluster.courier }
        ensures state { self.new.state ≡ self.old.state }
    {
        self.cluster.deliver(alloc, k)
    }

    /// Starts a node again from what is on its disk; one that is up is closed first. After every answer but `Up` it isn't up.
    pub fn restart(&mut self, alloc: Global, node: u8) -> Restart
        requires of_five { node < 5 }
        requires in_order { IsInOrder D.tells D.content D.may_leave self.old }
        ensures in_order { IsInOrder D.tells D.content D.may_leave self.new }
        ensures restarts { Restarts D.tells D.content D.faults
            (at self.old.cluster.nodes node) (at self.new.cluster.nodes node) result }
        ensures honest { D.tells → IsNoAccusation result }
        ensures follow { AllFollow self.old.cluster.nodes self.new.cluster.nodes (λ c. ⊥) }
        ensures grows { Begins (list_of self.old) (list_of self.new) }
        ensures leaves { D.tells → LeavesStarted D.moment D.left_since
            (at self.old.cluster.nodes node) (at self.new.cluster.nodes node) }
        ensures any_moment { D.tells → LeaveSound D.moment D.left_since self.old.cluster.nodes self.new.cluster.nodes }
        ensures calls { StartsInRun D.moment D.faults D.stops_in D.is_tame 3
            (disk_in (at self.old.cluster.nodes node)) (disk_in (at self.new.cluster.nodes node)) result }
        ensures others { (other : ℕ) → other < 5 → other ≢ node →
            at self.new.cluster.nodes other ≡ at self.old.cluster.nodes other }
        ensures same { AreSame self.old.cluster.nodes self.new.cluster.nodes }
        ensures held { self.new.cluster.held ≡ self.old.cluster.held }
        ensures courier { self.new.cluster.courier ≡ self.old.cluster.courier }
        ensures state { self.new.state ≡ self.old.state }
    {
        self.cluster.restart(alloc, node)
    }

    /// Takes a node down and crashes its disk.
    pub fn crash(&mut self, node: u8)
    where
        D: Rig,
        requires of_five { node < 5 }
        requires in_order { IsInOrder D.tells D.content D.may_leave self.old }
        ensures in_order { IsInOrder D.tells D.content D.may_leave self.new }
        ensures lists { KeepAllLists self.old.cluster.nodes self.new.cluster.nodes node }
        ensures list { list_of self.new ≡ list_of self.old }
        ensures not_up { is_up (at self.new.cluster.nodes node) ≡ false }
        ensures crashed { D.crashed (disk_in (at self.old.cluster.nodes node)) (disk_in (at self.new.cluster.nodes node)) }
        ensures stop { D.stops_in (disk_in (at self.new.cluster.nodes node)) ≡ None }
        ensures crashes { D.tells → Crashes D.content D.may_leave
            (disk_in (at self.old.cluster.nodes node)) (disk_in (at self.new.cluster.nodes node)) }
        ensures time { D.tells → Elapses D.moment D.may_leave D.left_since
            (disk_in (at self.old.cluster.nodes node)) (disk_in (at self.new.cluster.nodes node)) }
        ensures no_call { IsNoCall D.moment D.faults D.is_tame
            (disk_in (at self.old.cluster.nodes node)) (disk_in (at self.new.cluster.nodes node)) }
        ensures held { self.new.cluster.held ≡ self.old.cluster.held }
        ensures courier { self.new.cluster.courier ≡ self.old.cluster.courier }
        ensures state { self.new.state ≡ self.old.state }
    {
        self.cluster.crash(node);
    }

    /// Tells a node's disk to stop in the device call with this number, counted from 0 from now on, and what to fill in at its crash.
    pub fn arm(&mut self, node: u8, calls: u32, fill: u8)
    where
        D: Rig,
        requires of_five { node < 5 }
        requires in_order { IsInOrder D.tells D.content D.may_leave self.old }
        ensures in_order { IsInOrder D.tells D.content D.may_leave self.new }
        ensures lists { KeepAllLists self.old.cluster.nodes self.new.cluster.nodes node }
        ensures list { list_of self.new ≡ list_of self.old }
        ensures standing { (at self.new.cluster.nodes node).standing ≡ (at self.old.cluster.nodes node).standing }
        ensures armed { D.armed (disk_in (at self.old.cluster.nodes node)) calls fill (disk_in (at self.new.cluster.nodes node)) }
        ensures stop { D.stops_in (disk_in (at self.new.cluster.nodes node)) ≡ Some calls }
        ensures untouched { D.tells → IsUntouched D.content D.may_leave
            (disk_in (at self.old.cluster.nodes node)) (disk_in (at self.new.cluster.nodes node)) }
        ensures no_call { IsNoCall D.moment D.faults D.is_tame
            (disk_in (at self.old.cluster.nodes node)) (disk_in (at self.new.cluster.nodes node)) }
        ensures held { self.new.cluster.held ≡ self.old.cluster.held }
        ensures courier { self.new.cluster.courier ≡ self.old.cluster.courier }
        ensures state { self.new.state ≡ self.old.state }
    {
        self.cluster.arm(node, calls, fill);
    }

    /// The courier of the engine. What is written to it changes nothing else.
    pub fn courier(&mut self) -> &mut C
        ensures* writes_back { sem 𝓛 (LendsCourier D.row C.row self.entry result) }
        ensures value { result.now ≡ self.old.cluster.courier }
    {
        self.cluster.courier()
    }

    /// The node with this number.
    pub fn node(&self, node: u8) -> &Node<D>
        requires of_five { node < 5 }
        ensures { result.now ≡ at self.now.cluster.nodes node }
    {
        self.cluster.node(node)
    }

    /// The greatest length of the engine's list.
    pub fn max_slots(&self) -> u32
        ensures { result ≡ slots_in self.now.cluster.nodes.d0 }
    {
        self.cluster.node(0).max_slots()
    }

    /// How often the disk of a node has failed, up to 2^64 - 1.
    pub fn faults(&self, node: u8) -> u64
        requires of_five { node < 5 }
        ensures { result ≡ D.faults (disk_in (at self.now.cluster.nodes node)) }
    {
        self.cluster.node(node).faults()
    }

    /// The length of the list: of the longest that a node keeps, be it up or down.
    pub fn list_len(&self) -> u64
        ensures { result ≡ length (list_of self.now) }
    {
        let first = self.len_at(0).max(self.len_at(1));
        let second = self.len_at(2).max(self.len_at(3));
        u64::from(first.max(second).max(self.len_at(4)))
    }

    /// The length of the list that a node keeps.
    fn len_at(&self, node: u8) -> u32
        requires of_five { node < 5 }
        ensures { result ≡ length (applied (kept (at self.now.cluster.nodes node))) }
    {
        self.cluster.node(node).applied_len()
    }

    /// The length of the list of each node, `None` for one that isn't up.
    pub fn applied_lens(&self) -> [Option<u32>; 5]
        ensures { AreLens self.now result }
    {
        [
            self.len_if_up(0),
            self.len_if_up(1),
            self.len_if_up(2),
            self.len_if_up(3),
            self.len_if_up(4),
        ]
    }

    /// The length of a node's list, where it is up.
    fn len_if_up(&self, node: u8) -> Option<u32>
        requires of_five { node < 5 }
        ensures { result ≡ len_of (at self.now.cluster.nodes node) }
    {
        let own = self.cluster.node(node);
        if own.is_up() {
            Some(own.applied_len())
        } else {
            None
        }
    }

    /// The disks of the five nodes.
    pub fn give_back(self) -> Five<D>
        ensures { result ≡ disks_in self.cluster.nodes }
    {
        let Engine { cluster, state } = self;
        drop(state);
        cluster.give_back()
    }
}
