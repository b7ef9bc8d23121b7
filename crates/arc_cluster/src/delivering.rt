//! Held messages that are delivered.
ghost use Rattle.std.specs.Prelude.{◌≡◌, ◌≢◌, ◌<◌, ◌≤◌, ℕ, [], ◌∷◌, length};
ghost use Rattle.arc_bytes.specs.Five.{at};
ghost use Rattle.arc_node.specs.Handling.{EndsForMemory, EndsHandling};
ghost use Rattle.arc_cluster.specs.Cluster.{IsInOrder, held_in};
ghost use Rattle.arc_cluster.specs.Delivering.{Delivers, delivered_of};
ghost use Rattle.arc_cluster.specs.Handling.{MayHandle};
ghost use Rattle.arc_cluster.specs.Held.{MayBeHeld};
ghost use Rattle.arc_cluster.specs.Moments.{Handled, LeaveSound};
ghost use Rattle.arc_cluster.specs.Nodes.{AreInOrder};
ghost use Rattle.arc_cluster.specs.Onward.{ClusterGoesOn, GoOn};

use crate::Cluster;
use crate::held::Envelope;
use arc_bytes::Five;
use arc_courier::Courier;
use arc_data::{Answer, Message};
use arc_disk::Disk;
use arc_node::{HandleEnd, Node};
use std::alloc::Global;

/// How the delivery of a held message ends.
#[derive(Drop)]
pub enum Delivered {
    /// The node answered. The answer goes to nobody.
    Answered(Answer),
    /// The node isn't up: it wasn't, or its disk failed, or its journal is full.
    NodeDown { node: u8 },
    /// There is no such message. This many are held.
    NoSuch { held: u32 },
    /// There was no memory left.
    Memory,
}

impl<D: Disk, C: Courier + Drop> Cluster<D, C> {
    /// Delivers the held message with this number, from 0 on. It stays held, and its answer goes to nobody.
    pub fn deliver(&mut self, alloc: Global, k: u32) -> Delivered
        requires in_order { IsInOrder D.tells D.content D.may_leave self.old }
        ensures in_order { IsInOrder D.tells D.content D.may_leave self.new }
        ensures delivers { Delivers D.faults self.old.nodes self.new.nodes (held_in self.old) k result }
        ensures no_such { length (held_in self.old) ≤ k → result ≡ Delivered.NoSuch (length (held_in self.old)) }
        ensures go_on { ClusterGoesOn D.faults D.stops_in D.is_tame C.troubles C.is_silent (λ c. ⊥) self.old self.new }
        ensures any_moment { D.tells → LeaveSound D.moment D.left_since self.old.nodes self.new.nodes }
        ensures held { self.new.held ≡ self.old.held }
        ensures courier { self.new.courier ≡ self.old.courier }
    {
        let held = self.held.len();
        let Some(envelope) = self.held.get(k) else {
            return Delivered::NoSuch { held };
        };
        let end = handle_envelope(alloc, &mut self.nodes, envelope);
        delivery_end(envelope.to, end)
    }
}

/// Lets the receiver of an envelope handle its message.
fn handle_envelope<D: Disk>(
    alloc: Global,
    nodes: &mut Five<Node<D>>,
    envelope: &Envelope,
) -> HandleEnd
    requires in_order { AreInOrder D.tells D.content D.may_leave nodes.old }
    requires may { MayBeHeld nodes.old envelope.now }
    ensures in_order { AreInOrder D.tells D.content D.may_leave nodes.new }
    ensures ends { EndsHandling D.faults (at nodes.old envelope.now.to) (at nodes.new envelope.now.to) envelope.now.message result }
    ensures memory { EndsForMemory (at nodes.old envelope.now.to) envelope.now.message result }
    ensures others { (other : ℕ) → other < 5 → other ≢ envelope.now.to → at nodes.new other ≡ at nodes.old other }
    ensures go_on { GoOn D.faults D.stops_in D.is_tame (λ c. ⊥) nodes.old nodes.new }
    ensures any_moment { D.tells → LeaveSound D.moment D.left_since nodes.old nodes.new }
{
    handle_alone(alloc, nodes.get_mut(envelope.to), &envelope.message)
}

/// Lets a node handle one message.
fn handle_alone<D: Disk>(alloc: Global, node: &mut Node<D>, message: &Message) -> HandleEnd
    requires may { MayHandle D.tells D.content D.may_leave node.old (message.now ∷ []) }
    ensures handled { Handled D.tells D.content D.may_leave D.faults D.moment D.stops_in D.is_tame
        D.left_since node.old node.new (message.now ∷ []) }
    ensures ends { EndsHandling D.faults node.old node.new message.now result }
    ensures memory { EndsForMemory node.old message.now result }
{
    node.handle(alloc, message)
}

/// How a delivery to this node ends where its handling ends so.
fn delivery_end(to: u8, end: HandleEnd) -> Delivered
    ensures { result ≡ delivered_of to end }
{
    match end {
        HandleEnd::Answered(answer) => Delivered::Answered(answer),
        HandleEnd::Down => Delivered::NodeDown { node: to },
        HandleEnd::Memory => Delivered::Memory,
    }
}
