//! Nodes that are started again.
ghost use Rattle.std.specs.Prelude.{◌≡◌, ◌≢◌, ◌<◌, ℕ};
ghost use Rattle.arc_bytes.specs.Five.{at};
ghost use Rattle.arc_node.specs.Calls.{StartsInRun};
ghost use Rattle.arc_node.specs.Node.{disk_in, kept};
ghost use Rattle.arc_node.specs.Starting.{IsNoAccusation, LeavesStarted, Restarts};
ghost use Rattle.arc_voting.specs.Laws.{Begins};
ghost use Rattle.arc_voting.specs.Lists.{applied};
ghost use Rattle.arc_cluster.specs.Cluster.{IsInOrder};
ghost use Rattle.arc_cluster.specs.Moments.{LeaveSound};
ghost use Rattle.arc_cluster.specs.Nodes.{AllFollow, AreInOrder, AreSame};

use crate::Cluster;
use arc_bytes::Five;
use arc_courier::Courier;
use arc_disk::Disk;
use arc_node::{Node, Restart};
use std::alloc::Global;

impl<D: Disk, C: Courier + Drop> Cluster<D, C> {
    /// Starts a node again from what is on its disk. An up node is closed first. The entries on its disk are compared with
    /// those that it keeps, and only then is its next start appended. After every answer but `Up` it isn't up.
    pub fn restart(&mut self, alloc: Global, node: u8) -> Restart
        requires of_five { node < 5 }
        requires in_order { IsInOrder D.tells D.content D.may_leave self.old }
        ensures in_order { IsInOrder D.tells D.content D.may_leave self.new }
        ensures restarts { Restarts D.tells D.content D.faults (at self.old.nodes node) (at self.new.nodes node) result }
        ensures honest { D.tells → IsNoAccusation result }
        ensures follow { AllFollow self.old.nodes self.new.nodes (λ c. ⊥) }
        ensures grows { Begins (applied (kept (at self.old.nodes node))) (applied (kept (at self.new.nodes node))) }
        ensures leaves { D.tells → LeavesStarted D.moment D.left_since (at self.old.nodes node) (at self.new.nodes node) }
        ensures any_moment { D.tells → LeaveSound D.moment D.left_since self.old.nodes self.new.nodes }
        ensures calls { StartsInRun D.moment D.faults D.stops_in D.is_tame 3
            (disk_in (at self.old.nodes node)) (disk_in (at self.new.nodes node)) result }
        ensures others { (other : ℕ) → other < 5 → other ≢ node → at self.new.nodes other ≡ at self.old.nodes other }
        ensures same { AreSame self.old.nodes self.new.nodes }
        ensures held { self.new.held ≡ self.old.held }
        ensures courier { self.new.courier ≡ self.old.courier }
    {
        start_again(alloc, &mut self.nodes, node)
    }
}

/// Starts one of five nodes again.
fn start_again<D: Disk>(alloc: Global, nodes: &mut Five<Node<D>>, node: u8) -> Restart
    requires of_five { node < 5 }
    requires in_order { AreInOrder D.tells D.content D.may_leave nodes.old }
    ensures in_order { AreInOrder D.tells D.content D.may_leave nodes.new }
    ensures restarts { Restarts D.tells D.content D.faults (at nodes.old node) (at nodes.new node) result }
    ensures honest { D.tells → IsNoAccusation result }
    ensures follow { AllFollow nodes.old nodes.new (λ c. ⊥) }
    ensures grows { Begins (applied (kept (at nodes.old node))) (applied (kept (at nodes.new node))) }
    ensures leaves { D.tells → LeavesStarted D.moment D.left_since (at nodes.old node) (at nodes.new node) }
    ensures any_moment { D.tells → LeaveSound D.moment D.left_since nodes.old nodes.new }
    ensures calls { StartsInRun D.moment D.faults D.stops_in D.is_tame 3
        (disk_in (at nodes.old node)) (disk_in (at nodes.new node)) result }
    ensures others { (other : ℕ) → other < 5 → other ≢ node → at nodes.new other ≡ at nodes.old other }
    ensures same { AreSame nodes.old nodes.new }
{
    nodes.get_mut(node).restart(alloc)
}
