//! A node whose disk stops, and that is started again.
ghost use Rattle.std.specs.Prelude.{◌<◌};
ghost use Rattle.arc_cluster.specs.Cluster.{IsInOrder};

use crate::attempts::check;
use crate::five::End::{self, Down, Other, Placed};
use crate::five::{created, lists};
use arc_cluster::Cluster;
use arc_courier::Scripted;
use arc_disk::{Disk, Rig};
use arc_node::Restart;
use std::alloc::Global;
use std::process::Abort;
use std::test::Fail;

/// Starts a node again: the number of its start, where it is up.
fn restarted<D: Disk>(alloc: Global, nodes: &mut Cluster<D, Scripted>, node: u8) -> Option<u32>
    requires of_five { node < 5 }
    requires in_order { IsInOrder D.tells D.content D.may_leave nodes.old }
    ensures in_order { IsInOrder D.tells D.content D.may_leave nodes.new }
{
    match nodes.restart(alloc, node) {
        Restart::Up { inc } => Some(inc),
        other => {
            drop(other);
            None
        }
    }
}

/// Attempts of node 1 where the first command was voted for, and its own node stopped before it closed the slot.
const OF_OTHER: [(End, u64); 2] = [(Other(0), 6), (Placed(1), 11)];

/// Attempts of the node that is started again: it learns two commands, one an attempt, and then places its own.
const OF_RESTARTED: [(End, u64); 3] = [(Other(0), 5), (Other(1), 5), (Placed(2), 15)];

fn check_restart<D: Disk + Rig>(rt: &(impl Abort + AllocGlobal), nodes: &mut Cluster<D, Scripted>)
    requires { IsInOrder D.tells D.content D.may_leave nodes.old }
{
    nodes.arm(0, 8, 0);
    check(rt, nodes, 0, [(Down, 5)].as_slice());
    check(rt, nodes, 1, OF_OTHER.as_slice());
    nodes.crash(0);
    let start = restarted(rt.alloc(), nodes, 0);
    assert_eq!(rt; start, Some(2));
    assert_eq!(rt; lists(nodes), [0, 2, 2, 2, 2]);
    check(rt, nodes, 0, OF_RESTARTED.as_slice());
    assert_eq!(rt; lists(nodes), [3, 3, 3, 3, 3]);
}

#[test]
fn a_node_that_is_started_again_catches_up(rt: HostRuntime) -> Result<(), Fail> {
    let Some(mut nodes) = created(rt.alloc()) else {
        assert!(rt; false);
        return Ok(());
    };
    check_restart(&rt, &mut nodes);
    drop(nodes);
    Ok(())
}
