//! How attempts end while exchanges fail or nodes are down.
ghost use Rattle.std.specs.Prelude.{◌<◌};
ghost use Rattle.arc_data.specs.Valid.{IsValidCommand};
ghost use Rattle.arc_cluster.specs.Cluster.{IsInOrder};
ghost use Rattle.arc_cluster.specs.Phases.{MayBeAttempted};

use crate::five::{End, attempted, created, drawn, home_of, lists, set};
use End::{Disturbed, Other, Placed};
use arc_cluster::Cluster;
use arc_courier::Fate::{Later, Mute, Now};
use arc_courier::{Courier, Fate, Scripted};
use arc_data::Command;
use arc_disk::{Disk, Rig};
use std::process::Abort;
use std::test::Fail;

/// Attempts one command of a node once for each row: how the attempt ends, and what the node promises then.
pub(crate) fn check<D: Disk>(
    rt: &(impl Abort + AllocGlobal),
    nodes: &mut Cluster<D, Scripted>,
    node: u8,
    rows: &[(End, u64)],
)
    requires of_five { node < 5 }
    requires in_order { IsInOrder D.tells D.content D.may_leave nodes.old }
    ensures in_order { IsInOrder D.tells D.content D.may_leave nodes.new }
{
    let Some(command) = drawn(nodes, node) else {
        assert!(rt; false);
        return;
    };
    check_attempts(rt, nodes, node, &command, rows);
    drop(command);
}

fn check_attempts<D: Disk>(
    rt: &(impl Abort + AllocGlobal),
    nodes: &mut Cluster<D, Scripted>,
    node: u8,
    command: &Command,
    rows: &[(End, u64)],
)
    requires of_five { node < 5 }
    requires in_order { IsInOrder D.tells D.content D.may_leave nodes.old }
    requires valid { IsValidCommand command.now }
    requires may { MayBeAttempted nodes.old.nodes node command.now }
    ensures in_order { IsInOrder D.tells D.content D.may_leave nodes.new }
{
    let mut again = true;
    for (wanted, promise) in rows {
        if !again {
            assert!(rt; false, "a placed command is attempted again");
            return;
        }
        let (may_again, end) = attempted(rt.alloc(), nodes, node, command);
        assert_eq!(rt; (end, nodes.node(node).promise()), (*wanted, *promise));
        again = may_again;
    }
}

/// What becomes of three exchanges of an attempt whose accept and learn are withheld, again and again.
pub(crate) const WITHHELD: [Fate; 3] = [Now, Now, Later];

/// Attempts of node 0 for one command, while the accepts to all peers but node 1 are withheld.
pub(crate) const DISTURBED: [(End, u64); 8] = [
    (Disturbed(0, 3), 5),
    (Disturbed(0, 3), 10),
    (Disturbed(0, 3), 15),
    (Disturbed(0, 3), 20),
    (Disturbed(0, 3), 25),
    (Disturbed(0, 3), 30),
    (Disturbed(0, 3), 35),
    (Disturbed(0, 3), 40),
];

/// Attempts of node 1 then, once the exchanges happen.
const FINISHED: [(End, u64); 2] = [(Other(0), 41), (Placed(1), 46)];

fn check_withheld<D: Disk>(rt: &(impl Abort + AllocGlobal), nodes: &mut Cluster<D, Scripted>)
    requires { IsInOrder D.tells D.content D.may_leave nodes.old }
{
    set(nodes, 2, true, WITHHELD.as_slice());
    set(nodes, 3, true, WITHHELD.as_slice());
    set(nodes, 4, true, WITHHELD.as_slice());
    check(rt, nodes, 0, DISTURBED.as_slice());
    set(nodes, 2, false, [Now].as_slice());
    set(nodes, 3, false, [Now].as_slice());
    set(nodes, 4, false, [Now].as_slice());
    check(rt, nodes, 1, FINISHED.as_slice());
    assert_eq!(rt; lists(nodes), [2, 2, 2, 2, 2]);
    assert_eq!(rt; home_of(nodes, 0), Some(0));
}

#[test]
fn another_node_finishes_a_command_whose_accepts_were_withheld(
    rt: HostRuntime,
) -> Result<(), Fail> {
    let Some(mut nodes) = created(rt.alloc()) else {
        assert!(rt; false);
        return Ok(());
    };
    check_withheld(&rt, &mut nodes);
    drop(nodes);
    Ok(())
}

fn check_silent<D: Disk>(rt: &(impl Abort + AllocGlobal), nodes: &mut Cluster<D, Scripted>)
    requires { IsInOrder D.tells D.content D.may_leave nodes.old }
{
    set(nodes, 1, true, [Later].as_slice());
    set(nodes, 2, true, [Mute].as_slice());
    set(nodes, 3, true, [Later].as_slice());
    check(rt, nodes, 0, [(Disturbed(0, 17), 5)].as_slice());
    assert_eq!(rt; lists(nodes), [0, 0, 0, 0, 0]);
    check(rt, nodes, 1, [(Placed(0), 6)].as_slice());
    assert_eq!(rt; lists(nodes), [1, 1, 0, 0, 1]);
}

#[test]
fn silent_peers(rt: HostRuntime) -> Result<(), Fail> {
    let Some(mut nodes) = created(rt.alloc()) else {
        assert!(rt; false);
        return Ok(());
    };
    check_silent(&rt, &mut nodes);
    drop(nodes);
    Ok(())
}

fn check_late<D: Disk>(rt: &(impl Abort + AllocGlobal), nodes: &mut Cluster<D, Scripted>)
    requires { IsInOrder D.tells D.content D.may_leave nodes.old }
{
    set(nodes, 1, false, [Now, Now, Now, Later].as_slice());
    check(rt, nodes, 0, [(Placed(0), 5)].as_slice());
    assert_eq!(rt; lists(nodes), [1, 0, 1, 1, 1]);
}

#[test]
fn a_peer_that_misses_the_last_exchange_has_a_shorter_list(rt: HostRuntime) -> Result<(), Fail> {
    let Some(mut nodes) = created(rt.alloc()) else {
        assert!(rt; false);
        return Ok(());
    };
    check_late(&rt, &mut nodes);
    drop(nodes);
    Ok(())
}

/// Places so many commands at node 0.
fn place<D: Disk>(rt: &(impl Abort + AllocGlobal), nodes: &mut Cluster<D, Scripted>, commands: u32)
    requires in_order { IsInOrder D.tells D.content D.may_leave nodes.old }
    ensures in_order { IsInOrder D.tells D.content D.may_leave nodes.new }
{
    for slot in 0..commands {
        let Some(command) = drawn(nodes, 0) else {
            assert!(rt; false);
            return;
        };
        let (_, end) = attempted(rt.alloc(), nodes, 0, &command);
        drop(command);
        assert_eq!(rt; end, Placed(slot));
    }
}

/// What becomes of the exchanges of an attempt with a peer that lacks 40 commands: its status, three exchanges in which it is told
/// them, its promise, its vote, and the last one. Another would be the next fate.
const CATCHING_UP: [Fate; 8] = [Now, Now, Now, Now, Now, Now, Later, Mute];

fn check_behind<D: Disk>(rt: &(impl Abort + AllocGlobal), nodes: &mut Cluster<D, Scripted>)
    requires { IsInOrder D.tells D.content D.may_leave nodes.old }
{
    set(nodes, 4, true, [Later].as_slice());
    place(rt, nodes, 40);
    assert_eq!(rt; lists(nodes), [40, 40, 40, 40, 0]);
    set(nodes, 4, false, CATCHING_UP.as_slice());
    check(rt, nodes, 0, [(Placed(40), 205)].as_slice());
    assert_eq!(rt; lists(nodes), [41, 41, 41, 41, 40]);
    assert_eq!(rt; nodes.courier().fate(4), Mute);
}

#[test]
fn a_peer_catches_up_by_sixteen_commands_an_exchange(rt: HostRuntime) -> Result<(), Fail> {
    let Some(mut nodes) = created(rt.alloc()) else {
        assert!(rt; false);
        return Ok(());
    };
    check_behind(&rt, &mut nodes);
    drop(nodes);
    Ok(())
}

/// Attempts of node 0 with one peer that is up.
const FEW: [(End, u64); 3] = [
    (Disturbed(0, 17), 5),
    (Disturbed(0, 17), 10),
    (Disturbed(0, 17), 15),
];

fn check_crashed<D: Disk + Rig>(rt: &(impl Abort + AllocGlobal), nodes: &mut Cluster<D, Scripted>)
    requires { IsInOrder D.tells D.content D.may_leave nodes.old }
{
    nodes.crash(1);
    nodes.crash(2);
    nodes.crash(3);
    check(rt, nodes, 0, FEW.as_slice());
    assert_eq!(rt; lists(nodes), [0, 0, 0, 0, 0]);
}

#[test]
fn a_minority_places_nothing(rt: HostRuntime) -> Result<(), Fail> {
    let Some(mut nodes) = created(rt.alloc()) else {
        assert!(rt; false);
        return Ok(());
    };
    check_crashed(&rt, &mut nodes);
    drop(nodes);
    Ok(())
}
