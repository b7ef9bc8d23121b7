//! Messages that are held, and delivered later: in any order, and again.
ghost use Rattle.std.specs.Prelude.{◌<◌};
ghost use Rattle.arc_cluster.specs.Cluster.{IsInOrder};

use crate::attempts::{DISTURBED, WITHHELD, check};
use crate::five::End::Placed;
use crate::five::{created, lists, set};
use Delivery::{Accepted, At, Behind, Down, Known, Learned, NoSuch, Promise, Refused};
use arc_cluster::{Cluster, Delivered};
use arc_courier::Fate::{Later, Mute, Now};
use arc_courier::{Fate, Scripted};
use arc_data::Answer;
use arc_disk::{Disk, Rig};
use std::alloc::Global;
use std::process::Abort;
use std::test::Fail;

/// How a delivery ended.
#[derive(Clone, Copy, Debug, PartialEq, Eq)]
enum Delivery {
    /// The length of the list, the promise, and whether the slot that was asked for is closed.
    At(u32, u64, bool),
    /// The slot.
    Known(u32),
    /// The length of the list.
    Behind(u32),
    /// The promise.
    Refused(u64),
    /// The ballot, and whether a vote was told.
    Promise(u64, bool),
    /// The ballot.
    Accepted(u64),
    /// The length of the list.
    Learned(u32),
    /// The node.
    Down(u8),
    /// How many messages are held.
    NoSuch(u32),
    Memory,
}

/// What a node answered.
fn answered(answer: &Answer) -> Delivery {
    match answer {
        Answer::At {
            length,
            ballot,
            known,
        } => At(*length, *ballot, known.is_some()),
        Answer::Known { slot, .. } => Known(*slot),
        Answer::Behind { length } => Behind(*length),
        Answer::Refused { ballot } => Refused(*ballot),
        Answer::Promise { ballot, vote, .. } => Promise(*ballot, vote.is_some()),
        Answer::Accepted { ballot, .. } => Accepted(*ballot),
        Answer::Learned { length } => Learned(*length),
    }
}

/// Delivers a held message.
fn delivered<D: Disk>(alloc: Global, nodes: &mut Cluster<D, Scripted>, number: u32) -> Delivery
    requires in_order { IsInOrder D.tells D.content D.may_leave nodes.old }
    ensures in_order { IsInOrder D.tells D.content D.may_leave nodes.new }
{
    match nodes.deliver(alloc, number) {
        Delivered::Answered(answer) => {
            let shown = answered(&answer);
            drop(answer);
            shown
        }
        Delivered::NodeDown { node } => Down(node),
        Delivered::NoSuch { held } => NoSuch(held),
        Delivered::Memory => Delivery::Memory,
    }
}

/// Delivers the held messages with these numbers, one after another.
fn check_deliveries<D: Disk>(
    rt: &(impl Abort + AllocGlobal),
    nodes: &mut Cluster<D, Scripted>,
    rows: &[(u32, Delivery)],
)
    requires in_order { IsInOrder D.tells D.content D.may_leave nodes.old }
    ensures in_order { IsInOrder D.tells D.content D.may_leave nodes.new }
{
    for (number, wanted) in rows {
        let end = delivered(rt.alloc(), nodes, *number);
        assert_eq!(rt; end, *wanted, "message {number}");
    }
}

/// Three accepts of each of eight attempts are held. The first asks for less than the node promised since; the last but
/// two gives the ballot its third vote, of which nobody hears.
const OF_DISTURBED: [(u32, Delivery); 4] = [
    (0, Refused(40)),
    (21, Accepted(40)),
    (21, Accepted(40)),
    (24, NoSuch(24)),
];

/// What is held for a node that is down stays held.
const OF_DOWN: [(u32, Delivery); 3] = [(22, Down(3)), (23, Accepted(40)), (24, NoSuch(24))];

fn check_accepts<D: Disk + Rig>(rt: &(impl Abort + AllocGlobal), nodes: &mut Cluster<D, Scripted>)
    requires { IsInOrder D.tells D.content D.may_leave nodes.old }
{
    set(nodes, 2, true, WITHHELD.as_slice());
    set(nodes, 3, true, WITHHELD.as_slice());
    set(nodes, 4, true, WITHHELD.as_slice());
    check(rt, nodes, 0, DISTURBED.as_slice());
    check_deliveries(rt, nodes, OF_DISTURBED.as_slice());
    assert_eq!(rt; lists(nodes), [0, 0, 0, 0, 0]);
    nodes.crash(3);
    check_deliveries(rt, nodes, OF_DOWN.as_slice());
    assert_eq!(rt; lists(nodes), [0, 0, 0, 0, 0]);
}

#[test]
fn accepts_that_come_late(rt: HostRuntime) -> Result<(), Fail> {
    let Some(mut nodes) = created(rt.alloc()) else {
        assert!(rt; false);
        return Ok(());
    };
    check_accepts(&rt, &mut nodes);
    drop(nodes);
    Ok(())
}

/// The last exchange of an attempt is held.
const LAST_HELD: [Fate; 4] = [Now, Now, Now, Later];

/// The same message again and again.
const REPEATED: [(u32, Delivery); 4] = [
    (0, Learned(1)),
    (0, Learned(1)),
    (0, Learned(1)),
    (1, NoSuch(1)),
];

fn check_repeated<D: Disk>(rt: &(impl Abort + AllocGlobal), nodes: &mut Cluster<D, Scripted>)
    requires { IsInOrder D.tells D.content D.may_leave nodes.old }
{
    set(nodes, 1, false, LAST_HELD.as_slice());
    check(rt, nodes, 0, [(Placed(0), 5)].as_slice());
    assert_eq!(rt; lists(nodes), [1, 0, 1, 1, 1]);
    check_deliveries(rt, nodes, REPEATED.as_slice());
    assert_eq!(rt; lists(nodes), [1, 1, 1, 1, 1]);
}

#[test]
fn a_command_that_is_told_again_and_again(rt: HostRuntime) -> Result<(), Fail> {
    let Some(mut nodes) = created(rt.alloc()) else {
        assert!(rt; false);
        return Ok(());
    };
    check_repeated(&rt, &mut nodes);
    drop(nodes);
    Ok(())
}

/// A status for node 1 is held, and a prepare for node 2.
const ASKED: [(u32, Delivery); 2] = [(0, At(0, 0, false)), (1, Promise(5, false))];

/// Node 1 lacks two commands, which it was told in one exchange that is held. The second is no use to it without the
/// first. Node 2 has the first by now.
const TOLD: [(u32, Delivery); 6] = [
    (3, Behind(0)),
    (2, Learned(1)),
    (3, Learned(2)),
    (0, At(2, 0, true)),
    (1, Known(0)),
    (4, NoSuch(4)),
];

fn check_each_answer<D: Disk>(rt: &(impl Abort + AllocGlobal), nodes: &mut Cluster<D, Scripted>)
    requires { IsInOrder D.tells D.content D.may_leave nodes.old }
{
    set(nodes, 1, false, [Later].as_slice());
    set(nodes, 2, false, [Now, Later].as_slice());
    check(rt, nodes, 0, [(Placed(0), 5)].as_slice());
    check_deliveries(rt, nodes, ASKED.as_slice());
    assert_eq!(rt; lists(nodes), [1, 0, 0, 1, 1]);
    set(nodes, 1, false, [Mute].as_slice());
    check(rt, nodes, 0, [(Placed(1), 10)].as_slice());
    set(nodes, 1, false, [Now, Later].as_slice());
    check(rt, nodes, 0, [(Placed(2), 15)].as_slice());
    assert_eq!(rt; lists(nodes), [3, 0, 3, 3, 3]);
    check_deliveries(rt, nodes, TOLD.as_slice());
    assert_eq!(rt; lists(nodes), [3, 2, 3, 3, 3]);
}

#[test]
fn each_answer_to_a_message_that_comes_late(rt: HostRuntime) -> Result<(), Fail> {
    let Some(mut nodes) = created(rt.alloc()) else {
        assert!(rt; false);
        return Ok(());
    };
    check_each_answer(&rt, &mut nodes);
    drop(nodes);
    Ok(())
}
