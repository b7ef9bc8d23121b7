//! Held messages that come late, and a node that stops in a call and is started again.
ghost use Rattle.std.specs.Prelude.{◌<◌};
ghost use Rattle.arc_engine.specs.Engine.{IsInOrder};

use crate::calls::{READ, set_three};
use crate::engine::{Became, End, called, set, started};
use End::{Answered, Down, Unavailable};
use Step::{Arm, Call, Crash, Deliver, Length, Restart};
use Told::{Ended, Learned, Long, NoSuch, Nothing, Up};
use arc_cluster::Delivered;
use arc_courier::Fate::{Later, Now};
use arc_courier::{Fate, Scripted};
use arc_data::Answer;
use arc_disk::{Disk, Rig};
use arc_engine::Engine;
use arc_node::Restart as Start;
use std::alloc::Global;
use std::process::Abort;
use std::test::Fail;

/// What is done with an engine.
#[derive(Clone, Copy)]
enum Step {
    /// A read is called by way of this node.
    Call(u8),
    /// The held message with this number is delivered.
    Deliver(u32),
    /// The disk of this node is to stop in this device call.
    Arm(u8, u32),
    Crash(u8),
    Restart(u8),
    /// The length of the list is asked.
    Length,
}

/// What it tells.
#[derive(Clone, Copy, Debug, PartialEq, Eq)]
enum Told {
    Ended(End),
    /// How many commands the node that got the message has.
    Learned(u32),
    /// How many messages are held.
    NoSuch(u32),
    /// The number of the start.
    Up(u32),
    Long(u64),
    Nothing,
    Else,
}

/// Delivers a held message.
fn delivered<D: Disk>(alloc: Global, engine: &mut Engine<D, Scripted>, number: u32) -> Told
    requires in_order { IsInOrder D.tells D.content D.may_leave engine.old }
    ensures in_order { IsInOrder D.tells D.content D.may_leave engine.new }
{
    match engine.deliver(alloc, number) {
        Delivered::Answered(answer) => {
            let told = match &answer {
                Answer::Learned { length } => Learned(*length),
                _ => Told::Else,
            };
            drop(answer);
            told
        }
        Delivered::NoSuch { held } => NoSuch(held),
        _ => Told::Else,
    }
}

/// Starts a node again.
fn restarted<D: Disk>(alloc: Global, engine: &mut Engine<D, Scripted>, node: u8) -> Told
    requires of_five { node < 5 }
    requires in_order { IsInOrder D.tells D.content D.may_leave engine.old }
    ensures in_order { IsInOrder D.tells D.content D.may_leave engine.new }
{
    match engine.restart(alloc, node) {
        Start::Up { inc } => Up(inc),
        other => {
            drop(other);
            Told::Else
        }
    }
}

/// Does a step, of a node below 5.
fn done<D: Disk + Rig>(alloc: Global, engine: &mut Engine<D, Scripted>, step: Step) -> Told
    requires in_order { IsInOrder D.tells D.content D.may_leave engine.old }
    ensures in_order { IsInOrder D.tells D.content D.may_leave engine.new }
{
    match step {
        Call(node) if node < 5 => Ended(called(alloc, engine, node, &READ)),
        Deliver(number) => delivered(alloc, engine, number),
        Arm(node, calls) if node < 5 => {
            engine.arm(node, calls, 0);
            Nothing
        }
        Crash(node) if node < 5 => {
            engine.crash(node);
            Nothing
        }
        Restart(node) if node < 5 => restarted(alloc, engine, node),
        Length => Long(engine.list_len()),
        _ => Told::Else,
    }
}

/// Does these steps, each of which tells what stands beside it.
fn check_steps<D: Disk + Rig>(
    rt: &(impl Abort + AllocGlobal),
    engine: &mut Engine<D, Scripted>,
    rows: &[(Step, Told)],
)
    requires in_order { IsInOrder D.tells D.content D.may_leave engine.old }
    ensures in_order { IsInOrder D.tells D.content D.may_leave engine.new }
{
    for (step, wanted) in rows {
        let told = done(rt.alloc(), engine, *step);
        assert_eq!(rt; told, *wanted);
    }
}

/// What becomes of the exchanges of an attempt whose last one is held.
const LAST_HELD: [Fate; 4] = [Now, Now, Now, Later];

/// A peer learns a command late, and hears of it again.
const LATE: [(Step, Told); 6] = [
    (Call(0), Ended(Answered(0, 1, Became::Refused))),
    (Deliver(1), NoSuch(1)),
    (Deliver(0), Learned(1)),
    (Deliver(0), Learned(1)),
    (Call(1), Ended(Answered(1, 2, Became::Refused))),
    (Length, Long(2)),
];

fn check_late<D: Disk + Rig>(rt: &(impl Abort + AllocGlobal), engine: &mut Engine<D, Scripted>)
    requires { IsInOrder D.tells D.content D.may_leave engine.old }
{
    set(engine, 1, false, LAST_HELD.as_slice());
    check_steps(rt, engine, LATE.as_slice());
    assert_eq!(rt; engine.applied_lens(), [Some(2); 5]);
}

#[test]
fn a_held_message_comes_late_and_again(rt: HostRuntime) -> Result<(), Fail> {
    let Some(mut engine) = started(rt.alloc(), 64) else {
        assert!(rt; false);
        return Ok(());
    };
    check_late(&rt, &mut engine);
    drop(engine);
    Ok(())
}

/// Each attempt asks node 1 alone for a promise, which takes four device calls: its disk stops in the second attempt.
const STOPS: [(Step, Told); 7] = [
    (Arm(1, 4), Nothing),
    (
        Call(0),
        Ended(Unavailable([0; 8], [3, 1, 1, 1, 1, 1, 1, 1])),
    ),
    (Call(1), Ended(Down(1))),
    (Length, Long(0)),
    (Crash(1), Nothing),
    (Restart(1), Up(2)),
    (Call(1), Ended(Unavailable([0; 8], [3; 8]))),
];

/// Then the other three are there again.
const GOES_ON: [(Step, Told); 2] = [
    (Call(1), Ended(Answered(0, 1, Became::Refused))),
    (Call(0), Ended(Answered(1, 2, Became::Refused))),
];

fn check_stops<D: Disk + Rig>(rt: &(impl Abort + AllocGlobal), engine: &mut Engine<D, Scripted>)
    requires { IsInOrder D.tells D.content D.may_leave engine.old }
{
    set_three(engine, true, [Later].as_slice());
    check_steps(rt, engine, STOPS.as_slice());
    set_three(engine, false, [Now].as_slice());
    check_steps(rt, engine, GOES_ON.as_slice());
    assert_eq!(rt; engine.applied_lens(), [Some(2); 5]);
}

#[test]
fn a_node_stops_in_a_call_and_is_started_again(rt: HostRuntime) -> Result<(), Fail> {
    let Some(mut engine) = started(rt.alloc(), 64) else {
        assert!(rt; false);
        return Ok(());
    };
    check_stops(&rt, &mut engine);
    drop(engine);
    Ok(())
}
