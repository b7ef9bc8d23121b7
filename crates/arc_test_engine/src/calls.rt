//! How calls end while exchanges fail or nodes are down.
ghost use Rattle.std.specs.Prelude.{◌<◌, ◌≤◌, length, IfOk};
ghost use Rattle.arc_data.specs.Valid.{IsValid};
ghost use Rattle.arc_engine.specs.Engine.{IsInOrder};

use crate::engine::{Became, End, called, set, started};
use Became::{Done, Taken};
use End::{Answered, Down, Full, Unavailable};
use arc_courier::Fate::{Later, Now};
use arc_courier::{Fate, Scripted};
use arc_data::{ControlId, Op, PanelId, Text};
use arc_disk::{Disk, Rig};
use arc_engine::Engine;
use std::alloc::Global;
use std::process::Abort;
use std::test::Fail;

/// What becomes of three exchanges of an attempt whose accept and learn are withheld, again and again.
const WITHHELD: [Fate; 3] = [Now, Now, Later];

/// Chooses the fates of nodes 2, 3 and 4.
pub(crate) fn set_three<D: Disk>(engine: &mut Engine<D, Scripted>, cycle: bool, fates: &[Fate])
    requires some { 1 ≤ length fates.now }
    requires most { length fates.now ≤ 64 }
    requires in_order { IsInOrder D.tells D.content D.may_leave engine.old }
    ensures in_order { IsInOrder D.tells D.content D.may_leave engine.new }
{
    set(engine, 2, cycle, fates);
    set(engine, 3, cycle, fates);
    set(engine, 4, cycle, fates);
}

fn check_retry<D: Disk>(rt: &(impl Abort + AllocGlobal), engine: &mut Engine<D, Scripted>, new: &Op)
    requires valid { IsValid new.now }
    requires in_order { IsInOrder D.tells D.content D.may_leave engine.old }
{
    set_three(engine, true, WITHHELD.as_slice());
    assert_eq!(rt;
        called(rt.alloc(), engine, 0, new),
        Unavailable([0; 8], [3; 8])
    );
    assert_eq!(rt; engine.applied_lens(), [Some(0); 5]);
    set_three(engine, false, [Now].as_slice());
    assert_eq!(rt;
        called(rt.alloc(), engine, 0, new),
        Answered(1, 2, Taken(1))
    );
    assert_eq!(rt; engine.applied_lens(), [Some(2); 5]);
}

/// The creation of a control `a`.
fn creation(alloc: Global) -> Result<Op, Fail>
    ensures { IfOk result IsValid }
{
    Ok(Op::CreateRoutingControl {
        name: Text::of(alloc, "a")?,
        panel: PanelId(1),
    })
}

#[test]
fn a_retry_is_a_second_command(rt: HostRuntime) -> Result<(), Fail> {
    let new = creation(rt.alloc())?;
    match started(rt.alloc(), 64) {
        Some(mut engine) => {
            check_retry(&rt, &mut engine, &new);
            drop(engine);
        }
        None => assert!(rt; false),
    }
    drop(new);
    Ok(())
}

/// What becomes of the exchanges of nine attempts: the three first are lost at their beginning, the fourth happens, and the others
/// are lost.
const DISTURBED: [Fate; 12] = [
    Later, Later, Later, Now, Now, Now, Now, Later, Later, Later, Later, Later,
];

fn check_tallies<D: Disk>(rt: &(impl Abort + AllocGlobal), engine: &mut Engine<D, Scripted>)
    requires { IsInOrder D.tells D.content D.may_leave engine.old }
{
    set_three(engine, true, WITHHELD.as_slice());
    assert_eq!(rt;
        called(rt.alloc(), engine, 1, &READ),
        Unavailable([0; 8], [3; 8])
    );
    set_three(engine, false, DISTURBED.as_slice());
    assert_eq!(rt;
        called(rt.alloc(), engine, 0, &READ),
        Unavailable([0, 0, 0, 1, 1, 1, 1, 1], [3; 8])
    );
    assert_eq!(rt; engine.applied_lens(), [Some(1); 5]);
}

#[test]
fn a_slot_that_another_command_took_is_no_disturbance(rt: HostRuntime) -> Result<(), Fail> {
    let Some(mut engine) = started(rt.alloc(), 64) else {
        assert!(rt; false);
        return Ok(());
    };
    check_tallies(&rt, &mut engine);
    drop(engine);
    Ok(())
}

/// A read of control 1.
pub(crate) const READ: Op = Op::GetRoutingControlState {
    control: ControlId(1),
};

/// Calls so many reads by way of node 0, each of which is answered at the next slot from 0 on.
fn read<D: Disk>(rt: &(impl Abort + AllocGlobal), engine: &mut Engine<D, Scripted>, calls: u32)
    requires in_order { IsInOrder D.tells D.content D.may_leave engine.old }
    ensures in_order { IsInOrder D.tells D.content D.may_leave engine.new }
{
    for slot in 0..calls {
        assert_eq!(rt;
            called(rt.alloc(), engine, 0, &READ),
            Answered(slot, u64::from(slot) + 1, Became::Refused)
        );
    }
}

fn check_behind<D: Disk>(rt: &(impl Abort + AllocGlobal), engine: &mut Engine<D, Scripted>)
    requires { IsInOrder D.tells D.content D.may_leave engine.old }
{
    set(engine, 4, true, [Later].as_slice());
    read(rt, engine, 100);
    assert_eq!(rt;
        engine.applied_lens(),
        [Some(100), Some(100), Some(100), Some(100), Some(0)]
    );
    set(engine, 4, false, [Now].as_slice());
    assert_eq!(rt;
        called(rt.alloc(), engine, 4, &READ),
        Answered(100, 101, Became::Refused)
    );
    assert_eq!(rt; engine.applied_lens(), [Some(101); 5]);
}

#[test]
fn an_endpoint_that_is_behind_by_100_commands_catches_up(rt: HostRuntime) -> Result<(), Fail> {
    let Some(mut engine) = started(rt.alloc(), 128) else {
        assert!(rt; false);
        return Ok(());
    };
    check_behind(&rt, &mut engine);
    drop(engine);
    Ok(())
}

fn check_full<D: Disk + Rig>(rt: &(impl Abort + AllocGlobal), engine: &mut Engine<D, Scripted>)
    requires { IsInOrder D.tells D.content D.may_leave engine.old }
{
    read(rt, engine, 7);
    engine.crash(1);
    assert_eq!(rt; called(rt.alloc(), engine, 1, &READ), Down(1));
    assert_eq!(rt;
        called(rt.alloc(), engine, 0, &READ),
        Answered(7, 8, Became::Refused)
    );
    engine.crash(0);
    assert_eq!(rt; called(rt.alloc(), engine, 0, &READ), Full(8));
    assert_eq!(rt; called(rt.alloc(), engine, 2, &READ), Full(8));
}

#[test]
fn a_full_list_is_told_on_a_down_node_too(rt: HostRuntime) -> Result<(), Fail> {
    let Some(mut engine) = started(rt.alloc(), 8) else {
        assert!(rt; false);
        return Ok(());
    };
    check_full(&rt, &mut engine);
    drop(engine);
    Ok(())
}
