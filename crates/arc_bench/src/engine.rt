//! Calls of one batch at node 0 of five, one after another, while each exchange happens. The disks are in memory.
ghost use Rattle.std.specs.Prelude.{IfOk, IfSome};
ghost use Rattle.arc_data.specs.Valid.{IsValid};
ghost use Rattle.arc_engine.specs.Engine.{IsInOrder};

use arc_bytes::Five;
use arc_courier::{Courier, Direct};
use arc_data::Op;
use arc_disk::{Disk, MemoryDisk};
use arc_engine::{CallEnd, Engine};
use arc_json::{RequestEnd, read_op};
use std::alloc::Global;

/// The greatest length of the list.
const SLOTS: u32 = 16_384;

/// A batch with this body.
fn batch(alloc: Global, body: &[u8]) -> Result<Op, RequestEnd>
    ensures { IfOk result IsValid }
{
    read_op(alloc, b"UpdateRoutingControlStates", body)
}

/// Calls the batch at node 0, and tells whether it was answered.
fn is_answered<D: Disk, C: Courier + Drop>(
    alloc: Global,
    engine: &mut Engine<D, C>,
    op: &Op,
) -> bool
    requires in_order { IsInOrder D.tells D.content D.may_leave engine.old }
    requires valid { IsValid op.now }
    ensures in_order { IsInOrder D.tells D.content D.may_leave engine.new }
{
    match engine.call(alloc, 0, 1000, 0, op) {
        CallEnd::Answered { reply, .. } => {
            drop(reply);
            true
        }
        _ => false,
    }
}

/// Calls the batch so often.
fn call_all<D: Disk, C: Courier + Drop>(
    alloc: Global,
    engine: &mut Engine<D, C>,
    op: &Op,
    calls: u32,
)
    requires in_order { IsInOrder D.tells D.content D.may_leave engine.old }
    requires valid { IsValid op.now }
{
    for _ in 0..calls {
        if !is_answered(alloc, engine, op) {
            return;
        }
    }
}

/// A new engine over empty disks in memory, or none where it can't be made.
fn started(alloc: Global) -> Option<Engine<MemoryDisk, Direct>>
    ensures { IfSome result (λ made.
        IsInOrder ⟦<MemoryDisk as Disk>⟧.tells ⟦<MemoryDisk as Disk>⟧.content ⟦<MemoryDisk as Disk>⟧.may_leave made) }
{
    let disks = Five {
        d0: MemoryDisk::new(alloc, Vec::new(alloc)),
        d1: MemoryDisk::new(alloc, Vec::new(alloc)),
        d2: MemoryDisk::new(alloc, Vec::new(alloc)),
        d3: MemoryDisk::new(alloc, Vec::new(alloc)),
        d4: MemoryDisk::new(alloc, Vec::new(alloc)),
    };
    Engine::start(alloc, disks, Direct, SLOTS).ok()
}

/// Calls a batch with this body so often, and tells how long the list is then.
pub fn calls(alloc: Global, body: &[u8], calls: u32) -> usize {
    let Ok(op) = batch(alloc, body) else {
        return 0;
    };
    let Some(mut engine) = started(alloc) else {
        drop(op);
        return 0;
    };
    call_all(alloc, &mut engine, &op, calls);
    drop(op);
    let length = engine.list_len() as usize;
    drop(engine);
    length
}
