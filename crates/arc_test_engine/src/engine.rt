//! Engines with disks in memory and a scripted courier, and what is done with them.
ghost use Rattle.std.specs.Prelude.{◌≡◌, ◌<◌, ◌≤◌, length, IfSome};
ghost use Rattle.arc_data.specs.Valid.{IsValid};
ghost use Rattle.arc_engine.specs.Engine.{IsInOrder};

use arc_bytes::Five;
use arc_cluster::Tally;
use arc_courier::{Courier, Fate, Scripted};
use arc_data::{ControlId, Named, Op, Refusal, Reply};
use arc_disk::{Disk, MemoryDisk};
use arc_engine::{CallEnd, Engine};
use std::alloc::Global;

/// A new engine for a list of so many commands, all of whose exchanges happen.
pub(crate) fn started(alloc: Global, max_slots: u32) -> Option<Engine<MemoryDisk, Scripted>>
    requires some { 1 ≤ max_slots }
    requires most { max_slots ≤ 16384 }
    ensures { IfSome result (λ made.
        IsInOrder ⟦<MemoryDisk as Disk>⟧.tells ⟦<MemoryDisk as Disk>⟧.content ⟦<MemoryDisk as Disk>⟧.may_leave made) }
{
    let disks = Five {
        d0: MemoryDisk::new(alloc, Vec::new(alloc)),
        d1: MemoryDisk::new(alloc, Vec::new(alloc)),
        d2: MemoryDisk::new(alloc, Vec::new(alloc)),
        d3: MemoryDisk::new(alloc, Vec::new(alloc)),
        d4: MemoryDisk::new(alloc, Vec::new(alloc)),
    };
    Engine::start(alloc, disks, Scripted::new(), max_slots).ok()
}

/// Chooses the fates of a peer: whether they cycle, and which they are.
pub(crate) fn set<D: Disk>(engine: &mut Engine<D, Scripted>, peer: u8, cycle: bool, fates: &[Fate])
    requires peer { peer < 5 }
    requires some { 1 ≤ length fates.now }
    requires most { length fates.now ≤ 64 }
    requires in_order { IsInOrder D.tells D.content D.may_leave engine.old }
    ensures in_order { IsInOrder D.tells D.content D.may_leave engine.new }
{
    engine.courier().set(peer, cycle, fates);
}

/// What became of an operation.
#[derive(Clone, Copy, Debug, PartialEq, Eq)]
pub(crate) enum Became {
    Done,
    /// This control has the name.
    Taken(u64),
    Refused,
}

fn effect_of(reply: &Reply) -> Became {
    match reply {
        Reply::Refused(
            Refusal::NameTaken {
                id: Named::Control(ControlId(control)),
            },
        ) => Became::Taken(*control),
        Reply::Refused(_) => Became::Refused,
        _ => Became::Done,
    }
}

/// How a call ended.
#[derive(Clone, Copy, Debug, PartialEq, Eq)]
pub(crate) enum End {
    /// The slot, the token, and what became of the operation.
    Answered(u32, u64, Became),
    /// The slots of the tallies, and the clear nodes of each in binary digits.
    Unavailable([u32; 8], [u8; 8]),
    Down(u8),
    Full(u32),
    Memory,
}

fn slots_of(t: &[Tally; 8]) -> [u32; 8] {
    [
        t[0].slot, t[1].slot, t[2].slot, t[3].slot, t[4].slot, t[5].slot, t[6].slot, t[7].slot,
    ]
}

fn clear_in(t: &[Tally; 8]) -> [u8; 8] {
    [
        t[0].clear, t[1].clear, t[2].clear, t[3].clear, t[4].clear, t[5].clear, t[6].clear,
        t[7].clear,
    ]
}

/// Calls an operation by way of an endpoint, without a token.
pub(crate) fn called<D: Disk, C: Courier + Drop>(
    alloc: Global,
    engine: &mut Engine<D, C>,
    node: u8,
    op: &Op,
) -> End
    requires of_five { node < 5 }
    requires valid { IsValid op.now }
    requires in_order { IsInOrder D.tells D.content D.may_leave engine.old }
    ensures in_order { IsInOrder D.tells D.content D.may_leave engine.new }
{
    match engine.call(alloc, node, 0, 0, op) {
        CallEnd::Answered { slot, reply, token } => {
            let what = effect_of(&reply);
            drop(reply);
            End::Answered(slot, token, what)
        }
        CallEnd::Unavailable { tallies } => End::Unavailable(
            slots_of(&tallies),
            clear_in(&tallies),
        ),
        CallEnd::NodeDown { node } => End::Down(node),
        CallEnd::ListFull { length } => End::Full(length),
        CallEnd::Memory => End::Memory,
    }
}
