//! A node that is started again.
ghost use Rattle.std.specs.Prelude.{◌≡◌, IfOk};
ghost use Rattle.arc_drill.specs.Since.{Since};
ghost use Rattle.arc_drill.specs.Steps.{SpellsStart, StartsAgain, start_of};
ghost use Rattle.arc_node.specs.Node.{HasVotesInPlace, IsInOrder, IsSameNode, disk_in};

use crate::lines;
use arc_bytes::Memory;
use arc_disk::Rig;
use arc_node::{Node, Restart};
use std::alloc::Global;

/// How a start ended.
#[derive(Clone, Copy)]
pub(crate) enum Start {
    /// The node is up, for the time with this number.
    Up { inc: u32 },
    /// The journal is full, with so many entries.
    Full { count: u32 },
    /// The disk failed.
    Disk,
    /// The disk has no journal of the node.
    NotOurs { place: u64 },
    /// An entry on the disk isn't what was written.
    Rotten { place: u64 },
    /// The disk has other entries than the node.
    Damaged { place: u32 },
    /// There was no memory left.
    Memory,
}

/// Starts the node again. The disk of one that isn't up crashes before that.
pub(crate) fn start_again<D: Rig>(alloc: Global, node: &mut Node<D>) -> Start
    requires in_order { IsInOrder D.tells D.content D.may_leave node.old }
    requires in_place { HasVotesInPlace node.old }
    ensures in_order { IsInOrder D.tells D.content D.may_leave node.new }
    ensures in_place { HasVotesInPlace node.new }
    ensures starts { StartsAgain D.tells D.faults node.old node.new result }
    ensures since { Since D.faults D.stops_in D.is_tame (disk_in node.old) (disk_in node.new) }
    ensures same { IsSameNode node.old node.new }
{
    if !node.is_up() {
        node.crash();
        return reopen(alloc, node);
    }
    reopen(alloc, node)
}

/// Starts the node again from what is on its disk.
fn reopen<D: Rig>(alloc: Global, node: &mut Node<D>) -> Start
    requires in_order { IsInOrder D.tells D.content D.may_leave node.old }
    requires in_place { HasVotesInPlace node.old }
    ensures in_order { IsInOrder D.tells D.content D.may_leave node.new }
    ensures in_place { HasVotesInPlace node.new }
    ensures starts { StartsAgain D.tells D.faults node.old node.new result }
    ensures since { Since D.faults D.stops_in D.is_tame (disk_in node.old) (disk_in node.new) }
    ensures same { IsSameNode node.old node.new }
{
    let end = node.restart(alloc);
    let start = end_of(&end);
    drop(end);
    start
}

/// How a start ended, without the entries that were found.
fn end_of(end: &Restart) -> Start
    ensures { result ≡ start_of end.now }
{
    match end {
        Restart::Up { inc } => Start::Up { inc: *inc },
        Restart::Full { count } => Start::Full { count: *count },
        Restart::Disk => Start::Disk,
        Restart::NotOurs { place } => Start::NotOurs { place: *place },
        Restart::Rotten { place, .. } => Start::Rotten { place: *place },
        Restart::Damaged { place, .. } => Start::Damaged { place: *place },
        Restart::Memory => Start::Memory,
    }
}

/// `restart 0`, and how it ended.
pub(crate) fn line_of(alloc: Global, start: Start) -> Result<Vec<u8>, Memory>
    ensures { IfOk result (λ line. SpellsStart start line.items) }
{
    match start {
        Start::Up { inc } => lines::numbered(alloc, "restart 0 up ", u64::from(inc)),
        Start::Full { count } => lines::numbered(alloc, "restart 0 full ", u64::from(count)),
        Start::Disk => lines::fixed(alloc, "restart 0 disk\n"),
        Start::NotOurs { place } => lines::numbered(alloc, "restart 0 notours ", place),
        Start::Rotten { place } => lines::numbered(alloc, "restart 0 rotten ", place),
        Start::Damaged { place } => {
            lines::numbered(alloc, "restart 0 damaged ", u64::from(place))
        }
        Start::Memory => Err(Memory),
    }
}
