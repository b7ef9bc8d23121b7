//! What becomes of a node that is told a command.
ghost use Rattle.std.specs.Prelude.{◌≡◌, ◌<◌, true};
ghost use Rattle.arc_data.specs.Entries.{closed_len};
ghost use Rattle.arc_data.specs.Valid.{IsValidCommand};
ghost use Rattle.arc_drill.specs.Since.{Since};
ghost use Rattle.arc_drill.specs.Steps.{HandlesAs, Learns, learned_of};
ghost use Rattle.arc_node.specs.Handling.{IsReceivable};
ghost use Rattle.arc_node.specs.Node.{HasVotesInPlace, IsInOrder, IsSameNode, disk_in, is_up, kept, slots_in};

use arc_bytes::Memory;
use arc_data::{Command, Message};
use arc_disk::Disk;
use arc_node::{HandleEnd, Node};
use std::alloc::Global;

/// How it ended that a node was told a command.
#[derive(Clone, Copy)]
pub(crate) enum Learned {
    /// The command stands in the node's list, and on its disk.
    Done,
    /// The node went down.
    Fallen,
    /// There was no memory left.
    Memory,
}

/// Tells an up node the command behind the end of its list.
pub(crate) fn learn<D: Disk>(
    alloc: Global,
    node: &mut Node<D>,
    slot: u32,
    command: &Command,
) -> Learned
    requires in_order { IsInOrder D.tells D.content D.may_leave node.old }
    requires in_place { HasVotesInPlace node.old }
    requires up { is_up node.old ≡ true }
    requires valid { IsValidCommand command.now }
    requires at_the_end { slot ≡ closed_len (kept node.old) }
    requires below { slot < slots_in node.old }
    ensures in_order { IsInOrder D.tells D.content D.may_leave node.new }
    ensures in_place { HasVotesInPlace node.new }
    ensures learns { Learns D.faults node.old node.new slot command.now result }
    ensures since { Since D.faults D.stops_in D.is_tame (disk_in node.old) (disk_in node.new) }
    ensures same { IsSameNode node.old node.new }
{
    match command.copy(alloc) {
        Ok(command) => tell(alloc, node, Message::Learn { slot, command }),
        Err(Memory) => Learned::Memory,
    }
}

/// Tells a node a message, which is gone then.
fn tell<D: Disk>(alloc: Global, node: &mut Node<D>, message: Message) -> Learned
    requires in_order { IsInOrder D.tells D.content D.may_leave node.old }
    requires in_place { HasVotesInPlace node.old }
    requires message { IsReceivable (slots_in node.old) message }
    ensures in_order { IsInOrder D.tells D.content D.may_leave node.new }
    ensures in_place { HasVotesInPlace node.new }
    ensures handles { HandlesAs D.faults node.old node.new message result }
    ensures since { Since D.faults D.stops_in D.is_tame (disk_in node.old) (disk_in node.new) }
    ensures same { IsSameNode node.old node.new }
{
    let learned = handle(alloc, node, &message);
    drop(message);
    learned
}

/// Tells a node a message.
fn handle<D: Disk>(alloc: Global, node: &mut Node<D>, message: &Message) -> Learned
    requires in_order { IsInOrder D.tells D.content D.may_leave node.old }
    requires in_place { HasVotesInPlace node.old }
    requires message { IsReceivable (slots_in node.old) message.now }
    ensures in_order { IsInOrder D.tells D.content D.may_leave node.new }
    ensures in_place { HasVotesInPlace node.new }
    ensures handles { HandlesAs D.faults node.old node.new message.now result }
    ensures since { Since D.faults D.stops_in D.is_tame (disk_in node.old) (disk_in node.new) }
    ensures same { IsSameNode node.old node.new }
{
    let end = node.handle(alloc, message);
    let learned = learned_of(&end);
    drop(end);
    learned
}

/// How it ended, without the answer.
fn learned_of(end: &HandleEnd) -> Learned
    ensures { result ≡ learned_of end.now }
{
    match end {
        HandleEnd::Answered(_) => Learned::Done,
        HandleEnd::Down => Learned::Fallen,
        HandleEnd::Memory => Learned::Memory,
    }
}
