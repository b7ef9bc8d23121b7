//! A node that votes for commands and closes their slots, one after another, and one that is opened over a journal.
ghost use Rattle.std.specs.Prelude.{◌≡◌, ◌≤◌, ◌<◌};
ghost use Rattle.arc_data.specs.Valid.{IsValidCommand};
ghost use Rattle.arc_node.specs.Handling.{IsReceivable};
ghost use Rattle.arc_node.specs.Node.{HasVotesInPlace, IsInOrder, slots_in};

use crate::journal::disk_of;
use arc_data::{Command, CommandId, ControlId, Message, Op};
use arc_disk::{Disk, MemoryDisk};
use arc_node::{HandleEnd, Node};
use std::alloc::Global;

/// The greatest length of the list.
const SLOTS: u32 = 16_384;

/// The command of each slot.
fn command() -> Command
    ensures { IsValidCommand result }
{
    let id = CommandId {
        node: 0,
        inc: 1,
        n: 0,
    };
    Command {
        id,
        at_ms: 1000,
        token: 0,
        op: Op::GetRoutingControlState {
            control: ControlId(1),
        },
    }
}

/// Hands the node a message, and tells whether it answers.
fn is_handled<D: Disk>(alloc: Global, node: &mut Node<D>, message: Message) -> bool
    requires in_order { IsInOrder D.tells D.content D.may_leave node.old }
    requires in_place { HasVotesInPlace node.old }
    requires message { IsReceivable (slots_in node.old) message }
    ensures in_order { IsInOrder D.tells D.content D.may_leave node.new }
    ensures in_place { HasVotesInPlace node.new }
    ensures slots { slots_in node.new ≡ slots_in node.old }
{
    let end = node.handle(alloc, &message);
    let is_handled = matches!(end, HandleEnd::Answered(_));
    drop(end);
    drop(message);
    is_handled
}

/// Lets the node vote at a slot in ballot 5, and close it, and tells whether it did.
fn is_closed<D: Disk>(alloc: Global, node: &mut Node<D>, slot: u32) -> bool
    requires in_order { IsInOrder D.tells D.content D.may_leave node.old }
    requires in_place { HasVotesInPlace node.old }
    requires below { slot < slots_in node.old }
    ensures in_order { IsInOrder D.tells D.content D.may_leave node.new }
    ensures in_place { HasVotesInPlace node.new }
    ensures slots { slots_in node.new ≡ slots_in node.old }
{
    let vote = Message::Accept {
        slot,
        ballot: 5,
        command: command(),
    };
    if !is_handled(alloc, node, vote) {
        return false;
    }
    let close = Message::Learn {
        slot,
        command: command(),
    };
    is_handled(alloc, node, close)
}

/// Lets a new node vote for so many commands and close their slots, and tells how long its list is then.
pub fn votes(alloc: Global, commands: u32) -> usize
    requires { commands ≤ 16384 }
{
    let disk = MemoryDisk::new(alloc, Vec::new(alloc));
    let Ok(mut node) = Node::create(alloc, disk, 0, SLOTS) else {
        return 0;
    };
    close_all(alloc, &mut node, commands);
    let length = node.applied_len() as usize;
    drop(node);
    length
}

/// Closes so many slots, from the first on.
fn close_all<D: Disk>(alloc: Global, node: &mut Node<D>, commands: u32)
    requires in_order { IsInOrder D.tells D.content D.may_leave node.old }
    requires in_place { HasVotesInPlace node.old }
    requires most { commands ≤ slots_in node.old }
    ensures in_order { IsInOrder D.tells D.content D.may_leave node.new }
{
    for slot in 0..commands {
        if !is_closed(alloc, node, slot) {
            return;
        }
    }
}

/// Opens node 0 over a journal with these bytes, and counts the entries that it keeps; 0 where it is refused.
pub fn open(alloc: Global, bytes: &[u8]) -> usize {
    let Ok(disk) = disk_of(alloc, bytes) else {
        return 0;
    };
    let Ok(node) = Node::load(alloc, disk, 0) else {
        return 0;
    };
    let count = node.records().len();
    drop(node);
    count
}
