//! Batches that node 0 of five places one after another, while each exchange happens. The disks are in memory.
ghost use Rattle.std.specs.Prelude.{◌≡◌, true, IfOk};
ghost use Rattle.arc_data.specs.Valid.{IsValidCommand};
ghost use Rattle.arc_cluster.specs.Cluster.{IsInOrder};
ghost use Rattle.arc_cluster.specs.Phases.{MayBeAttempted};

use arc_bytes::Five;
use arc_cluster::{Attempt, Cluster, new_commands_may_be_attempted};
use arc_courier::{Courier, Direct};
use arc_data::{Command, CommandId};
use arc_disk::{Disk, MemoryDisk};
use arc_json::{RequestEnd, read_op};
use std::alloc::Global;

/// The greatest length of the list.
const SLOTS: u32 = 16_384;

/// A command that is a batch with this body.
fn command_by(alloc: Global, body: &[u8]) -> Result<Command, RequestEnd>
    ensures { IfOk result IsValidCommand }
{
    let op = read_op(alloc, b"UpdateRoutingControlStates", body)?;
    let id = CommandId {
        node: 0,
        inc: 1,
        n: 0,
    };
    Ok(Command {
        id,
        at_ms: 1000,
        token: 0,
        op,
    })
}

/// Gives the command the next identifier of node 0, and tells whether that is up.
fn is_renewed<D: Disk, C: Courier + Drop>(nodes: &Cluster<D, C>, command: &mut Command) -> bool
    requires in_order { IsInOrder D.tells D.content D.may_leave nodes.now }
    requires valid { IsValidCommand command.old }
    ensures valid { IsValidCommand command.new }
    ensures may { result ≡ true → MayBeAttempted nodes.now.nodes 0 command.new }
{
    new_commands_may_be_attempted::<D>();
    let own = nodes.node(0);
    if !own.is_up() {
        return false;
    }
    command.id = own.next_id();
    true
}

/// Attempts the command anew at node 0, and tells whether it was placed.
fn is_placed<D: Disk, C: Courier + Drop>(
    alloc: Global,
    nodes: &mut Cluster<D, C>,
    command: &mut Command,
) -> bool
    requires in_order { IsInOrder D.tells D.content D.may_leave nodes.old }
    requires valid { IsValidCommand command.old }
    ensures in_order { IsInOrder D.tells D.content D.may_leave nodes.new }
    ensures valid { IsValidCommand command.new }
{
    if !is_renewed(nodes, command) {
        return false;
    }
    let end = nodes.attempt(alloc, 0, command);
    matches!(end, Attempt::Placed { .. })
}

/// Places the command so often.
fn place_all<D: Disk, C: Courier + Drop>(
    alloc: Global,
    nodes: &mut Cluster<D, C>,
    command: &mut Command,
    commands: u32,
)
    requires in_order { IsInOrder D.tells D.content D.may_leave nodes.old }
    requires valid { IsValidCommand command.old }
{
    for _ in 0..commands {
        if !is_placed(alloc, nodes, command) {
            return;
        }
    }
}

/// Five new nodes that have placed a batch with this body so often; none where there is no such batch or they can't be made.
pub fn filled(alloc: Global, body: &[u8], commands: u32) -> Option<Cluster<MemoryDisk, Direct>> {
    let mut command = command_by(alloc, body).ok()?;
    let nodes = filled_with(alloc, &mut command, commands);
    drop(command);
    nodes
}

fn filled_with(
    alloc: Global,
    command: &mut Command,
    commands: u32,
) -> Option<Cluster<MemoryDisk, Direct>>
    requires { IsValidCommand command.old }
{
    let disks = Five {
        d0: MemoryDisk::new(alloc, Vec::new(alloc)),
        d1: MemoryDisk::new(alloc, Vec::new(alloc)),
        d2: MemoryDisk::new(alloc, Vec::new(alloc)),
        d3: MemoryDisk::new(alloc, Vec::new(alloc)),
        d4: MemoryDisk::new(alloc, Vec::new(alloc)),
    };
    let mut nodes = Cluster::create(alloc, disks, Direct, SLOTS).ok()?;
    place_all(alloc, &mut nodes, command, commands);
    Some(nodes)
}

/// Attempts a batch with this body so often, and tells how long the list of node 0 is then.
pub fn attempts(alloc: Global, body: &[u8], commands: u32) -> usize {
    let Some(nodes) = filled(alloc, body, commands) else {
        return 0;
    };
    let length = nodes.node(0).applied_len() as usize;
    drop(nodes);
    length
}

/// Attempts it so often, and counts the bytes that the five journals hold then.
pub fn bytes(alloc: Global, body: &[u8], commands: u32) -> usize {
    let Some(nodes) = filled(alloc, body, commands) else {
        return 0;
    };
    let disks = nodes.give_back();
    let mut count = 0usize;
    for node in 0..5u8 {
        count = count.saturating_add(disks.get(node).bytes().len());
    }
    drop(disks);
    count
}
