//! Five nodes with disks in memory and a scripted courier, and what is done with them.
ghost use Rattle.std.specs.Prelude.{◌≡◌, ◌<◌, ◌≤◌, true, length, IfSome};
ghost use Rattle.arc_bytes.specs.Five.{at};
ghost use Rattle.arc_data.specs.Valid.{IsInRange, IsValidCommand};
ghost use Rattle.arc_node.specs.Node.{is_up};
ghost use Rattle.arc_cluster.specs.Cluster.{IsInOrder};
ghost use Rattle.arc_cluster.specs.Phases.{MayBeAttempted};

use arc_bytes::Five;
use arc_cluster::{Attempt, Cluster, attempts_may_follow, new_commands_may_be_attempted};
use arc_courier::{Courier, Fate, Scripted};
use arc_data::{Command, CommandId, ControlId, Op};
use arc_disk::{Disk, MemoryDisk};
use std::alloc::Global;

/// Five nodes whose exchanges are chosen beforehand.
pub(crate) type Nodes = Cluster<MemoryDisk, Scripted>;

/// A new cluster for lists of up to 64 commands, all of whose exchanges happen.
pub(crate) fn created(alloc: Global) -> Option<Nodes>
    ensures { IfSome result (λ nodes.
        IsInOrder ⟦<MemoryDisk as Disk>⟧.tells ⟦<MemoryDisk as Disk>⟧.content ⟦<MemoryDisk as Disk>⟧.may_leave nodes) }
{
    let disks = Five {
        d0: MemoryDisk::new(alloc, Vec::new(alloc)),
        d1: MemoryDisk::new(alloc, Vec::new(alloc)),
        d2: MemoryDisk::new(alloc, Vec::new(alloc)),
        d3: MemoryDisk::new(alloc, Vec::new(alloc)),
        d4: MemoryDisk::new(alloc, Vec::new(alloc)),
    };
    Cluster::create(alloc, disks, Scripted::new(), 64).ok()
}

/// Chooses the fates of a peer: whether they cycle, and which they are.
pub(crate) fn set<D: Disk>(nodes: &mut Cluster<D, Scripted>, peer: u8, cycle: bool, fates: &[Fate])
    requires peer { peer < 5 }
    requires some { 1 ≤ length fates.now }
    requires most { length fates.now ≤ 64 }
    requires in_order { IsInOrder D.tells D.content D.may_leave nodes.old }
    ensures in_order { IsInOrder D.tells D.content D.may_leave nodes.new }
{
    nodes.courier().set(peer, cycle, fates);
}

/// A command with this identifier: a read of control 1.
pub(crate) fn command(id: CommandId) -> Command
    requires { IsInRange id }
    ensures id { result.id ≡ id }
    ensures valid { IsValidCommand result }
{
    Command {
        id,
        at_ms: 0,
        token: 0,
        op: Op::GetRoutingControlState {
            control: ControlId(1),
        },
    }
}

/// How an attempt ended.
#[derive(Clone, Copy, Debug, PartialEq, Eq)]
pub(crate) enum End {
    Placed(u32),
    Other(u32),
    /// The slot, and the clear nodes in binary digits.
    Disturbed(u32, u8),
    Down,
    Full,
    Memory,
}

/// A new command of a node; none where it isn't up.
pub(crate) fn drawn<D: Disk, C: Courier + Drop>(nodes: &Cluster<D, C>, node: u8) -> Option<Command>
    requires of_five { node < 5 }
    requires in_order { IsInOrder D.tells D.content D.may_leave nodes.now }
    ensures valid { IfSome result IsValidCommand }
    ensures may { IfSome result (λ c. MayBeAttempted nodes.now.nodes node c) }
{
    new_commands_may_be_attempted::<D>();
    let own = nodes.node(node);
    if !own.is_up() {
        return None;
    }
    Some(command(own.next_id()))
}

/// Attempts a command at a node, where it is up: whether it may be attempted there again, and how the attempt ended.
pub(crate) fn attempted<D: Disk, C: Courier + Drop>(
    alloc: Global,
    nodes: &mut Cluster<D, C>,
    node: u8,
    command: &Command,
) -> (bool, End)
    requires of_five { node < 5 }
    requires in_order { IsInOrder D.tells D.content D.may_leave nodes.old }
    requires valid { IsValidCommand command.now }
    requires may { MayBeAttempted nodes.old.nodes node command.now }
    ensures in_order { IsInOrder D.tells D.content D.may_leave nodes.new }
    ensures again { result.0 ≡ true → MayBeAttempted nodes.new.nodes node command.now }
{
    attempts_may_follow::<D, C>();
    match nodes.attempt(alloc, node, command) {
        Attempt::Placed { slot } => (false, End::Placed(slot)),
        Attempt::Other { slot } => (true, End::Other(slot)),
        Attempt::Disturbed { tally } => (true, End::Disturbed(tally.slot, tally.clear)),
        Attempt::NodeDown { .. } => (false, End::Down),
        Attempt::ListFull { .. } => (true, End::Full),
        Attempt::Memory => (false, End::Memory),
    }
}

/// How many commands each node has in its list.
pub(crate) fn lists<D: Disk, C: Courier + Drop>(nodes: &Cluster<D, C>) -> [u32; 5] {
    [
        nodes.node(0).applied_len(),
        nodes.node(1).applied_len(),
        nodes.node(2).applied_len(),
        nodes.node(3).applied_len(),
        nodes.node(4).applied_len(),
    ]
}

/// The node at which the command of a slot began, by the list of node 0.
pub(crate) fn home_of<D: Disk, C: Courier + Drop>(nodes: &Cluster<D, C>, slot: u32) -> Option<u8> {
    let command = nodes.node(0).command_at(slot)?;
    Some(command.id.node)
}
