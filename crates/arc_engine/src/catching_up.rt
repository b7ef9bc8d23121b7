//! A state that is brought up to a node's list.
ghost use Rattle.std.specs.Prelude.{◌≡◌, ◌<◌, ◌≤◌, IfOk, OnErr, Some, length};
ghost use Rattle.arc_engine.specs.CatchingUp.{HasDone, HasDoneNext};
ghost use Rattle.arc_engine.specs.Engine.{IsBehind};
ghost use Rattle.arc_node.specs.Node.{HasLimits, kept};
ghost use Rattle.arc_state.specs.State.{count_of};
ghost use Rattle.arc_voting.specs.Lists.{applied};

use arc_bytes::Memory;
use arc_data::Reply;
use arc_disk::Disk;
use arc_node::Node;
use arc_state::State;
use std::alloc::Global;

/// Does the commands of a node's list from the first that isn't done on, up to that at this slot, and gives the reply of that.
/// Each is done once. Where memory is wanting, the first of them are done.
pub(crate) fn do_up_to<D: Disk>(
    alloc: Global,
    node: &Node<D>,
    state: &mut State,
    slot: u32,
) -> Result<Reply, Memory>
    requires limits { HasLimits node.now }
    requires behind { IsBehind state.old (applied (kept node.now)) }
    requires before { count_of state.old ≤ slot }
    requires there { slot < length (applied (kept node.now)) }
    ensures behind { IsBehind state.new (applied (kept node.now)) }
    ensures more { count_of state.old ≤ count_of state.new }
    ensures done { IfOk result (λ reply. HasDone (applied (kept node.now)) slot reply state.new) }
{
    while state.count() < u64::from(slot) {
        drop(do_next(alloc, node, state)?);
    }
    do_next(alloc, node, state)
}

/// Does the first command of a node's list that isn't done.
fn do_next<D: Disk>(alloc: Global, node: &Node<D>, state: &mut State) -> Result<Reply, Memory>
    requires limits { HasLimits node.now }
    requires behind { IsBehind state.old (applied (kept node.now)) }
    requires there { count_of state.old < length (applied (kept node.now)) }
    ensures behind { IsBehind state.new (applied (kept node.now)) }
    ensures done { IfOk result (λ reply. HasDoneNext (applied (kept node.now)) state.old reply state.new) }
    ensures unchanged { OnErr result (state.new ≡ state.old) }
{
    match node.command_at(state.count() as u32) {
        Some(command) => state.apply(alloc, command),
        None => Err(Memory),
    }
}
