//! One step of a drill, and its line.
ghost use Rattle.std.specs.Prelude.{◌≡◌, ◌<◌, ◌≤◌, ◌^◌, ◌+◌, ◌-◌, true, IfOk, OnErr, OnOk, codes};
ghost use Rattle.arc_data.specs.Valid.{IsValid, IsValidCommand};
ghost use Rattle.arc_data.specs.Entries.{closed_len};
ghost use Rattle.arc_data.specs.declared.command.TheConstants.{MAX_MS};
ghost use Rattle.arc_drill.specs.Each.{Each};
ghost use Rattle.arc_drill.specs.Since.{Since};
ghost use Rattle.arc_drill.specs.Steps.{Does, Ends, IsAnswered, IsBehind, IsDoable, IsFit, asked, of_call};
ghost use Rattle.arc_drill.specs.Telling.{IsDrawn};
ghost use Rattle.arc_node.specs.Node.{HasLimits, HasVotesInPlace, IsInOrder, IsSameNode, disk_in, is_up, kept, number_of, slots_in};
ghost use Rattle.arc_plain.specs.Cluster.{fold_of};
ghost use Rattle.arc_script.specs.Steps.{IsValidStep};
ghost use Rattle.arc_script.specs.declared.step.Step.TheVariants.{Call, Crash, Restart};
ghost use Rattle.arc_state.specs.Standing.{StandsFor};
ghost use Rattle.arc_state.specs.State.{count_of};
ghost use Rattle.arc_voting.specs.Lists.{applied};

use crate::learning::{Learned, learn};
use crate::lines;
use crate::starting::{line_of, start_again};
use arc_bytes::Memory;
use arc_data::{Command, CommandId, Op};
use arc_disk::{Disk, Rig};
use arc_node::Node;
use arc_script::Step;
use arc_state::State;
use std::alloc::Global;

/// Does one step, and gives its line.
pub(crate) fn do_step<D: Rig>(
    alloc: Global,
    node: &mut Node<D>,
    state: &mut State,
    step: &Step,
) -> Result<Vec<u8>, Memory>
    requires valid { IsValidStep step.now }
    requires in_order { IsInOrder D.tells D.content D.may_leave node.old }
    requires in_place { HasVotesInPlace node.old }
    requires fit { IsFit node.old state.old }
    ensures in_order { IsInOrder D.tells D.content D.may_leave node.new }
    ensures in_place { HasVotesInPlace node.new }
    ensures fit { OnOk result (IsFit node.new state.new) }
    ensures since { Since D.faults D.stops_in D.is_tame (disk_in node.old) (disk_in node.new) }
    ensures same { IsSameNode node.old node.new }
    ensures does { D.tells → IfOk result (λ line. Does D.faults node.old step.now line.items node.new) }
    ensures ends { D.tells → OnErr result (Ends D.faults node.old step.now node.new) }
{
    match step {
        Step::Slots { n } => lines::numbered(alloc, "slots ", u64::from(*n)),
        Step::Call {
            at_ms,
            token,
            op,
            ..
        } => do_call(alloc, node, state, *at_ms, *token, op),
        Step::Crash { .. } => {
            node.crash();
            lines::fixed(alloc, "crash 0\n")
        }
        Step::Restart { .. } => restart(alloc, node, state),
    }
}

/// Does a call: it has its place in the list, or the list is full, or the node is down.
fn do_call<D: Rig>(
    alloc: Global,
    node: &mut Node<D>,
    state: &mut State,
    at_ms: u64,
    token: u64,
    op: &Op,
) -> Result<Vec<u8>, Memory>
    requires valid { IsValid op.now }
    requires in_time { at_ms ≤ MAX_MS }
    requires in_order { IsInOrder D.tells D.content D.may_leave node.old }
    requires in_place { HasVotesInPlace node.old }
    requires fit { IsFit node.old state.old }
    ensures in_order { IsInOrder D.tells D.content D.may_leave node.new }
    ensures in_place { HasVotesInPlace node.new }
    ensures fit { OnOk result (IsFit node.new state.new) }
    ensures since { Since D.faults D.stops_in D.is_tame (disk_in node.old) (disk_in node.new) }
    ensures same { IsSameNode node.old node.new }
    ensures does { D.tells → IfOk result (λ line.
        Does D.faults node.old (Call 0 at_ms token op.now) line.items node.new) }
    ensures ends { D.tells → OnErr result (Ends D.faults node.old (Call 0 at_ms token op.now) node.new) }
{
    let length = state.count();
    if length >= u64::from(node.max_slots()) {
        return lines::numbered(alloc, "full ", length);
    }
    if !node.is_up() {
        return lines::fixed(alloc, "down 0\n");
    }
    let command = command_of(alloc, node.next_id(), at_ms, token, op)?;
    let line = place(alloc, node, state, length as u32, &command);
    drop(command);
    line
}

/// The command of a call.
fn command_of(
    alloc: Global,
    id: CommandId,
    at_ms: u64,
    token: u64,
    op: &Op,
) -> Result<Command, Memory>
    ensures { IfOk result (λ command. command ≡ of_call id at_ms token op.now) }
{
    let op = op.copy(alloc)?;
    Ok(Command {
        id,
        at_ms,
        token,
        op,
    })
}

/// Gives a call its place in the list of an up node, and its reply, unless the node goes down.
fn place<D: Rig>(
    alloc: Global,
    node: &mut Node<D>,
    state: &mut State,
    slot: u32,
    command: &Command,
) -> Result<Vec<u8>, Memory>
    requires valid { IsValidCommand command.now }
    requires in_order { IsInOrder D.tells D.content D.may_leave node.old }
    requires in_place { HasVotesInPlace node.old }
    requires fit { IsFit node.old state.old }
    requires up { is_up node.old ≡ true }
    requires at_the_end { slot ≡ closed_len (kept node.old) }
    requires below { slot < slots_in node.old }
    requires drawn { IsDrawn (kept node.old) command.now.id }
    ensures in_order { IsInOrder D.tells D.content D.may_leave node.new }
    ensures in_place { HasVotesInPlace node.new }
    ensures fit { OnOk result (IsFit node.new state.new) }
    ensures since { Since D.faults D.stops_in D.is_tame (disk_in node.old) (disk_in node.new) }
    ensures same { IsSameNode node.old node.new }
    ensures does { D.tells → IfOk result (λ line. Does D.faults node.old (asked command.now) line.items node.new) }
    ensures ends { D.tells → OnErr result (Ends D.faults node.old (asked command.now) node.new) }
{
    match learn(alloc, node, slot, command) {
        Learned::Done => answered(alloc, state, slot, command),
        Learned::Fallen => lines::fixed(alloc, "down 0\n"),
        Learned::Memory => Err(Memory),
    }
}

/// The line of a call that has its place.
fn answered(
    alloc: Global,
    state: &mut State,
    slot: u32,
    command: &Command,
) -> Result<Vec<u8>, Memory>
    requires valid { IsValidCommand command.now }
    requires room { count_of state.old < 2 ^ 64 - 2 }
    ensures { IfOk result (λ line. IsAnswered slot state.old state.new command.now line.items) }
{
    let reply = state.apply(alloc, command)?;
    let line = lines::of_slot(alloc, slot, &reply);
    drop(reply);
    line
}

/// Starts the node again.
fn restart<D: Rig>(alloc: Global, node: &mut Node<D>, state: &mut State) -> Result<Vec<u8>, Memory>
    requires in_order { IsInOrder D.tells D.content D.may_leave node.old }
    requires in_place { HasVotesInPlace node.old }
    requires fit { IsFit node.old state.old }
    ensures in_order { IsInOrder D.tells D.content D.may_leave node.new }
    ensures in_place { HasVotesInPlace node.new }
    ensures fit { OnOk result (IsFit node.new state.new) }
    ensures since { Since D.faults D.stops_in D.is_tame (disk_in node.old) (disk_in node.new) }
    ensures same { IsSameNode node.old node.new }
    ensures does { D.tells → IfOk result (λ line. Does D.faults node.old (Restart 0) line.items node.new) }
    ensures ends { D.tells → OnErr result (Ends D.faults node.old (Restart 0) node.new) }
{
    let start = start_again(alloc, node);
    catch_up(alloc, node, state)?;
    line_of(alloc, start)
}

/// Does the last command of the node's list, where it isn't done yet.
fn catch_up<D: Disk>(alloc: Global, node: &Node<D>, state: &mut State) -> Result<(), Memory>
    requires limits { HasLimits node.now }
    requires doable { Each IsDoable (applied (kept node.now)) }
    requires behind { IsBehind state.old (applied (kept node.now)) }
    ensures { OnOk result (StandsFor state.new (fold_of (applied (kept node.now)))) }
{
    let Some(command) = node.command_at(state.count() as u32) else {
        return Ok(());
    };
    drop(state.apply(alloc, command)?);
    Ok(())
}
