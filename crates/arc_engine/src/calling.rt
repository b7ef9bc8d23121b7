//! Calls.
ghost use Rattle.std.specs.Prelude.{◌≡◌, ◌<◌, ◌≤◌, ◌*◌, ℕ, IfOk, true};
ghost use Rattle.arc_bytes.specs.Five.{at};
ghost use Rattle.arc_cluster.specs.Attempts.{GivesAtMost};
ghost use Rattle.arc_cluster.specs.Onward.{AsksAtMost, ClusterGoesOn};
ghost use Rattle.arc_cluster.specs.Placing.{IsNextId};
ghost use Rattle.arc_data.specs.Valid.{IsValid, IsValidCommand};
ghost use Rattle.arc_data.specs.declared.command.TheConstants.{MAX_MS};
ghost use Rattle.arc_engine.specs.Answering.{Answers, CanAnswer};
ghost use Rattle.arc_engine.specs.Calls.{EndsCall, EndsCallOf, EndsFull, ListGrows, StaysSilent, most_asked, most_attempts, of_call};
ghost use Rattle.arc_engine.specs.Chain.{MadeAttempts};
ghost use Rattle.arc_engine.specs.Engine.{IsInOrder};
ghost use Rattle.arc_engine.specs.Meeting.{MeetInCall};
ghost use Rattle.arc_node.specs.Node.{HasLimits, is_up};
ghost use Rattle.arc_state.specs.State.{count_of};

use crate::attempting::attempt_all;
use crate::catching_up::do_up_to;
use crate::{CallEnd, Engine, MOST_DISTURBED};
use arc_bytes::Memory;
use arc_cluster::Tally;
use arc_courier::Courier;
use arc_data::{Command, CommandId, Op};
use arc_disk::Disk;
use arc_node::Node;
use arc_state::State;
use std::alloc::Global;

/// How the attempts of a call end.
#[derive(Clone, Copy)]
pub(crate) enum Placing {
    /// The command has this slot.
    Placed { slot: u32 },
    /// Eight attempts were disturbed.
    Disturbed { tallies: [Tally; MOST_DISTURBED] },
    /// The endpoint's node isn't up.
    NodeDown { node: u8 },
    /// The endpoint's list is full.
    ListFull { length: u32 },
    /// There was no memory left.
    Memory,
}

impl<D: Disk, C: Courier + Drop> Engine<D, C> {
    /// Gives a call its place in the list, by way of this endpoint, and answers it there. The command of the call is drawn once,
    /// and attempted until an attempt places it or eight were disturbed.
    pub fn call(&mut self, alloc: Global, node: u8, at_ms: u64, token: u64, op: &Op) -> CallEnd
        requires of_five { node < 5 }
        requires valid { IsValid op.now }
        requires in_time { at_ms ≤ MAX_MS }
        requires in_order { IsInOrder D.tells D.content D.may_leave self.old }
        ensures in_order { IsInOrder D.tells D.content D.may_leave self.new }
        ensures ends { EndsCallOf D.faults D.stops_in D.is_tame C.troubles C.is_silent C.asked
            self.old self.new node at_ms token op.now result }
        ensures more { count_of self.old.state ≤ count_of self.new.state }
        ensures full { EndsFull self.old node result }
        ensures silent { StaysSilent C.is_silent self.old self.new node result }
        ensures asked { AsksAtMost (C.asked self.old.cluster.courier) (C.asked self.new.cluster.courier)
            (most_asked self.old.cluster self.new.cluster node) }
        ensures bounds { GivesAtMost (most_attempts self.old.cluster self.new.cluster node)
            (2 * most_attempts self.old.cluster self.new.cluster node) self.old.cluster.nodes self.new.cluster.nodes }
        ensures troubles { MeetInCall C.troubles self.old.cluster self.new.cluster node result }
    {
        let own = self.cluster.node(node);
        let length = own.applied_len();
        if length == own.max_slots() {
            return CallEnd::ListFull { length };
        }
        if !own.is_up() {
            return CallEnd::NodeDown { node };
        }
        let Ok(command) = command_of(alloc, own.next_id(), at_ms, token, op) else {
            return CallEnd::Memory;
        };
        let end = self.call_up(alloc, node, &command);
        drop(command);
        end
    }

    /// The call of this command at an up endpoint.
    fn call_up(&mut self, alloc: Global, node: u8, c: &Command) -> CallEnd
        requires of_five { node < 5 }
        requires in_order { IsInOrder D.tells D.content D.may_leave self.old }
        requires up { is_up (at self.old.cluster.nodes node) ≡ true }
        requires valid { IsValidCommand c.now }
        requires next { IsNextId (at self.old.cluster.nodes node) c.now.id }
        ensures in_order { IsInOrder D.tells D.content D.may_leave self.new }
        ensures go_on { ClusterGoesOn D.faults D.stops_in D.is_tame C.troubles C.is_silent (λ d. d ≡ c.now)
            self.old.cluster self.new.cluster }
        ensures grows { ListGrows self.old self.new c.now }
        ensures attempts { MadeAttempts D.faults D.stops_in D.is_tame C.troubles C.is_silent C.asked
            self.old.cluster self.new.cluster node c.now result }
        ensures more { count_of self.old.state ≤ count_of self.new.state }
        ensures ends { EndsCall D.faults C.troubles self.old self.new node c.now result }
        ensures silent { StaysSilent C.is_silent self.old self.new node result }
        ensures asked { AsksAtMost (C.asked self.old.cluster.courier) (C.asked self.new.cluster.courier)
            (most_asked self.old.cluster self.new.cluster node) }
        ensures bounds { GivesAtMost (most_attempts self.old.cluster self.new.cluster node)
            (2 * most_attempts self.old.cluster self.new.cluster node) self.old.cluster.nodes self.new.cluster.nodes }
        ensures troubles { MeetInCall C.troubles self.old.cluster self.new.cluster node result }
    {
        let placing = attempt_all(alloc, &mut self.cluster, node, c);
        answer(alloc, self.cluster.node(node), &mut self.state, placing)
    }
}

/// The answer of a call whose attempts ended so. Where its command was placed, the state is brought up to it first, by the
/// endpoint's list.
fn answer<D: Disk>(
    alloc: Global,
    endpoint: &Node<D>,
    state: &mut State,
    placing: Placing,
) -> CallEnd
    requires limits { HasLimits endpoint.now }
    requires ready { CanAnswer endpoint.now state.old placing }
    ensures { Answers endpoint.now state.old state.new placing result }
{
    match placing {
        Placing::Placed { slot } => match do_up_to(alloc, endpoint, state, slot) {
            Ok(reply) => CallEnd::Answered {
                slot,
                reply,
                token: u64::from(slot) + 1,
            },
            Err(Memory) => CallEnd::Memory,
        },
        Placing::Disturbed { tallies } => CallEnd::Unavailable { tallies },
        Placing::NodeDown { node } => CallEnd::NodeDown { node },
        Placing::ListFull { length } => CallEnd::ListFull { length },
        Placing::Memory => CallEnd::Memory,
    }
}

/// The command of a call.
fn command_of(
    alloc: Global,
    id: CommandId,
    at_ms: u64,
    token: u64,
    op: &Op,
) -> Result<Command, Memory>
    ensures { IfOk result (λ command. command ≡ of_call id at_ms token op.now) }
{
    let op = op.copy(alloc)?;
    Ok(Command {
        id,
        at_ms,
        token,
        op,
    })
}
