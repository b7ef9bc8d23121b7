//! The attempts of a call.
ghost use Rattle.std.specs.Prelude.{◌≡◌, ◌<◌, ◌≤◌, true, length, take};
ghost use Rattle.arc_bytes.specs.Five.{at};
ghost use Rattle.arc_cluster.specs.Cluster.{IsInOrder};
ghost use Rattle.arc_cluster.specs.Nodes.{IsChoice};
ghost use Rattle.arc_cluster.specs.Phases.{MayBeAttempted};
ghost use Rattle.arc_data.specs.Valid.{IsValidCommand};
ghost use Rattle.arc_engine.specs.Attempting.{Attempted, Notes};
ghost use Rattle.arc_engine.specs.declared.call_end.TheConstants.{MOST_DISTURBED};
ghost use Rattle.arc_node.specs.Node.{is_up};
ghost use Rattle.arc_voting.specs.Ids.{HasNoVoteOf};
ghost use Rattle.arc_voting.specs.Journals.{Journals};

use crate::call_end::MOST_DISTURBED;
use crate::calling::Placing;
use arc_cluster::{Attempt, Cluster, Tally};
use arc_courier::Courier;
use arc_data::Command;
use arc_disk::Disk;
use std::alloc::Global;

/// Attempts a command until an attempt places it, eight were disturbed, or one ends the call otherwise. An attempt that closed
/// its slot with another command is no disturbance: the next one works at the slot behind.
pub(crate) fn attempt_all<D: Disk, C: Courier + Drop>(
    alloc: Global,
    cluster: &mut Cluster<D, C>,
    node: u8,
    c: &Command,
) -> Placing
    requires of_five { node < 5 }
    requires in_order { IsInOrder D.tells D.content D.may_leave cluster.old }
    requires valid { IsValidCommand c.now }
    requires up { is_up (at cluster.old.nodes node) ≡ true }
    requires may { MayBeAttempted cluster.old.nodes node c.now }
    requires new_id { (js : Journals) → IsChoice cluster.old.nodes js → HasNoVoteOf js c.now.id }
    ensures { Attempted D.tells D.content D.may_leave D.faults D.stops_in D.is_tame C.troubles C.is_silent C.asked
        cluster.old cluster.new node c.now result }
{
    let mut tallies = [Tally { slot: 0, clear: 0 }; MOST_DISTURBED];
    let mut disturbed: usize = 0;
    while disturbed < MOST_DISTURBED {
        let end = cluster.attempt(alloc, node, c);
        match note(end, &mut tallies, &mut disturbed) {
            Some(placing) => return placing,
            None => {}
        }
    }
    Placing::Disturbed { tallies }
}

/// Notes how an attempt ended: the tally of one that was disturbed is kept. Gives how the attempts of the call end, where this
/// one ends them.
fn note(
    end: Attempt,
    tallies: &mut [Tally; MOST_DISTURBED],
    disturbed: &mut usize,
) -> Option<Placing>
    requires few { disturbed.old < MOST_DISTURBED }
    ensures few { disturbed.new ≤ MOST_DISTURBED }
    ensures noted { Notes end (take disturbed.old tallies.old) (take disturbed.new tallies.new) result }
{
    match end {
        Attempt::Placed { slot } => Some(Placing::Placed { slot }),
        Attempt::Other { .. } => None,
        Attempt::Disturbed { tally } => {
            tallies[*disturbed] = tally;
            *disturbed += 1;
            None
        }
        Attempt::NodeDown { node } => Some(Placing::NodeDown { node }),
        Attempt::ListFull { length } => Some(Placing::ListFull { length }),
        Attempt::Memory => Some(Placing::Memory),
    }
}
