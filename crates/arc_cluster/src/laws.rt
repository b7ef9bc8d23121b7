//! What clusters promise beside what their calls do, each law as a call that does nothing.
ghost use Rattle.arc_cluster.specs.Placing.{AttemptsMayFollow, MayBeAttemptedAgain, NewMayBeAttempted, NextIdsAreInRange};

use arc_courier::Courier;
use arc_disk::Disk;

/// In a cluster in order, the identifier that an up node gives next is in range, and a valid command with it may be attempted
/// there.
pub fn new_commands_may_be_attempted<D: Disk>()
    ensures ids { NextIdsAreInRange D.tells D.content D.may_leave }
    ensures attempted { NewMayBeAttempted D.tells D.content D.may_leave }
{}

/// A command that might be attempted at a node may be attempted there again, also after an attempt for a command with another
/// identifier, as long as the node wasn't started again and hasn't applied the command.
pub fn commands_may_be_attempted_again<D: Disk>()
    ensures { MayBeAttemptedAgain D.faults D.stops_in D.is_tame }
{}

/// A command may be attempted again behind an attempt that was disturbed, or that closed the slot with another command, or
/// found the list full; and behind one for which there was no memory left, where the node's list is as long as it was.
pub fn attempts_may_follow<D: Disk, C: Courier>()
    ensures { AttemptsMayFollow D.faults D.stops_in D.is_tame C.troubles C.is_silent }
{}
