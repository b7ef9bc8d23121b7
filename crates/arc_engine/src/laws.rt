//! What engines promise beside what their calls do, as a call that does nothing.
ghost use Rattle.arc_engine.specs.Direct.{DirectCallsAreNotRefused};

use arc_disk::Disk;

/// Over a courier that lets each exchange happen, a call at a node that is up ends neither as `Unavailable` nor as `NodeDown`
/// where this node and three of the five are up, over disks that fail only where they are told to stop and aren't told so, and no
/// journal is full at its end.
pub fn direct_calls_are_not_refused<D: Disk>()
    ensures { DirectCallsAreNotRefused D.faults D.stops_in D.is_tame }
{}
