//! The shift and the practice run of a resource that move its traffic away.
ghost use Rattle.std.specs.Prelude.{◌≡◌, ◌==◌, ◌&&◌, option_copied};
ghost use Rattle.arc_plain.specs.Practice.{is_pending, outcome_at, pending_of};
ghost use Rattle.arc_plain.specs.Shifts.{active_of, is_active, status_at};

use arc_data::{ResourceId, Run, Shift, Status};
use arc_practice::is_pending;
use arc_shift::status;

/// The active shift of a resource.
pub fn active_of(shifts: &[Shift], resource: ResourceId, now: u64) -> Option<&Shift>
    ensures { option_copied result ≡ active_of shifts.now resource now }
{
    shifts.iter().find(|s| is_active_of(*s, resource, now))
}

/// Whether a shift is one of the resource and active.
fn is_active_of(shift: &Shift, resource: ResourceId, now: u64) -> bool
    ensures { result ≡ ((shift.now.resource.0 == resource.0) && is_active (status_at shift.now now)) }
{
    shift.resource.0 == resource.0 && is_active(shift, now)
}

/// Whether a shift moves traffic away.
fn is_active(shift: &Shift, now: u64) -> bool
    ensures { result ≡ is_active (status_at shift.now now) }
{
    matches!(status(shift, now), Status::Active)
}

/// The pending run of a resource.
pub fn pending_of(runs: &[Run], resource: ResourceId, now: u64) -> Option<&Run>
    ensures { option_copied result ≡ pending_of runs.now resource now }
{
    runs.iter().find(|r| is_pending_of(*r, resource, now))
}

/// Whether a run is one of the resource and pending.
fn is_pending_of(run: &Run, resource: ResourceId, now: u64) -> bool
    ensures { result ≡ ((run.now.resource.0 == resource.0) && is_pending (outcome_at run.now now)) }
{
    run.resource.0 == resource.0 && is_pending(run, now)
}
