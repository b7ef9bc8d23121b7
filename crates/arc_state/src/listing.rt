//! Shifts and practice runs in one list, by ascending identifier.
ghost use Rattle.std.specs.Prelude.{◌≡◌, ◌==◌, ◌&&◌, ◌≤◌, ◌<◌, ◌++◌, ◌∷◌, ◌⊎◌, [], All, IfOk, filter, length, true};
ghost use Rattle.std.specs.Option.{option_map_or};
ghost use Rattle.arc_plain.specs.Reads.{is_asked, is_status};
ghost use Rattle.arc_plain.specs.PracticeRuns.{run_item};
ghost use Rattle.arc_plain.specs.ZonalShifts.{shift_item};
ghost use Rattle.arc_state.specs.Listing.{IsNext, rest_of};

use crate::items::{run_item, shift_item};
use arc_bytes::Memory;
use arc_data::{MAX_MS, ResourceId, Run, Shift, ShiftItem, Status};
use arc_practice::{outcome, status_of};
use arc_shift::status;
use std::alloc::Global;

/// The shifts and runs of one resource and one status, or of all.
pub(crate) fn listed(
    alloc: Global,
    shifts: &[Shift],
    runs: &[Run],
    now: u64,
    resource: Option<ResourceId>,
    asked: Option<Status>,
) -> Result<Vec<ShiftItem>, Memory>
    requires { All (λ r. r.start ≤ MAX_MS) runs.now }
    ensures { IfOk result (λ items. items.items ≡
        filter (is_asked resource asked) (rest_of shifts.now 0 runs.now 0 now)) }
{
    let mut items = Vec::new(alloc);
    let mut i = 0;
    let mut j = 0;
    while i < shifts.len() || j < runs.len() {
        if shift_is_next(shifts, i, runs, j) {
            keep_shift(alloc, &mut items, &shifts[i], now, resource, asked)?;
            i += 1;
        } else {
            keep_run(alloc, &mut items, &runs[j], now, resource, asked)?;
            j += 1;
        }
    }
    Ok(items)
}

/// Whether the next item is that of a shift, and not that of a run.
fn shift_is_next(shifts: &[Shift], i: usize, runs: &[Run], j: usize) -> bool
    requires { (i < length shifts.now) ⊎ (j < length runs.now) }
    ensures { IsNext result shifts.now i runs.now j }
{
    if i >= shifts.len() {
        return false;
    }
    if j >= runs.len() {
        return true;
    }
    shifts[i].id.0 < runs[j].id.0
}

/// Keeps a shift as replies show it, where it is asked for.
fn keep_shift(
    alloc: Global,
    items: &mut Vec<ShiftItem>,
    shift: &Shift,
    now: u64,
    resource: Option<ResourceId>,
    asked: Option<Status>,
) -> Result<(), Memory>
    ensures { IfOk result (λ done. items.new.items ≡
        items.old.items ++ filter (is_asked resource asked) (shift_item shift.now now ∷ [])) }
{
    if is_asked(resource, asked, shift.resource, status(shift, now)) {
        items.push(shift_item(alloc, shift, now)?)?;
    }
    Ok(())
}

/// Keeps a run as replies show it, where it is asked for.
fn keep_run(
    alloc: Global,
    items: &mut Vec<ShiftItem>,
    run: &Run,
    now: u64,
    resource: Option<ResourceId>,
    asked: Option<Status>,
) -> Result<(), Memory>
    requires { run.now.start ≤ MAX_MS }
    ensures { IfOk result (λ done. items.new.items ≡
        items.old.items ++ filter (is_asked resource asked) (run_item run.now now ∷ [])) }
{
    if is_asked(resource, asked, run.resource, status_of(outcome(run, now))) {
        items.push(run_item(alloc, run, now)?)?;
    }
    Ok(())
}

/// Whether a shift or run of this resource and status is asked for.
fn is_asked(
    resource: Option<ResourceId>,
    asked: Option<Status>,
    own: ResourceId,
    status: Status,
) -> bool
    ensures { result ≡ (option_map_or (λ r. own.0 == r.0) resource true
        && option_map_or (λ s. is_status s status) asked true) }
{
    if let Some(resource) = resource {
        if own.0 != resource.0 {
            return false;
        }
    }
    match asked {
        Some(asked) => is_status(asked, status),
        None => true,
    }
}

fn is_status(asked: Status, status: Status) -> bool
    ensures { result ≡ is_status asked status }
{
    match asked {
        Status::Active => matches!(status, Status::Active),
        Status::Expired => matches!(status, Status::Expired),
        Status::Canceled => matches!(status, Status::Canceled),
    }
}
