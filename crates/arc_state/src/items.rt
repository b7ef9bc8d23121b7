//! Shifts and practice runs as replies show them.
ghost use Rattle.std.specs.Prelude.{◌≡◌, ◌≤◌, IfOk};
ghost use Rattle.arc_plain.specs.PracticeRuns.{run_item};
ghost use Rattle.arc_plain.specs.ZonalShifts.{shift_item};

use arc_bytes::Memory;
use arc_data::{MAX_MS, Run, Shift, ShiftItem};
use arc_practice::{RUN_MS, outcome, status_of};
use arc_shift::status;
use std::alloc::Global;

/// A shift as replies show it.
pub(crate) fn shift_item(alloc: Global, shift: &Shift, now: u64) -> Result<ShiftItem, Memory>
    ensures { IfOk result (λ item. item ≡ shift_item shift.now now) }
{
    Ok(ShiftItem {
        id: shift.id,
        resource: shift.resource,
        away_from: shift.away_from,
        comment: shift.comment.copy(alloc)?,
        start: shift.start,
        expiry: shift.expiry,
        status: status(shift, now),
        outcome: None,
    })
}

/// A practice run as replies show it.
pub(crate) fn run_item(alloc: Global, run: &Run, now: u64) -> Result<ShiftItem, Memory>
    requires { run.now.start ≤ MAX_MS }
    ensures { IfOk result (λ item. item ≡ run_item run.now now) }
{
    let outcome = outcome(run, now);
    Ok(ShiftItem {
        id: run.id,
        resource: run.resource,
        away_from: run.away_from,
        comment: run.comment.copy(alloc)?,
        start: run.start,
        expiry: run.start + RUN_MS,
        status: status_of(outcome),
        outcome: Some(outcome),
    })
}
