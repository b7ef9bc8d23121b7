//! The runs that are kept: a new one, and what events make of them.
ghost use Rattle.std.specs.Prelude.{◌≡◌, ◌==◌, ◌&&◌, Bool, IfOk, find, map, option_copied, if◌then◌else◌};
ghost use Rattle.arc_data.specs.declared.practice.Ending.TheVariants.{Alarm, Interrupt};
ghost use Rattle.arc_plain.specs.Practice.{ended_where, fails_by, new_run};

use crate::alarms::is_among;
use crate::progress::is_pending;
use arc_bytes::Memory;
use arc_data::{Ending, PracticeConfig, ResourceId, Run, ShiftId, Text, ZoneName};
use std::alloc::Global;

/// A run that starts now, with the outcome alarms of its configuration.
pub(crate) fn new_run(
    alloc: Global,
    config: &PracticeConfig,
    id: ShiftId,
    resource: ResourceId,
    away_from: ZoneName,
    comment: &Text,
    now: u64,
) -> Result<Run, Memory>
    ensures { IfOk result (λ run. run ≡ new_run id resource away_from comment.now now config.now.outcome_alarms) }
{
    let PracticeConfig { outcome_alarms, .. } = config.copy(alloc)?;
    Ok(Run {
        id,
        resource,
        away_from,
        comment: comment.copy(alloc)?,
        start: now,
        outcome_alarms,
        ended: None,
    })
}

/// The run with this identifier.
pub(crate) fn run_with(runs: &[Run], id: ShiftId) -> Option<&Run>
    ensures { option_copied result ≡ find (λ r. r.id.0 == id.0) runs.now }
{
    runs.iter().find(|r| r.id.0 == id.0)
}

/// A cancel: it interrupts the run of this identifier, where it is pending.
pub(crate) fn cancel(runs: &mut Vec<Run>, id: ShiftId, now: u64)
    ensures { runs.new.items ≡ map (ended_where (λ r. r.id.0 == id.0) Interrupt now) runs.old.items }
{
    for run in runs.iter_mut() {
        let affected = run.id.0 == id.0;
        end(run, affected, Ending::Interrupt, now);
    }
}

/// Another shift of the resource: it interrupts the resource's pending run.
pub(crate) fn interrupt(runs: &mut Vec<Run>, resource: ResourceId, now: u64)
    ensures { runs.new.items ≡ map (ended_where (λ r. r.resource.0 == resource.0) Interrupt now) runs.old.items }
{
    for run in runs.iter_mut() {
        let affected = run.resource.0 == resource.0;
        end(run, affected, Ending::Interrupt, now);
    }
}

/// An alarm that is set red: the pending runs fail of which it is an outcome alarm.
pub(crate) fn fail(runs: &mut Vec<Run>, alarm: &Text, now: u64)
    ensures { runs.new.items ≡ map (ended_where (fails_by alarm.now) Alarm now) runs.old.items }
{
    for run in runs.iter_mut() {
        let affected = is_among(run.outcome_alarms.as_slice(), alarm);
        end(run, affected, Ending::Alarm, now);
    }
}

/// Ends a run now, where the event is one for it and it is pending.
fn end(run: &mut Run, affected: bool, ending: Ending, now: u64)
    ensures { run.new ≡ ended_where (λ r. affected) ending now run.old }
{
    if affected && is_pending(run, now) {
        run.ended = Some((ending, now));
    }
}
