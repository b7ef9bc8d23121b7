//! Room for one more shift or practice run.
ghost use Rattle.std.specs.Prelude.{◌≡◌, find, not, option_copied};
ghost use Rattle.arc_plain.specs.Practice.{is_pending, outcome_at};
ghost use Rattle.arc_plain.specs.Shifts.{is_active, status_at};
ghost use Rattle.arc_state.specs.Room.{IsThere, forgotten_at, practices_without, shifts_without};

use arc_data::{Run, Shift, ShiftId, Status};
use arc_practice::{Practices, is_pending};
use arc_shift::{Shifts, status};

/// The most shifts and practice runs that are kept.
const MOST_SHIFTS: usize = 1_024;

/// What is forgotten to make room.
#[derive(Clone, Copy, PartialEq, Eq)]
pub(crate) enum Forgotten {
    Nothing,
    Shift(ShiftId),
    Run(ShiftId),
}

/// What is forgotten where as many are kept as may be: the shift or run of least identifier that is over.
pub(crate) fn to_forget(shifts: &[Shift], runs: &[Run], now: u64) -> Forgotten
    ensures { result ≡ forgotten_at shifts.now runs.now now }
{
    if shifts.len() < MOST_SHIFTS && runs.len() < MOST_SHIFTS - shifts.len() {
        return Forgotten::Nothing;
    }
    match (first_over(shifts, now), first_run_over(runs, now)) {
        (None, None) => Forgotten::Nothing,
        (Some(shift), None) => Forgotten::Shift(shift.id),
        (None, Some(run)) => Forgotten::Run(run.id),
        (Some(shift), Some(run)) => {
            if shift.id.0 < run.id.0 {
                Forgotten::Shift(shift.id)
            } else {
                Forgotten::Run(run.id)
            }
        }
    }
}

/// The shift of least identifier that is over.
fn first_over(shifts: &[Shift], now: u64) -> Option<&Shift>
    ensures { option_copied result ≡ find (λ s. not (is_active (status_at s now))) shifts.now }
{
    shifts.iter().find(|s| is_over(*s, now))
}

fn is_over(shift: &Shift, now: u64) -> bool
    ensures { result ≡ not (is_active (status_at shift.now now)) }
{
    !matches!(status(shift, now), Status::Active)
}

/// The practice run of least identifier that is over.
fn first_run_over(runs: &[Run], now: u64) -> Option<&Run>
    ensures { option_copied result ≡ find (λ r. not (is_pending (outcome_at r now))) runs.now }
{
    runs.iter().find(|r| !is_pending(*r, now))
}

/// Forgets it.
pub(crate) fn forget(shifts: &mut Shifts, practices: &mut Practices, forgotten: Forgotten)
    requires { IsThere forgotten shifts.old practices.old.runs }
    ensures shifts { shifts.new ≡ shifts_without forgotten shifts.old }
    ensures practices { practices.new ≡ practices_without forgotten practices.old }
{
    match forgotten {
        Forgotten::Nothing => {}
        Forgotten::Shift(id) => shifts.forget(id),
        Forgotten::Run(id) => practices.forget(id),
    }
}
