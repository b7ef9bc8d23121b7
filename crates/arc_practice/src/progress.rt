//! What became of a practice run.
ghost use Rattle.std.specs.Prelude.{◌≡◌};
ghost use Rattle.arc_plain.specs.Practice.{ended_by, is_pending, outcome_at, run_status, unended_at};

use arc_data::{Ending, Outcome, Run, Status};

/// How long a run lasts, in milliseconds: 30 minutes.
pub const RUN_MS: u64 = 1_800_000;

/// What became of a practice run: its first ending event decides, where that came before its 30 minutes were over. Without
/// one it succeeds when they are over.
pub fn outcome(run: &Run, now: u64) -> Outcome
    ensures { result ≡ outcome_at run.now now }
{
    match run.ended {
        Some((ending, at)) if at.saturating_sub(run.start) < RUN_MS => ended_by(ending),
        _ => unended(run.start, now),
    }
}

/// What an ending event makes of a run.
fn ended_by(ending: Ending) -> Outcome
    ensures { result ≡ ended_by ending }
{
    match ending {
        Ending::Alarm => Outcome::Failed,
        Ending::Interrupt => Outcome::Interrupted,
    }
}

/// What became of a run without an ending event.
fn unended(start: u64, now: u64) -> Outcome
    ensures { result ≡ unended_at start now }
{
    if now.saturating_sub(start) >= RUN_MS {
        Outcome::Succeeded
    } else {
        Outcome::Pending
    }
}

/// Whether a run isn't over.
pub fn is_pending(run: &Run, now: u64) -> bool
    ensures { result ≡ is_pending (outcome_at run.now now) }
{
    matches!(outcome(run, now), Outcome::Pending)
}

/// The status that replies show for a run of this outcome.
pub fn status_of(outcome: Outcome) -> Status
    ensures { result ≡ run_status outcome }
{
    match outcome {
        Outcome::Pending => Status::Active,
        Outcome::Succeeded => Status::Expired,
        Outcome::Failed | Outcome::Interrupted => Status::Canceled,
    }
}
