//! The words that replies use.
ghost use Rattle.std.specs.Prelude.{◌≡◌};
ghost use Rattle.arc_json.specs.Words.{autoshift_word, block_word, kind_word, outcome_word, rule_word, shift_word, switch_text};

use arc_data::{BlockCause, Kind, Outcome, Status};

/// A switch.
pub(crate) fn word_of_switch(on: bool) -> &'static str
    ensures { result.now ≡ switch_text on }
{
    if on { "On" } else { "Off" }
}

/// A kind of safety rule.
pub(crate) fn word_of_rule(gating: bool) -> &'static str
    ensures { result.now ≡ rule_word gating }
{
    if gating { "GATING" } else { "ASSERTION" }
}

/// Whether zones in autoshift move traffic away.
pub(crate) fn word_of_autoshift(enabled: bool) -> &'static str
    ensures { result.now ≡ autoshift_word enabled }
{
    if enabled { "ENABLED" } else { "DISABLED" }
}

/// What became of a practice run.
pub(crate) fn word_of_outcome(outcome: Outcome) -> &'static str
    ensures { result.now ≡ outcome_word outcome }
{
    match outcome {
        Outcome::Pending => "PENDING",
        Outcome::Succeeded => "SUCCEEDED",
        Outcome::Failed => "FAILED",
        Outcome::Interrupted => "INTERRUPTED",
    }
}

/// What became of a shift.
pub(crate) fn word_of_status(status: Status) -> &'static str
    ensures { result.now ≡ shift_word status }
{
    match status {
        Status::Active => "ACTIVE",
        Status::Expired => "EXPIRED",
        Status::Canceled => "CANCELED",
    }
}

/// Whose shift it is.
pub(crate) fn word_of_kind(kind: Kind) -> &'static str
    ensures { result.now ≡ kind_word kind }
{
    match kind {
        Kind::Customer => "CUSTOMER",
        Kind::Autoshift => "AUTOSHIFT",
        Kind::PracticeRun => "PRACTICE_RUN",
    }
}

/// Why a practice run doesn't start.
pub(crate) fn word_of_block(cause: BlockCause) -> &'static str
    ensures { result.now ≡ block_word cause }
{
    match cause {
        BlockCause::BlockedDate => "BlockedDate",
        BlockCause::BlockedWindow => "BlockedWindow",
        BlockCause::BlockingAlarm => "BlockingAlarm",
        BlockCause::OutcomeAlarm => "OutcomeAlarm",
    }
}
