//! Whether an operation is within its limits.
ghost use Rattle.std.specs.Prelude.{◌≡◌, ◌↔◌, ◌≤◌, IsTrue, IfSome, length};
ghost use Rattle.arc_data.specs.Valid.{IsValid, IsBatch, IsRule, IsThreshold, AreControls, IsConfig, IsChange, AreZones, IsComment, AreMinutes};
ghost use Rattle.arc_data.specs.Valid.{AreDates, AreWindows, AreBlocking, AreOutcome};

use crate::limits::{
    are_apart, are_days, are_minutes, are_names, are_windows, change_apart, has_between,
    is_comment, is_name, is_wait,
};
use crate::{
    Batch, ControlId, List, Op, PracticeChange, PracticeConfig, RuleConfig, RuleKind, RuleSpec,
    Text, Window, ZoneName,
};

/// Whether an operation is within its limits: texts, lists and numbers are neither too short nor too long, and no list
/// of changes, controls or zones has one twice.
pub fn is_valid(op: &Op) -> bool
    ensures { IsTrue result ↔ IsValid op.now }
{
    match op {
        Op::CreateControlPanel { name } => is_name(name),
        Op::DeleteControlPanel { .. } => true,
        Op::CreateRoutingControl { name, .. } => is_name(name),
        Op::DeleteRoutingControl { .. } => true,
        Op::ListRoutingControls { .. } => true,
        Op::GetRoutingControlState { .. } => true,
        Op::UpdateRoutingControlState { batch } => is_batch(1, batch),
        Op::UpdateRoutingControlStates { batch } => is_batch(16, batch),
        Op::CreateSafetyRule { spec } => is_rule(spec),
        Op::UpdateSafetyRule { name, wait_ms, .. } => is_name(name) && is_wait(*wait_ms),
        Op::DeleteSafetyRule { .. } => true,
        Op::ListSafetyRules { .. } => true,
        Op::RegisterManagedResource { name, zones } => is_name(name) && are_zones(zones),
        Op::GetManagedResource { .. } => true,
        Op::ListManagedResources => true,
        Op::StartZonalShift {
            expires_min,
            comment,
            ..
        } => are_minutes(*expires_min) && is_comment(comment),
        Op::UpdateZonalShift {
            comment,
            expires_min,
            ..
        } => is_given_comment(comment) && are_given_minutes(expires_min),
        Op::CancelZonalShift { .. } => true,
        Op::ListZonalShifts { .. } => true,
        Op::CreatePracticeRunConfiguration { config, .. } => is_config(config),
        Op::UpdatePracticeRunConfiguration { change, .. } => is_change(change),
        Op::DeletePracticeRunConfiguration { .. } => true,
        Op::StartPracticeRun { comment, .. } => is_comment(comment),
        Op::CancelPracticeRun { .. } => true,
        Op::UpdateZonalAutoshiftConfiguration { .. } => true,
        Op::StartAutoshift { .. } => true,
        Op::EndAutoshift { .. } => true,
        Op::SetAlarmState { alarm, .. } => is_name(alarm),
    }
}

/// Whether a batch has from 1 to so many changes, each of another control, and at most 16 overrides.
fn is_batch(most: usize, batch: &Batch) -> bool
    ensures { IsTrue result ↔ IsBatch most batch.now }
{
    has_between(1, most, &batch.entries)
        && change_apart(batch.entries.as_slice())
        && batch.overrides.as_slice().len() <= 16
}

/// Whether a safety rule is within its limits.
fn is_rule(spec: &RuleSpec) -> bool
    ensures { IsTrue result ↔ IsRule spec.now }
{
    is_name(&spec.name)
        && are_controls(&spec.controls)
        && are_targets(&spec.targets)
        && is_threshold(spec.config, spec.controls.as_slice().len())
        && is_wait(spec.wait_ms)
}

/// Whether the controls of a rule in one list are 1 to 32, each once.
fn are_controls(controls: &List<ControlId>) -> bool
    ensures { IsTrue result ↔ AreControls controls.now }
{
    has_between(1, 32, controls) && are_apart(controls.as_slice())
}

fn are_targets(targets: &Option<List<ControlId>>) -> bool
    ensures { IsTrue result ↔ IfSome targets.now AreControls }
{
    match targets {
        Some(targets) => are_controls(targets),
        None => true,
    }
}

/// Whether a threshold is from 1 to the number of controls where it counts, and 0 elsewhere.
fn is_threshold(config: RuleConfig, controls: usize) -> bool
    ensures { IsTrue result ↔ IsThreshold config.kind config.threshold controls }
{
    match config.kind {
        RuleKind::And | RuleKind::Or => config.threshold == 0,
        RuleKind::AtLeast => 1 <= config.threshold && config.threshold as usize <= controls,
    }
}

/// Whether the zones of a resource are 1 to 6, each once.
fn are_zones(zones: &List<ZoneName>) -> bool
    ensures { IsTrue result ↔ AreZones zones.now }
{
    has_between(1, 6, zones) && are_apart(zones.as_slice())
}

fn is_given_comment(comment: &Option<Text>) -> bool
    ensures { IsTrue result ↔ IfSome comment.now IsComment }
{
    match comment {
        Some(comment) => is_comment(comment),
        None => true,
    }
}

fn are_given_minutes(minutes: &Option<u32>) -> bool
    ensures { IsTrue result ↔ IfSome minutes.now AreMinutes }
{
    match minutes {
        Some(minutes) => are_minutes(*minutes),
        None => true,
    }
}

/// Whether a configuration of practice runs is within its limits.
fn is_config(config: &PracticeConfig) -> bool
    ensures { IsTrue result ↔ IsConfig config.now }
{
    are_dates(&config.blocked_dates)
        && are_blocked(&config.blocked_windows)
        && are_blocking(&config.blocking_alarms)
        && are_outcome(&config.outcome_alarms)
}

/// Whether what a change of a configuration gives is within its limits.
fn is_change(change: &PracticeChange) -> bool
    ensures { IsTrue result ↔ IsChange change.now }
{
    are_given_dates(&change.blocked_dates)
        && are_given_blocked(&change.blocked_windows)
        && are_given_blocking(&change.blocking_alarms)
        && are_given_outcome(&change.outcome_alarms)
}

fn are_dates(dates: &List<u32>) -> bool
    ensures { IsTrue result ↔ AreDates dates.now }
{
    dates.as_slice().len() <= 15 && are_days(dates.as_slice())
}

fn are_blocked(windows: &List<Window>) -> bool
    ensures { IsTrue result ↔ AreWindows windows.now }
{
    windows.as_slice().len() <= 15 && are_windows(windows.as_slice())
}

fn are_blocking(alarms: &List<Text>) -> bool
    ensures { IsTrue result ↔ AreBlocking alarms.now }
{
    alarms.as_slice().len() <= 4 && are_names(alarms.as_slice())
}

fn are_outcome(alarms: &List<Text>) -> bool
    ensures { IsTrue result ↔ AreOutcome alarms.now }
{
    has_between(1, 4, alarms) && are_names(alarms.as_slice())
}

fn are_given_dates(dates: &Option<List<u32>>) -> bool
    ensures { IsTrue result ↔ IfSome dates.now AreDates }
{
    match dates {
        Some(dates) => are_dates(dates),
        None => true,
    }
}

fn are_given_blocked(windows: &Option<List<Window>>) -> bool
    ensures { IsTrue result ↔ IfSome windows.now AreWindows }
{
    match windows {
        Some(windows) => are_blocked(windows),
        None => true,
    }
}

fn are_given_blocking(alarms: &Option<List<Text>>) -> bool
    ensures { IsTrue result ↔ IfSome alarms.now AreBlocking }
{
    match alarms {
        Some(alarms) => are_blocking(alarms),
        None => true,
    }
}

fn are_given_outcome(alarms: &Option<List<Text>>) -> bool
    ensures { IsTrue result ↔ IfSome alarms.now AreOutcome }
{
    match alarms {
        Some(alarms) => are_outcome(alarms),
        None => true,
    }
}
