//! Red alarms, and what blocks a run.
ghost use Rattle.std.specs.Prelude.{◌≡◌, ◌≤◌, length};
ghost use Rattle.std.specs.List.{list_any};
ghost use Rattle.std.specs.Str.{bytes_eq};
ghost use Rattle.arc_plain.specs.Part.{Does};
ghost use Rattle.arc_plain.specs.Practice.{alarm_cause, cause_at, most_red, some_red};
ghost use Rattle.arc_practice.specs.Kept.{reddened};

use arc_data::{BlockCause, PartEnd, PracticeConfig, Refusal, Text};
use arc_window::{BlockedBy, blocked};
use std::alloc::Global;

/// The most alarms that are red at once.
const MOST_RED: usize = 256;

/// What doesn't let a run start now: a date first, then a window, then an alarm.
pub(crate) fn cause(config: &PracticeConfig, red: &[Text], now: u64) -> Option<BlockCause>
    ensures { result ≡ cause_at config.now red.now now }
{
    let dates = config.blocked_dates.as_slice();
    match blocked(dates, config.blocked_windows.as_slice(), now) {
        Some(BlockedBy::Date) => Some(BlockCause::BlockedDate),
        Some(BlockedBy::Window) => Some(BlockCause::BlockedWindow),
        None => alarm_cause(config, red),
    }
}

/// The kind of alarm that blocks: blocking alarms come before outcome alarms.
fn alarm_cause(config: &PracticeConfig, red: &[Text]) -> Option<BlockCause>
    ensures { result ≡ alarm_cause config.now red.now }
{
    if some_red(red, config.blocking_alarms.as_slice()) {
        Some(BlockCause::BlockingAlarm)
    } else if some_red(red, config.outcome_alarms.as_slice()) {
        Some(BlockCause::OutcomeAlarm)
    } else {
        None
    }
}

/// Whether one of these alarms is red.
fn some_red(red: &[Text], alarms: &[Text]) -> bool
    ensures { result ≡ some_red red.now alarms.now }
{
    alarms.iter().any(|alarm| is_among(red, alarm))
}

/// Whether a text is one of these.
pub(crate) fn is_among(texts: &[Text], text: &Text) -> bool
    ensures { result ≡ list_any (λ t. bytes_eq t text.now) texts.now }
{
    texts.iter().any(|t| t.as_str() == text.as_str())
}

/// Adds a red alarm, where it isn't red. It is refused by `Limit` where so many are.
#[tactic(auto, unfolding(crate::specs::Kept::reddened))]
pub(crate) fn redden(alloc: Global, red: &mut Vec<Text>, alarm: &Text) -> Result<(), PartEnd>
    requires { length red.old.items ≤ most_red }
    ensures does { Does (reddened red.old.items alarm.now) result red.old.items red.new.items }
    ensures within_limit { length red.new.items ≤ most_red }
{
    if is_among(red.as_slice(), alarm) {
        return Ok(());
    }
    if red.len() >= MOST_RED {
        return Err(PartEnd::Refused(Refusal::Limit {
            count: red.len() as u32,
        }));
    }
    let alarm = alarm.copy(alloc)?;
    red.push(alarm)?;
    Ok(())
}
