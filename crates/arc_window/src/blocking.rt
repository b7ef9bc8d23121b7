//! Whether a practice run may start at a moment.
ghost use Rattle.std.specs.Prelude.{◌≡◌, ◌==◌, ◌/◌, ℕ, pos};
ghost use Rattle.std.specs.List.{list_any};
ghost use Rattle.jiff_core.specs.Calendar.{weekday_number};
ghost use Rattle.arc_window.specs.Blocked.{blocked_at, day_of, is_within, minute_of_week};

use crate::Window;

/// What blocks a moment.
#[derive(Clone, Copy, Debug, PartialEq, Eq)]
pub enum BlockedBy {
    /// Its day is listed.
    Date,
    /// Its minute of the week lies in a window.
    Window,
}

const MINUTE_MS: u64 = 60_000;

const DAY_MS: u64 = 86_400_000;

const DAY_MINUTES: u64 = 1440;

const WEEK_MINUTES: u64 = 10_080;

/// 1970-01-01 was a Thursday, the third day after Monday.
const FIRST_DAY: u64 = 3;

/// What blocks the moment `now`, in milliseconds since 1970-01-01: a listed day first, then a window.
pub fn blocked(dates: &[u32], windows: &[Window], now: u64) -> Option<BlockedBy>
    ensures { result ≡ blocked_at dates.now windows.now now }
{
    if is_listed(dates, now / DAY_MS) {
        Some(BlockedBy::Date)
    } else if is_in_some(windows, minute_of_week(now)) {
        Some(BlockedBy::Window)
    } else {
        None
    }
}

/// Whether a day is one of these.
fn is_listed(dates: &[u32], day: u64) -> bool
    ensures { result ≡ list_any (λ date. date == day) dates.now }
{
    dates.iter().any(|date| u64::from(*date) == day)
}

/// Whether a minute of the week lies in one of these windows.
fn is_in_some(windows: &[Window], minute: u16) -> bool
    ensures { result ≡ list_any (λ window. is_within window minute) windows.now }
{
    windows.iter().any(|window| window.has(minute))
}

/// The minute of the week, in UTC, counted from Monday 00:00.
fn minute_of_week(now: u64) -> u16
    ensures { result ≡ minute_of_week now }
{
    ((now / MINUTE_MS + FIRST_DAY * DAY_MINUTES) % WEEK_MINUTES) as u16
}

impl Window {
    /// Whether a minute of the week lies in the window.
    pub(crate) fn has(self, minute: u16) -> bool
        ensures { result ≡ is_within self minute }
    {
        if self.to < self.from {
            self.from <= minute || minute < self.to
        } else {
            self.from <= minute && minute < self.to
        }
    }
}

/// The days of these weeks are those of the calendar: the minute of the week lies in the weekday of its date, where
/// Monday is 0.
pub fn weeks_follow_the_calendar()
    ensures { (now : ℕ) → minute_of_week now / 1440 ≡ weekday_number (pos (day_of now)) }
{}
