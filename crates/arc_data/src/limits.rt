//! The limits of texts, numbers and lists.
ghost use Rattle.std.specs.Prelude.{◌≡◌, ◌≢◌, ◌≤◌, ◌↔◌, IsTrue, IfSome, length, All, AllPairs, Any, Contains};
ghost use Rattle.arc_data.specs.Valid.{IsName, IsComment, IsWait, AreMinutes, IsDay, IsWindow, HasBetween};

use crate::{ControlId, Entry, Equals, List, Text, Window};

/// Whether a text is a name: 1 to 64 bytes.
pub(crate) fn is_name(name: &Text) -> bool
    ensures { IsTrue result ↔ IsName name.now }
{
    let len = name.as_str().len();
    1 <= len && len <= 64
}

/// Whether a text is a comment: at most 128 bytes.
pub(crate) fn is_comment(comment: &Text) -> bool
    ensures { IsTrue result ↔ IsComment comment.now }
{
    comment.as_str().len() <= 128
}

/// Whether a number of milliseconds is a wait: at most a week.
pub(crate) fn is_wait(wait_ms: u32) -> bool
    ensures { IsTrue result ↔ IsWait wait_ms }
{
    wait_ms <= 604_800_000
}

/// Whether a shift may last so many minutes: 1 to 4,320.
pub(crate) fn are_minutes(minutes: u32) -> bool
    ensures { IsTrue result ↔ AreMinutes minutes }
{
    1 <= minutes && minutes <= 4_320
}

/// Whether a number is that of a day, 9999-12-31 at the latest.
pub(crate) fn is_day(day: u32) -> bool
    ensures { IsTrue result ↔ IsDay day }
{
    day <= 2_932_896
}

/// Whether a window has two different minutes of the week.
pub(crate) fn is_window(window: &Window) -> bool
    ensures { IsTrue result ↔ IsWindow window.now }
{
    window.from < 10_080 && window.to < 10_080 && window.from != window.to
}

/// Whether a list has so few and so many items.
pub(crate) fn has_between<T>(least: usize, most: usize, items: &List<T>) -> bool
    ensures { IsTrue result ↔ HasBetween least most items.now }
{
    let len = items.as_slice().len();
    least <= len && len <= most
}

/// Whether each day of a list is one.
pub(crate) fn are_days(days: &[u32]) -> bool
    ensures { IsTrue result ↔ All IsDay days.now }
{
    days.iter().all(|day| is_day(*day))
}

/// Whether each window of a list is one.
pub(crate) fn are_windows(windows: &[Window]) -> bool
    ensures { IsTrue result ↔ All IsWindow windows.now }
{
    windows.iter().all(|window| is_window(window))
}

/// Whether each text of a list is a name.
pub(crate) fn are_names(texts: &[Text]) -> bool
    ensures { IsTrue result ↔ All IsName texts.now }
{
    texts.iter().all(|text| is_name(text))
}

/// Whether each item of a list stands there once.
pub(crate) fn are_apart<T: Equals>(items: &[T]) -> bool
    ensures { IsTrue result ↔ AllPairs (λ a b. a ≢ b) items.now }
{
    let mut rest = items;
    while let [first, others @ ..] = rest {
        if is_among(first, others) {
            return false;
        }
        rest = others;
    }
    true
}

fn is_among<T: Equals>(item: &T, items: &[T]) -> bool
    ensures { IsTrue result ↔ Contains items.now item.now }
{
    items.iter().any(|other| other.equals(item))
}

/// Whether each change is one of another control.
pub(crate) fn change_apart(entries: &[Entry]) -> bool
    ensures { IsTrue result ↔ AllPairs (λ a b. a.control ≢ b.control) entries.now }
{
    let mut rest = entries;
    while let [first, others @ ..] = rest {
        if change(others, first.control) {
            return false;
        }
        rest = others;
    }
    true
}

fn change(entries: &[Entry], control: ControlId) -> bool
    ensures { IsTrue result ↔ Any (λ entry. entry.control ≡ control) entries.now }
{
    entries.iter().any(|entry| entry.control == control)
}
