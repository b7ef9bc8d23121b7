//! Dates, as `2024-06-19`.
ghost use Rattle.std.specs.Prelude.{◌≡◌, ◌≤◌, ◌↔◌, ℕ, pos, Ok, IfOk, IfErr, IfSome, IfNone, SomeIff};
ghost use Rattle.jiff.specs.Words.{date_text, epoch_day};
ghost use Rattle.jiff_core.specs.declared.civil.date.Date.{Date};
ghost use Rattle.arc_window.specs.Date.{NamesDay};

use jiff::civil;
use jiff::fmt::temporal::DateTimePrinter;

/// Why a text gave no date.
#[derive(Clone, Copy, Debug, PartialEq, Eq)]
pub enum DateEnd {
    /// The text isn't the date of a day from 1970-01-01 to 9999-12-31.
    BadDate,
    /// There was no memory left. `read_date` takes none, and never ends so.
    Memory,
}

/// The number of the day that a text names, counted from 1970-01-01, which is 0. The text has the form `YYYY-MM-DD`.
pub fn read_date(text: &str) -> Result<u32, DateEnd>
    ensures exact { (day : ℕ) → (result ≡ Ok day) ↔ NamesDay text.now day }
    ensures otherwise { IfErr result (λ e. e ≡ DateEnd.BadDate) }
    ensures last { IfOk result (λ day. day ≤ 2_932_896) }
{
    let Some(date) = date_with(text) else {
        return Err(DateEnd::BadDate);
    };
    match number_of(date) {
        Some(day) => Ok(day),
        None => Err(DateEnd::BadDate),
    }
}

/// The date that has this text. jiff reads other spellings too, such as `20240619` or a date with a time behind it.
fn date_with(text: &str) -> Option<civil::Date>
    ensures found { IfSome result (λ date. date_text date ≡ text.now) }
    ensures unfound { IfNone result ((date : Date) → ¬ (date_text date ≡ text.now)) }
{
    let Ok(date) = text.parse::<civil::Date>() else {
        return None;
    };
    let spelling = DateTimePrinter::new().date_text(date.to_plain());
    if spelling.as_str() == text {
        Some(date)
    } else {
        None
    }
}

/// The number of a date's day, where it isn't before 1970-01-01.
fn number_of(date: civil::Date) -> Option<u32>
    ensures number { IfSome result (λ day. epoch_day date ≡ pos day) }
    ensures before { IfNone result ((day : ℕ) → ¬ (epoch_day date ≡ pos day)) }
    ensures last { IfSome result (λ day. day ≤ 2_932_896) }
{
    u32::try_from(date.to_plain().to_unix_epoch_day()).ok()
}
