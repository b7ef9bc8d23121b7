//! Times: how long a shift lasts, dates, and windows of the week.
ghost use Rattle.std.specs.Prelude.{◌≡◌, ◌*◌, ◌<◌, ◌≤◌, IfSome, option_map};
ghost use Rattle.std.specs.List.{list_all};
ghost use Rattle.std.specs.Char.{is_ascii_digit};
ghost use Rattle.arc_data.specs.Valid.{AreMinutes, IsDay, IsWindow};
ghost use Rattle.arc_members.specs.Times.{before_last, begins_above_0, minutes_of, positive};
ghost use Rattle.arc_members.specs.Values.{date_in, expiry_in, window_in};

use crate::kind::refused;
use crate::text::text_in;
use crate::{Code, Kind, RequestEnd};
use arc_data::Window;
use arc_window::{read_date, read_window};
use serde_json::Value;
use std::alloc::Global;

/// How long a shift lasts: 1 to 4,320 minutes, written with `m` behind them, or 1 to 72 hours with `h`.
pub struct Minutes;

impl Kind for Minutes {
    type Read = u32;

    ghost reading = { expiry_in };

    ghost Holds = { AreMinutes };

    #[tactic(auto, unfolding(crate::specs::Values::expiry_in))]
    fn read(_alloc: Global, value: &Value) -> Result<u32, RequestEnd> {
        let text = text_in(value)?;
        match minutes_of(text) {
            Some(minutes) => Ok(minutes),
            None => Err(refused(Code::BadExpiry)),
        }
    }
}

/// The minutes that a text spells.
#[tactic(auto, unfolding(crate::specs::Times::minutes_of))]
fn minutes_of(text: &str) -> Option<u32>
    ensures exact { result ≡ minutes_of text.now }
    ensures within { IfSome result AreMinutes }
{
    match before_last(text, 'm') {
        Some(digits) => positive(digits, 4_320),
        None => hours_in(before_last(text, 'h')?),
    }
}

/// Hours, as minutes.
fn hours_in(digits: &str) -> Option<u32>
    ensures exact { result ≡ option_map (λ hours. 60 * hours) (positive 72 digits.now) }
    ensures within { IfSome result AreMinutes }
{
    let hours = positive(digits, 72)?;
    Some(60 * hours)
}

/// What stands before a character at the end.
#[tactic(auto, using(crate::proofs::Numbers::cut_off))]
fn before_last(text: &str, unit: char) -> Option<&str>
    requires { unit < 128 }
    ensures { option_map (λ front. front.now) result ≡ before_last unit text.now }
{
    text.strip_suffix(unit)
}

/// The number of decimal digits that begin with 1 to 9, from 1 to so much.
#[tactic(auto, unfolding(crate::specs::Times::positive))]
fn positive(digits: &str, most: u32) -> Option<u32>
    ensures exact { result ≡ positive most digits.now }
    ensures within { IfSome result (λ n. (1 ≤ n) × (n ≤ most)) }
{
    if !begins_above_0(digits.as_bytes()) {
        return None;
    }
    let Ok(number) = digits.parse::<u32>() else {
        return None;
    };
    if number == 0 || number > most {
        return None;
    }
    Some(number)
}

#[tactic(auto, using(crate::proofs::Numbers::digits_by_all))]
fn begins_above_0(digits: &[u8]) -> bool
    ensures { result ≡ begins_above_0 digits.now }
{
    match digits {
        [] => false,
        [first, ..] => *first != b'0' && are_digits(digits),
    }
}

fn are_digits(digits: &[u8]) -> bool
    ensures { result ≡ list_all is_ascii_digit digits.now }
{
    digits.iter().all(|digit| digit.is_ascii_digit())
}

/// A date as `YYYY-MM-DD`, read as the number of its day, counted from 1970-01-01.
pub struct Day;

impl Kind for Day {
    type Read = u32;

    ghost reading = { date_in };

    ghost Holds = { IsDay };

    #[tactic(auto, unfolding(crate::specs::Values::date_in))]
    fn read(_alloc: Global, value: &Value) -> Result<u32, RequestEnd> {
        let text = text_in(value)?;
        match read_date(text) {
            Ok(day) => Ok(day),
            Err(_) => Err(refused(Code::BadDate)),
        }
    }
}

impl Kind for Window {
    type Read = Window;

    ghost reading = { window_in };

    ghost Holds = { IsWindow };

    #[tactic(auto, unfolding(crate::specs::Values::window_in))]
    fn read(_alloc: Global, value: &Value) -> Result<Window, RequestEnd> {
        let text = text_in(value)?;
        match read_window(text) {
            Ok(window) => Ok(window),
            Err(_) => Err(refused(Code::BadWindow)),
        }
    }
}
