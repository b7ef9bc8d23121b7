//! Words: switches, statuses and types of rules.
ghost use Rattle.std.specs.Prelude.{◌≡◌, ⊤};
ghost use Rattle.serde_json.specs.View.{view};
ghost use Rattle.arc_members.specs.Reading.{Gives};
ghost use Rattle.arc_members.specs.Values.{either, enabled_in, red_in, state_in, status_in, status_of, type_in, type_of};

use crate::kind::refused;
use crate::text::text_in;
use crate::{Code, Kind, RequestEnd};
use arc_data::{RuleKind, Status};
use serde_json::Value;
use std::alloc::Global;

/// One of two words: `true` for the first.
#[tactic(auto, unfolding(crate::specs::Values::either))]
fn one_of_two(text: &str, first: &str, second: &str, code: Code) -> Result<bool, RequestEnd>
    ensures { Gives result (either first.now second.now code text.now) }
{
    if text == first {
        return Ok(true);
    }
    if text == second {
        return Ok(false);
    }
    Err(refused(code))
}

/// A switch: `true` for `On`.
pub struct State;

impl Kind for State {
    type Read = bool;

    ghost reading = { state_in };

    ghost Holds = { λ _. ⊤ };

    #[tactic(auto, unfolding(crate::specs::Values::state_in))]
    fn read(_alloc: Global, value: &Value) -> Result<bool, RequestEnd> {
        one_of_two(text_in(value)?, "On", "Off", Code::BadState)
    }
}

/// Whether zones in autoshift move traffic away: `true` for `ENABLED`.
pub struct Enabled;

impl Kind for Enabled {
    type Read = bool;

    ghost reading = { enabled_in };

    ghost Holds = { λ _. ⊤ };

    #[tactic(auto, unfolding(crate::specs::Values::enabled_in))]
    fn read(_alloc: Global, value: &Value) -> Result<bool, RequestEnd> {
        one_of_two(text_in(value)?, "ENABLED", "DISABLED", Code::BadStatus)
    }
}

/// Whether an alarm is red: `true` for `ALARM`.
pub struct Red;

impl Kind for Red {
    type Read = bool;

    ghost reading = { red_in };

    ghost Holds = { λ _. ⊤ };

    #[tactic(auto, unfolding(crate::specs::Values::red_in))]
    fn read(_alloc: Global, value: &Value) -> Result<bool, RequestEnd> {
        one_of_two(text_in(value)?, "ALARM", "OK", Code::BadStatus)
    }
}

impl Kind for Status {
    type Read = Status;

    ghost reading = { status_in };

    ghost Holds = { λ _. ⊤ };

    #[tactic(auto, unfolding(crate::specs::Values::status_in))]
    fn read(_alloc: Global, value: &Value) -> Result<Status, RequestEnd> {
        status_named(text_in(value)?)
    }
}

#[tactic(auto, unfolding(crate::specs::Values::status_of))]
fn status_named(text: &str) -> Result<Status, RequestEnd>
    ensures { Gives result (status_of text.now) }
{
    match text {
        "ACTIVE" => Ok(Status::Active),
        "EXPIRED" => Ok(Status::Expired),
        "CANCELED" => Ok(Status::Canceled),
        _ => Err(refused(Code::BadStatus)),
    }
}

impl Kind for RuleKind {
    type Read = RuleKind;

    ghost reading = { type_in };

    ghost Holds = { λ _. ⊤ };

    #[tactic(auto, unfolding(crate::specs::Values::type_in))]
    fn read(_alloc: Global, value: &Value) -> Result<RuleKind, RequestEnd> {
        kind_named(text_in(value)?)
    }
}

#[tactic(auto, unfolding(crate::specs::Values::type_of))]
fn kind_named(text: &str) -> Result<RuleKind, RequestEnd>
    ensures { Gives result (type_of text.now) }
{
    match text {
        "AND" => Ok(RuleKind::And),
        "OR" => Ok(RuleKind::Or),
        "ATLEAST" => Ok(RuleKind::AtLeast),
        _ => Err(refused(Code::BadType)),
    }
}
