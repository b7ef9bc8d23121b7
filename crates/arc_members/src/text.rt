//! Values by their types in JSON, and texts and numbers within their limits.
ghost use Rattle.std.specs.Prelude.{◌≡◌, ◌≤◌, IfOk, IfErr, Ok, length, map, ⊤};
ghost use Rattle.serde_json.specs.View.{view};
ghost use Rattle.arc_data.specs.Valid.{IsComment, IsName, IsWait};
ghost use Rattle.arc_members.specs.Reading.{Gives, items_in, object_in, text_in, truth_in, whole_in};
ghost use Rattle.arc_members.specs.Values.{comment_in, name_in, wait_in, zone_in};

use crate::kind::refused;
use crate::{Code, Kind, RequestEnd};
use arc_data::{Text, ZoneName};
use serde_json::Value;
use std::alloc::Global;

/// A text.
#[tactic(auto, unfolding(crate::specs::Reading::text_in))]
pub(crate) fn text_in(value: &Value) -> Result<&str, RequestEnd>
    ensures ok { IfOk result (λ text. text_in (view value.now) ≡ Ok text.now) }
    ensures err { IfErr result (λ e. Gives (Err e) (text_in (view value.now))) }
{
    match value.as_str() {
        Some(text) => Ok(text),
        None => Err(refused(Code::WrongType)),
    }
}

/// A whole number from 0 to 2^64 - 1.
pub struct Whole;

impl Kind for Whole {
    type Read = u64;

    ghost reading = { whole_in };

    ghost Holds = { λ _. ⊤ };

    #[tactic(auto, unfolding(crate::specs::Reading::whole_in))]
    fn read(_alloc: Global, value: &Value) -> Result<u64, RequestEnd> {
        match value.as_u64() {
            Some(number) => Ok(number),
            None => Err(refused(Code::WrongType)),
        }
    }
}

/// `true` or `false`.
pub struct Truth;

impl Kind for Truth {
    type Read = bool;

    ghost reading = { truth_in };

    ghost Holds = { λ _. ⊤ };

    #[tactic(auto, unfolding(crate::specs::Reading::truth_in))]
    fn read(_alloc: Global, value: &Value) -> Result<bool, RequestEnd> {
        match value.as_bool() {
            Some(truth) => Ok(truth),
            None => Err(refused(Code::WrongType)),
        }
    }
}

/// That a value is an object.
#[tactic(auto, unfolding(crate::specs::Reading::object_in))]
pub fn object_in(value: &Value) -> Result<&Value, RequestEnd>
    ensures ok { IfOk result (λ object. (object.now ≡ value.now) × (object_in (view value.now) ≡ Ok (view object.now))) }
    ensures err { IfErr result (λ e. Gives (Err e) (object_in (view value.now))) }
{
    if value.is_object() {
        Ok(value)
    } else {
        Err(refused(Code::WrongType))
    }
}

/// A name, of an alarm too: 1 to 64 bytes.
pub struct Name;

impl Kind for Name {
    type Read = Text;

    ghost reading = { name_in };

    ghost Holds = { IsName };

    #[tactic(auto, unfolding(crate::specs::Values::name_in))]
    fn read(alloc: Global, value: &Value) -> Result<Text, RequestEnd> {
        let text = text_in(value)?;
        if text.is_empty() || text.len() > 64 {
            return Err(refused(Code::BadName));
        }
        Ok(Text::of(alloc, text)?)
    }
}

/// A comment: at most 128 bytes.
pub struct Comment;

impl Kind for Comment {
    type Read = Text;

    ghost reading = { comment_in };

    ghost Holds = { IsComment };

    #[tactic(auto, unfolding(crate::specs::Values::comment_in))]
    fn read(alloc: Global, value: &Value) -> Result<Text, RequestEnd> {
        let text = text_in(value)?;
        if text.len() > 128 {
            return Err(refused(Code::BadComment));
        }
        Ok(Text::of(alloc, text)?)
    }
}

/// The name of a zone: 1 to 32 bytes.
pub struct Zone;

impl Kind for Zone {
    type Read = ZoneName;

    ghost reading = { zone_in };

    ghost Holds = { λ _. ⊤ };

    #[tactic(auto, unfolding(crate::specs::Values::zone_in))]
    fn read(_alloc: Global, value: &Value) -> Result<ZoneName, RequestEnd> {
        let text = text_in(value)?;
        match ZoneName::of(text) {
            Some(zone) => Ok(zone),
            None => Err(refused(Code::BadZone)),
        }
    }
}

/// A wait in milliseconds: at most a week.
pub struct Wait;

impl Kind for Wait {
    type Read = u32;

    ghost reading = { wait_in };

    ghost Holds = { IsWait };

    #[tactic(auto, unfolding(crate::specs::Values::wait_in))]
    fn read(alloc: Global, value: &Value) -> Result<u32, RequestEnd> {
        let number = Whole::read(alloc, value)?;
        if number > 604_800_000 {
            return Err(refused(Code::BadWait));
        }
        Ok(number as u32)
    }
}
