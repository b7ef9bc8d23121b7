//! Kinds of values, and how members of that kind are read.
ghost use Rattle.std.specs.Prelude.{◌≡◌, Some, None, IfNone, IfOk, IfSome, option_map};
ghost use Rattle.serde_json.specs.View.{view};
ghost use Rattle.arc_members.specs.Members.{defaulted, given, optional, required};
ghost use Rattle.arc_members.specs.Reading.{Gives, Reading};

use crate::{Code, RequestEnd};
use serde_json::Value;
use std::alloc::Global;

/// A kind of value that a member may have.
pub trait Kind {
    /// What a value of this kind is read as.
    type Read: Drop;

    // How it is read.
    ghost reading: { Reading Self.Read };

    // What holds of all that is read.
    ghost Holds: { Self.Read → Type 0 };

    /// What a value is read as.
    fn read(alloc: Global, value: &Value) -> Result<Self::Read, RequestEnd>
        ensures gives { Gives result (reading (view value.now)) }
        ensures within { IfOk result Holds };
}

/// The refusal with this code.
pub(crate) fn refused(code: Code) -> RequestEnd
    ensures { result ≡ RequestEnd.BadRequest code }
{
    RequestEnd::BadRequest { code }
}

/// The member of this name; `null` counts as absent.
#[tactic(auto, unfolding(crate::specs::Members::given))]
pub fn given<'v>(object: &'v Value, name: &str) -> Option<&'v Value>
    ensures { option_map (λ v. view v.now) result ≡ given name.now (view object.now) }
{
    let value = object.get(name)?;
    if value.is_null() { None } else { Some(value) }
}

/// A member that has to be there.
#[tactic(auto, unfolding(crate::specs::Members::required))]
pub fn required<K: Kind>(alloc: Global, object: &Value, name: &str) -> Result<K::Read, RequestEnd>
    ensures gives { Gives result (required K.reading name.now (view object.now)) }
    ensures within { IfOk result K.Holds }
{
    match given(object, name) {
        Some(value) => K::read(alloc, value),
        None => Err(refused(Code::MissingMember)),
    }
}

/// A member that may be absent.
#[tactic(auto, unfolding(crate::specs::Members::optional))]
pub fn optional<K: Kind>(
    alloc: Global,
    object: &Value,
    name: &str,
) -> Result<Option<K::Read>, RequestEnd>
    ensures gives { Gives result (optional K.reading name.now (view object.now)) }
    ensures within { IfOk result (λ read. IfSome read K.Holds) }
{
    match given(object, name) {
        Some(value) => Ok(Some(K::read(alloc, value)?)),
        None => Ok(None),
    }
}

/// A member that is taken for a value where it is absent.
#[tactic(auto, unfolding(crate::specs::Members::defaulted))]
pub fn defaulted<K: Kind>(
    alloc: Global,
    object: &Value,
    name: &str,
    otherwise: K::Read,
) -> Result<K::Read, RequestEnd>
    requires { K.Holds otherwise }
    ensures gives { Gives result (defaulted otherwise K.reading name.now (view object.now)) }
    ensures within { IfOk result K.Holds }
{
    match given(object, name) {
        Some(value) => K::read(alloc, value),
        None => Ok(otherwise),
    }
}
