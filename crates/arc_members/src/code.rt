//! Why a request is refused before it becomes a command.
ghost use Rattle.std.specs.Prelude.{◌≡◌};
ghost use Rattle.arc_members.specs.declared.code.RequestEnd.TheVariants as end;

use arc_bytes::Memory;
use std::alloc::{AllocError, AllocFailed};

/// The test that failed first.
#[derive(Clone, Copy, Debug, PartialEq, Eq)]
pub enum Code {
    /// No operation has this name.
    UnknownOperation,
    /// The body can't be read as JSON.
    BadJson,
    /// The body is no object.
    NotObject,
    /// A member that the operation needs is absent.
    MissingMember,
    /// A value has another type in JSON than is due. A number has to be whole, from 0 to 2^64 - 1.
    WrongType,
    /// A text is no identifier of the kind that is due.
    BadId,
    /// A name hasn't 1 to 64 bytes.
    BadName,
    /// A comment has more than 128 bytes.
    BadComment,
    /// A switch is neither `On` nor `Off`.
    BadState,
    /// A list is empty that needs an item.
    EmptyEntries,
    /// A list has too many items.
    TooManyEntries,
    /// An item stands twice in a list.
    DoubledEntry,
    /// Not exactly one of the two kinds of safety rules is given.
    BadRule,
    /// A type is none of `AND`, `OR` and `ATLEAST`.
    BadType,
    /// The threshold isn't from 1 to the number of controls.
    BadThreshold,
    /// A wait is above 604,800,000 milliseconds.
    BadWait,
    /// The name of a zone hasn't 1 to 32 bytes.
    BadZone,
    /// A time to go isn't 1 to 4,320 minutes or 1 to 72 hours.
    BadExpiry,
    /// A text is no date from 1970-01-01 to 9999-12-31.
    BadDate,
    /// A text is no window of the week.
    BadWindow,
    /// A status is none of those that are due.
    BadStatus,
}

/// Why a request gave no operation.
#[derive(Clone, Copy, Debug, PartialEq, Eq)]
pub enum RequestEnd {
    /// The request is refused.
    BadRequest { code: Code },
    /// There was no memory left to read it.
    Memory,
}

impl From<Memory> for RequestEnd {
    ghost from_gives = { λ _ e. e ≡ end.Memory };

    fn from(_: Memory) -> RequestEnd {
        RequestEnd::Memory
    }
}

impl From<AllocError> for RequestEnd {
    ghost from_gives = { λ _ e. e ≡ end.Memory };

    fn from(_: AllocError) -> RequestEnd {
        RequestEnd::Memory
    }
}

impl<T: Drop> From<AllocFailed<T>> for RequestEnd {
    ghost from_gives = { λ _ e. e ≡ end.Memory };

    fn from(_: AllocFailed<T>) -> RequestEnd {
        RequestEnd::Memory
    }
}
