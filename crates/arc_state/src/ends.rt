//! How an operation ends that a part refuses.
ghost use Rattle.std.specs.Prelude.{◌≡◌};
ghost use Rattle.arc_state.specs.Standing.{EndsAs};

use arc_bytes::Memory;
use arc_data::{Named, PartEnd, Refusal, Reply};

/// A part's refusal is the operation's; want of memory stays what it is.
pub(crate) fn refused(end: PartEnd) -> Result<Reply, Memory>
    ensures { EndsAs end result }
{
    match end {
        PartEnd::Refused(refusal) => Ok(Reply::Refused(refusal)),
        PartEnd::Memory => Err(Memory),
    }
}

/// What the command names isn't there.
pub(crate) fn not_found(id: Named) -> Reply
    ensures { result ≡ Reply.Refused (Refusal.NotFound id) }
{
    Reply::Refused(Refusal::NotFound { id })
}
