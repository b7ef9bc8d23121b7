//! What a list of entries says of its node.
ghost use Rattle.std.specs.Prelude.{◌≡◌, ◌<◌, ◌^◌, length};
ghost use Rattle.arc_data.specs.Entries.{told, closed_len, is_closed, promise, promised_in, vote_at, better, top_vote};

use crate::{Command, Record};

/// The closed length: how many of these entries close a slot.
pub fn closed_len(rs: &[Record]) -> u32
    requires { length rs.now < 2 ^ 32 }
    ensures { result ≡ closed_len rs.now }
{
    let mut closed = 0;
    for r in rs {
        closed += u32::from(is_closed(r));
    }
    closed
}

/// Whether an entry closes a slot.
#[tactic(auto, unfolding(crate::specs::Entries::is_closed))]
fn is_closed(r: &Record) -> bool
    ensures { result ≡ is_closed r.now }
{
    matches!(r, Record::Closed { .. })
}

/// The ballot of the last entry that promises one, or 0.
pub fn promise(rs: &[Record]) -> u64
    ensures { result ≡ promise rs.now }
{
    let mut promise = 0;
    for r in rs {
        if let Some(ballot) = promised_in(r) {
            promise = ballot;
        }
    }
    promise
}

/// The ballot that an entry promises.
fn promised_in(r: &Record) -> Option<u64>
    ensures { result ≡ promised_in r.now }
{
    match r {
        Record::Promised { ballot, .. } => Some(*ballot),
        _ => None,
    }
}

/// The vote of highest ballot at a slot, the first one of equal ballots, or `None` where there is no vote at the slot.
pub fn top_vote(rs: &[Record], slot: u32) -> Option<(u64, &Command)>
    ensures { told result ≡ top_vote slot rs.now }
{
    let mut top = None;
    for r in rs {
        top = better(top, vote_at(slot, r));
    }
    top
}

/// The vote of an entry, where it has one at this slot.
fn vote_at(slot: u32, r: &Record) -> Option<(u64, &Command)>
    ensures { told result ≡ vote_at slot r.now }
{
    match r {
        Record::Voted {
            slot: at,
            ballot,
            command,
        } if *at == slot => Some((*ballot, command)),
        _ => None,
    }
}

/// Of two votes that of the higher ballot, and the first one of equal ballots.
fn better<'a>(
    first: Option<(u64, &'a Command)>,
    later: Option<(u64, &'a Command)>,
) -> Option<(u64, &'a Command)>
    ensures { told result ≡ better (told first.entry) (told later.entry) }
{
    match (first, later) {
        (None, later) => later,
        (first, None) => first,
        (Some(first), Some(later)) => {
            if first.0 < later.0 {
                Some(later)
            } else {
                Some(first)
            }
        }
    }
}
