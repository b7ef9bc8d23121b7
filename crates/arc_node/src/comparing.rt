//! The entries that were found on a disk, compared with those that the node keeps.
ghost use Rattle.std.specs.Prelude.{◌≡◌, ◌↔◌, ◌++◌, ◌∷◌, [], IsTrue, IfOk, length, take};
ghost use Rattle.std.specs.List.{slice_get};
ghost use Rattle.arc_node.specs.Comparing.{AgreesFor, IsKeptOrWith};

use arc_bytes::Memory;
use arc_data::{Equals, Record};
use std::alloc::Global;

/// How many entries two lists have in common at their front.
pub(crate) fn agreement(left: &[Record], right: &[Record]) -> usize
    ensures { AgreesFor left.now right.now result }
{
    for i in 0..left.len() {
        if i == right.len() {
            return i;
        }
        if !left[i].equals(&right[i]) {
            return i;
        }
    }
    left.len()
}

/// Whether two lists are the same entries, in order.
fn are_same(left: &[Record], right: &[Record]) -> bool
    ensures { IsTrue result ↔ (left.now ≡ right.now) }
{
    if left.len() != right.len() {
        return false;
    }
    for i in 0..left.len() {
        if !left[i].equals(&right[i]) {
            return false;
        }
    }
    true
}

/// Whether a list is another one with this entry behind it.
fn is_with(list: &[Record], front: &[Record], entry: &Record) -> bool
    ensures { IsTrue result ↔ (list.now ≡ front.now ++ entry.now ∷ []) }
{
    match list {
        [its_front @ .., last] => are_same(its_front, front) && last.equals(entry),
        [] => false,
    }
}

/// Whether the list that was found is the kept one, or that with the entry in doubt.
pub(crate) fn is_kept_or_with(kept: &[Record], doubt: &Option<Record>, found: &[Record]) -> bool
    ensures { IsTrue result ↔ IsKeptOrWith kept.now doubt.now found.now }
{
    if are_same(found, kept) {
        return true;
    }
    match doubt {
        Some(entry) => is_with(found, kept, entry),
        None => false,
    }
}

/// A copy of the entry at this place, or `None` past the end.
pub(crate) fn copy_at(
    alloc: Global,
    list: &[Record],
    place: usize,
) -> Result<Option<Record>, Memory>
    ensures { IfOk result (λ entry. entry ≡ slice_get list.now place) }
{
    match list.get(place) {
        Some(entry) => {
            let copy = entry.copy(alloc)?;
            Ok(Some(copy))
        }
        None => Ok(None),
    }
}
