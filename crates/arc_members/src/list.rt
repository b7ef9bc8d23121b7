//! Arrays: the count first, then the items, and then items that are there twice.
ghost use Rattle.std.specs.Prelude.{◌≡◌, ◌≤◌, All, Bool, IfErr, IfOk, Ok, length, map, true};
ghost use Rattle.std.specs.List.{list_any};
ghost use Rattle.serde_json.specs.View.{view};
ghost use Rattle.arc_data.specs.Valid.{HasBetween};
ghost use Rattle.arc_members.specs.Lists.{all_differ, counted, each, list_in, set_in};
ghost use Rattle.arc_members.specs.Reading.{Gives, items_in};

use crate::kind::refused;
use crate::{Code, Kind, RequestEnd};
use arc_data::List;
use serde_json::Value;
use std::alloc::Global;

/// A kind of value of which no two may be the same in a list.
pub trait Apart: Kind {
    // Whether two are the same.
    ghost same: { Self.Read → Self.Read → Bool };

    /// Whether two are the same.
    fn is_same(a: &Self::Read, b: &Self::Read) -> bool
        ensures { result ≡ same a.now b.now };
}

/// The items of an array.
#[tactic(auto, using(crate::proofs::Items::list_of_items), unfolding(crate::specs::Reading::items_in))]
fn items_in(value: &Value) -> Result<&Vec<Value>, RequestEnd>
    ensures ok { IfOk result (λ items. items_in (view value.now) ≡ Ok (map view items.now.items)) }
    ensures err { IfErr result (λ e. Gives (Err e) (items_in (view value.now))) }
{
    match value.as_array() {
        Some(items) => Ok(items),
        None => Err(refused(Code::WrongType)),
    }
}

/// So few and so many items.
fn counted(items: &[Value], least: usize, most: usize) -> Result<(), RequestEnd>
    ensures ok { IfOk result (λ _. (counted least most (map view items.now) ≡ Ok (map view items.now)) × (least ≤ length items.now) × (length items.now ≤ most)) }
    ensures err { IfErr result (λ e. Gives (Err e) (counted least most (map view items.now))) }
{
    if items.len() < least {
        return Err(refused(Code::EmptyEntries));
    }
    if items.len() > most {
        return Err(refused(Code::TooManyEntries));
    }
    Ok(())
}

/// Each item, in order.
fn each<K: Kind>(alloc: Global, items: &[Value]) -> Result<List<K::Read>, RequestEnd>
    ensures gives { Gives result (each K.reading (map view items.now)) }
    ensures within { IfOk result (λ read. All K.Holds read) }
    ensures count { IfOk result (λ read. length read ≡ length items.now) }
{
    let mut read = Vec::new(alloc);
    let mut rest = items;
    while let [item, others @ ..] = rest {
        let value = K::read(alloc, item)?;
        read.push(value)?;
        rest = others;
    }
    Ok(List::of(read))
}

/// A list of so few and so many items.
#[tactic(auto, unfolding(crate::specs::Lists::list_in))]
pub fn list_in<K: Kind>(
    alloc: Global,
    value: &Value,
    least: usize,
    most: usize,
) -> Result<List<K::Read>, RequestEnd>
    ensures gives { Gives result (list_in least most K.reading (view value.now)) }
    ensures within { IfOk result (λ read. All K.Holds read) }
    ensures count { IfOk result (HasBetween least most) }
{
    let items = items_in(value)?;
    counted(items, least, most)?;
    each::<K>(alloc, items)
}

/// Whether no two are the same.
fn all_differ<K: Apart>(items: &[K::Read]) -> bool
    ensures { result ≡ all_differ K.same items.now }
{
    let mut rest = items;
    while let [item, others @ ..] = rest {
        if is_among::<K>(item, others) {
            return false;
        }
        rest = others;
    }
    true
}

fn is_among<K: Apart>(item: &K::Read, others: &[K::Read]) -> bool
    ensures { result ≡ list_any (K.same item.now) others.now }
{
    others.iter().any(|other| K::is_same(item, other))
}

/// A list of so few and so many items, in which nothing is there twice.
#[tactic(auto, unfolding(crate::specs::Lists::set_in))]
pub fn set_in<K: Apart>(
    alloc: Global,
    value: &Value,
    least: usize,
    most: usize,
) -> Result<List<K::Read>, RequestEnd>
    ensures gives { Gives result (set_in K.same least most K.Kind.reading (view value.now)) }
    ensures within { IfOk result (λ read. All K.Kind.Holds read) }
    ensures count { IfOk result (HasBetween least most) }
    ensures differ { IfOk result (λ read. all_differ K.same read ≡ true) }
{
    let read = list_in::<K>(alloc, value, least, most)?;
    if all_differ::<K>(read.as_slice()) {
        Ok(read)
    } else {
        Err(refused(Code::DoubledEntry))
    }
}
