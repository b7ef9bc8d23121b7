//! A list of entries with a table of the slots that they close.
ghost use Rattle.std.specs.Prelude.{◌≡◌, ◌<◌, ◌≤◌, ◌+◌, ◌^◌, ◌++◌, ◌∷◌, [], true, length, drop, vec_len, vec_capacity, unwrap_or, IfOk, IfErr, OnOk, IsOk};
ghost use Rattle.std.specs.List.{slice_get};
ghost use Rattle.std.specs.Option.{option_copied};
ghost use Rattle.arc_data.specs.Entries.{closed_len, promise, promised_in};
ghost use Rattle.arc_voting.specs.Indexed.{have_room, place_of, places_of};
ghost use Rattle.arc_voting.specs.Lists.{applied};
ghost use Rattle.arc_voting.specs.Tails.{tail_of};

use crate::applied::closed_command;
use arc_bytes::Memory;
use arc_data::{Command, Record};
use std::alloc::Global;
use std::marker::Model;

/// Entries in order, with a table of the places at which they close a slot. What they come to is known without a walk over
/// them.
#[derive(Drop)]
pub struct Indexed {
    records: Vec<Record>,
    /// The place of the entry that closes each slot, in order.
    places: Vec<u32>,
    /// The last promised ballot, or 0.
    promise: u64,
}

impl Model for Indexed {
    ghost use Rattle.arc_voting.specs.Indexed.{AreIndexed, Listed, have_room};

    ghost Value = { Listed };

    ghost view = { λ i. record { entries = i.records.items; has_room = have_room i.records i.places } };

    ghost invariant = { λ i. AreIndexed i.records.items i.places.items i.promise };
}

impl Indexed {
    /// No entries.
    pub fn new(alloc: Global) -> Indexed
        ensures { result.entries ≡ [] }
    {
        Indexed {
            records: Vec::new(alloc),
            places: Vec::new(alloc),
            promise: 0,
        }
    }

    /// These entries, whatever they are, fewer than 2^32. `Memory` comes where there was no memory left for the table.
    pub fn of(alloc: Global, records: Vec<Record>) -> Result<Indexed, Memory>
        requires few { length records.items < 2 ^ 32 }
        ensures { IfOk result (λ list. list.entries ≡ records.items) }
    {
        match table_of(alloc, records.as_slice()) {
            Ok((places, promise)) => Ok(Indexed {
                records,
                places,
                promise,
            }),
            Err(Memory) => {
                drop(records);
                Err(Memory)
            }
        }
    }

    /// Makes room, so that the next `push` answers Ok.
    pub fn reserve(&mut self) -> Result<(), Memory>
        ensures same { self.new.entries ≡ self.old.entries }
        ensures room { OnOk result (self.new.has_room ≡ true) }
        ensures ready { self.old.has_room ≡ true → IsOk result }
    {
        reserve_both(&mut self.records, &mut self.places)
    }

    /// Puts an entry behind them, whatever it is. For want of memory it is given back, and nothing has changed.
    pub fn push(&mut self, r: Record) -> Result<(), (Record, Memory)>
        requires few { length self.old.entries + 1 < 2 ^ 32 }
        ensures pushed { OnOk result (self.new.entries ≡ self.old.entries ++ r ∷ []) }
        ensures given_back { IfErr result (λ e. (e.0 ≡ r) × (self.new.entries ≡ self.old.entries)) }
        ensures room { self.old.has_room ≡ true → IsOk result }
    {
        match reserve_both(&mut self.records, &mut self.places) {
            Ok(()) => {}
            Err(Memory) => return Err((r, Memory)),
        }
        let place = self.records.len() as u32;
        self.promise = note(&mut self.places, self.promise, place, &r);
        push_within(&mut self.records, r);
        Ok(())
    }

    /// The entries.
    pub fn records(&self) -> &[Record]
        ensures { result.now ≡ self.now.entries }
    {
        self.records.as_slice()
    }

    /// How many of them close a slot.
    pub fn closed_len(&self) -> u32
        ensures { result ≡ closed_len self.now.entries }
    {
        self.places.len() as u32
    }

    /// The ballot that the last promise among them is for, or 0.
    pub fn promise(&self) -> u64
        ensures { result ≡ promise self.now.entries }
    {
        self.promise
    }

    /// The command that is closed at this slot, or `None` where the list ends before it.
    pub fn applied_at(&self, slot: u32) -> Option<&Command>
        ensures { option_copied result ≡ slice_get (applied self.now.entries) slot }
    {
        command_at(self.records.as_slice(), self.places.as_slice(), slot)
    }

    /// The entries behind the last one that closes a slot, all of them where there is none.
    pub fn tail(&self) -> &[Record]
        ensures { result.now ≡ tail_of self.now.entries }
    {
        behind_last(self.records.as_slice(), self.places.as_slice())
    }
}

/// The places at which these entries close a slot, and the last promised ballot, or 0.
fn table_of(alloc: Global, records: &[Record]) -> Result<(Vec<u32>, u64), Memory>
    requires few { length records.now < 2 ^ 32 }
    ensures table { IfOk result (λ known. known.0.items ≡ places_of records.now) }
    ensures last { IfOk result (λ known. known.1 ≡ promise records.now) }
{
    let mut places = Vec::new(alloc);
    let mut promise = 0;
    for place in 0..records.len() {
        places.reserve(1)?;
        promise = note(&mut places, promise, place as u32, &records[place]);
    }
    Ok((places, promise))
}

/// Puts the place of an entry into the table, if the entry closes a slot. Gives the last promised ballot with this entry,
/// where it was `promise` before it.
fn note(places: &mut Vec<u32>, promise: u64, place: u32, entry: &Record) -> u64
    requires room { vec_len places.old < vec_capacity places.old }
    ensures table { places.new.items ≡ places.old.items ++ place_of place entry.now }
    ensures last { result ≡ unwrap_or (promised_in entry.now) promise }
{
    match entry {
        Record::Opened { .. } => promise,
        Record::Promised { ballot, .. } => *ballot,
        Record::Voted { .. } => promise,
        Record::Closed { .. } => {
            push_within(places, place);
            promise
        }
    }
}

/// Makes room for one more in both.
fn reserve_both(records: &mut Vec<Record>, places: &mut Vec<u32>) -> Result<(), Memory>
    ensures records { records.new.items ≡ records.old.items }
    ensures places { places.new.items ≡ places.old.items }
    ensures room { OnOk result (have_room records.new places.new ≡ true) }
    ensures ready { have_room records.old places.old ≡ true → IsOk result }
{
    records.reserve(1)?;
    places.reserve(1)?;
    Ok(())
}

/// Puts an item behind a list that has room for it.
fn push_within<T: Drop>(items: &mut Vec<T>, item: T)
    requires { vec_len items.old < vec_capacity items.old }
    ensures { items.new.items ≡ items.old.items ++ item ∷ [] }
{
    match items.push(item) {
        Ok(()) => {}
        Err(_) => unreachable!(),
    }
}

/// The command that the entry at this slot's place in the table closes the slot with, or `None` where the table ends before
/// it.
fn command_at<'a>(records: &'a [Record], places: &[u32], slot: u32) -> Option<&'a Command>
    requires table { places.now ≡ places_of records.now }
    ensures { option_copied result ≡ slice_get (applied records.now) slot }
{
    match place_at(places, slot as usize) {
        Some(place) => closed_command(&records[place as usize]),
        None => None,
    }
}

/// The entries behind the last place of the table, all of them where it has none.
fn behind_last<'a>(records: &'a [Record], places: &[u32]) -> &'a [Record]
    requires table { places.now ≡ places_of records.now }
    ensures { result.now ≡ tail_of records.now }
{
    match places.last() {
        Some(place) => entries_from(records, *place as usize + 1),
        None => records,
    }
}

/// The place that the table has for this slot.
fn place_at(places: &[u32], slot: usize) -> Option<u32>
    ensures { result ≡ slice_get places.now slot }
{
    match places.get(slot) {
        Some(place) => Some(*place),
        None => None,
    }
}

/// The entries from a place on.
fn entries_from(records: &[Record], place: usize) -> &[Record]
    requires { place ≤ length records.now }
    ensures { result.now ≡ drop place records.now }
{
    &records[place..]
}
