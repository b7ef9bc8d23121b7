//! What makes readers, and how both sides begin.
ghost use Rattle.std.specs.Prelude.{◌≡◌, ◌≢◌, ℕ, ◌+◌, ◌<◌, ◌≤◌, List, [], length, All, Err, IfOk};
ghost use Rattle.arc_bytes.specs.Counts.{HasRisen};
ghost use Rattle.arc_snapshot.specs.Rule.{newcomer};
ghost use Rattle.arc_snapshot.specs.declared.places.SidesEnd.TheVariants.{NoPlace};

use crate::{ReadSide, WriteSide};
use arc_bytes::Memory;
use std::alloc::Global;
use std::sync::Wait;

/// Why there is no reader.
#[derive(Clone, Copy, Debug, PartialEq, Eq)]
pub enum PlaceEnd {
    /// No place for a reader was found: the count of refusals rose.
    Refused,
    /// There was no memory.
    Memory,
}

/// Why there are no sides.
#[derive(Clone, Copy, Debug, PartialEq, Eq)]
pub enum SidesEnd {
    /// No place was found for one more reader, after so many were made.
    NoPlace { made: u32 },
    /// There was no memory.
    Memory,
}

/// What makes readers of a side.
pub trait Places {
    ghost use Rattle.std.specs.Prelude.{ℕ, Err};
    ghost use Rattle.arc_snapshot.specs.declared.places.PlaceEnd.TheVariants.{Refused};

    /// How many readers were refused. At 2^64 - 1 the count stands still.
    ghost refusals: { Self → ℕ };

    /// One more reader of this side. It has entered nothing, and was told of nothing.
    fn reader<R: Wait + Drop>(&mut self, side: &mut WriteSide<R>) -> Result<ReadSide, PlaceEnd>
        ensures reader { IfOk result (λ r. r ≡ newcomer side.old.sides) }
        ensures side { side.new ≡ side.old }
        ensures later { refusals self.old ≤ refusals self.new }
        ensures cause { result ≡ Err Refused → HasRisen (refusals self.old) (refusals self.new) };
}

/// Readers by the handles of `left_right`.
#[derive(Clone, Copy, Debug, Default)]
pub struct Handles {
    refused: u64,
}

impl Places for Handles {
    ghost refusals = { λ h. h.refused };

    fn reader<R: Wait + Drop>(&mut self, side: &mut WriteSide<R>) -> Result<ReadSide, PlaceEnd> {
        match side.reader() {
            Ok(reader) => Ok(reader),
            Err(Memory) => {
                self.refused = self.refused.saturating_add(1);
                Err(PlaceEnd::Refused)
            }
        }
    }
}

/// A write side with no commands yet, and so many readers of it.
pub fn sides<P: Places, R: Wait + Drop>(
    alloc: Global,
    rt: R,
    readers: u32,
    places: &mut P,
) -> Result<(WriteSide<R>, Vec<ReadSide>), SidesEnd>
    ensures published { IfOk result (λ s. s.0.published ≡ []) }
    ensures taken { IfOk result (λ s. s.0.taken ≡ []) }
    ensures readers { IfOk result (λ s. (length s.1.items ≡ readers) × All (λ r. r ≡ newcomer s.0.sides) s.1.items) }
    ensures later { P.refusals places.old ≤ P.refusals places.new }
    ensures cause { (made : ℕ) → result ≡ Err (NoPlace made) →
        (made < readers) × HasRisen (P.refusals places.old) (P.refusals places.new) }
{
    let mut side = match WriteSide::new(alloc, rt, readers.max(1)) {
        Ok(side) => side,
        Err(Memory) => return Err(SidesEnd::Memory),
    };
    let reads = seat(alloc, &mut side, readers, places)?;
    Ok((side, reads))
}

/// So many readers of this side.
fn seat<P: Places, R: Wait + Drop>(
    alloc: Global,
    side: &mut WriteSide<R>,
    readers: u32,
    places: &mut P,
) -> Result<Vec<ReadSide>, SidesEnd>
    ensures side { side.new ≡ side.old }
    ensures readers { IfOk result (λ rs. (length rs.items ≡ readers) × All (λ r. r ≡ newcomer side.old.sides) rs.items) }
    ensures later { P.refusals places.old ≤ P.refusals places.new }
    ensures cause { (made : ℕ) → result ≡ Err (NoPlace made) →
        (made < readers) × HasRisen (P.refusals places.old) (P.refusals places.new) }
{
    let mut reads = Vec::new(alloc);
    for made in 0..readers {
        match places.reader(side) {
            Ok(reader) => keep(&mut reads, reader)?,
            Err(PlaceEnd::Refused) => return Err(SidesEnd::NoPlace { made }),
            Err(PlaceEnd::Memory) => return Err(SidesEnd::Memory),
        }
    }
    Ok(reads)
}

/// One reader more.
fn keep(reads: &mut Vec<ReadSide>, reader: ReadSide) -> Result<(), SidesEnd>
    ensures kept { IfOk result (λ _. (length reads.new.items ≡ length reads.old.items + 1)) }
    ensures all { (sides : List ℕ) → reader ≡ newcomer sides → All (λ r. r ≡ newcomer sides) reads.old.items
        → All (λ r. r ≡ newcomer sides) reads.new.items }
    ensures cause { (made : ℕ) → result ≢ Err (NoPlace made) }
{
    match reads.push(reader) {
        Ok(()) => Ok(()),
        Err(refused) => {
            drop(refused);
            Err(SidesEnd::Memory)
        }
    }
}
