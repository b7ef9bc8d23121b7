//! The tracks of five journals, by which they are audited.
ghost use Rattle.std.specs.Prelude.{◌≡◌, ℕ, List, Err, IfOk, IfErr};
ghost use Rattle.arc_data.specs.declared.record.Record.{Record};
ghost use Rattle.arc_voting.specs.Journals.{journals_of, promises_of};
ghost use Rattle.arc_voting.specs.Parts.{Shows};
ghost use Rattle.arc_voting.specs.Sound.{IsKept, NamesTheFirst};
ghost use Rattle.arc_voting.specs.Tracks.{AreWellFormed, AreEachTracksOf, AreTracksOf};
ghost use Rattle.arc_voting.specs.Walk.{HaveRoom};

use crate::formed::{count_promises, first_unfit_breach};
use crate::index::{Index, index_of};
use crate::slot::Slot;
use crate::track::{Track, track_of};
use crate::{AuditEnd, Rule};
use arc_bytes::Five;
use arc_data::Record;
use std::alloc::{AllocError, Global};

/// Where the votes of each slot stand in five well-formed journals, and where their commands begin. With these an audit takes no
/// memory.
#[derive(Drop)]
pub struct Tracks {
    /// Where each journal's votes stand.
    pub(crate) each: Five<Track>,
    /// Where commands begin, and which slot they close.
    pub(crate) index: Index,
}

impl Tracks {
    /// The tracks of five journals. Where one of them isn't well-formed, the first breach of V1 is answered before any memory is
    /// taken; `Memory` comes where there was no memory left for the tracks.
    pub fn of(alloc: Global, js: &Five<&[Record]>) -> Result<Tracks, AuditEnd>
        requires { HaveRoom (journals_of js.now) }
        ensures tracked { IfOk result (λ tracks. AreTracksOf tracks (journals_of js.now)) }
        ensures first { IfErr result (λ end. NamesTheFirst (journals_of js.now) end) }
        ensures formed { result ≡ Err AuditEnd.Memory → IsKept (journals_of js.now) Rule.V1 }
    {
        let promises = count_promises(js);
        if let Some(breach) = first_unfit_breach(js, promises) {
            return Err(AuditEnd::Breach(breach));
        }
        match tracks_of(alloc, js, promises) {
            Ok(tracks) => Ok(tracks),
            Err(AllocError) => Err(AuditEnd::Memory),
        }
    }

    /// One slot of the five journals.
    pub(crate) fn slot_at(&self, number: u32) -> Slot
        ensures number { result.number ≡ number }
        ensures shown { (js : ℕ → List Record) → AreTracksOf self.now js → Shows js result }
    {
        let parts = Five {
            d0: self.each.d0.part(number),
            d1: self.each.d1.part(number),
            d2: self.each.d2.part(number),
            d3: self.each.d3.part(number),
            d4: self.each.d4.part(number),
        };
        Slot { number, parts }
    }
}

/// The tracks of five well-formed journals, which hold so many promises.
fn tracks_of(alloc: Global, js: &Five<&[Record]>, promises: u64) -> Result<Tracks, AllocError>
    requires counted { promises ≡ promises_of (journals_of js.now) }
    requires formed { IsKept (journals_of js.now) Rule.V1 }
    ensures { IfOk result (λ tracks. AreTracksOf tracks (journals_of js.now)) }
{
    let each = each_track(alloc, js, promises)?;
    let index = index_of(alloc, js)?;
    Ok(Tracks { each, index })
}

/// The track of each of five well-formed journals.
fn each_track(alloc: Global, js: &Five<&[Record]>, promises: u64) -> Result<Five<Track>, AllocError>
    requires { AreWellFormed promises (journals_of js.now) }
    ensures { IfOk result (λ each. AreEachTracksOf each (journals_of js.now)) }
{
    Ok(Five {
        d0: track_of(alloc, js.d0, promises)?,
        d1: track_of(alloc, js.d1, promises)?,
        d2: track_of(alloc, js.d2, promises)?,
        d3: track_of(alloc, js.d3, promises)?,
        d4: track_of(alloc, js.d4, promises)?,
    })
}
