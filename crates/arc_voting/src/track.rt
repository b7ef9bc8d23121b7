//! Where the votes of each slot stand in a journal.
ghost use Rattle.std.specs.Prelude.{IfOk};
ghost use Rattle.arc_voting.specs.Tracks.{IsWellFormedWhole, IsTrackOf, ShowsOf};

use crate::slot::Part;
use arc_data::Record;
use std::alloc::{AllocError, Global};

/// Where the votes of each slot stand in a journal.
#[derive(Drop)]
pub struct Track {
    /// The part of each slot that the journal closed, and of the first open one.
    parts: Vec<Part>,
    /// The part of every later slot: nothing but what was promised.
    beyond: Part,
}

/// The parts of a well-formed journal.
pub fn track_of(alloc: Global, journal: &[Record], promises: u64) -> Result<Track, AllocError>
    requires { IsWellFormedWhole promises journal.now }
    ensures { IfOk result (λ track. IsTrackOf track journal.now) }
{
    let mut parts = Vec::new(alloc);
    let mut start = 0;
    let mut reach = 0;
    for place in 0..journal.len() {
        match &journal[place] {
            Record::Promised { ballot, .. } => reach = *ballot,
            Record::Closed { .. } => {
                parts.push(Part {
                    start,
                    end: place,
                    reach,
                })?;
                start = place + 1;
            }
            Record::Opened { .. } => {}
            Record::Voted { .. } => {}
        }
    }
    let end = journal.len();
    parts.push(Part { start, end, reach })?;
    let beyond = Part {
        start: end,
        end,
        reach,
    };
    Ok(Track { parts, beyond })
}

impl Track {
    /// The part of a slot.
    pub fn part(&self, slot: u32) -> Part
        ensures { ShowsOf self.now slot result }
    {
        let parts = self.parts.as_slice();
        let slot = slot as usize;
        if slot < parts.len() {
            return parts[slot];
        }
        self.beyond
    }
}
