//! One slot of five journals: the parts in which its votes stand.
ghost use Rattle.std.specs.Prelude.{◌≡◌, ◌↔◌, ◌<◌, ℕ, IsTrue};
ghost use Rattle.arc_bytes.specs.Five.{at};
ghost use Rattle.arc_voting.specs.Journals.{journals_of};
ghost use Rattle.arc_voting.specs.Chosen.{HoldsVote};
ghost use Rattle.arc_voting.specs.Settled.{HasPromisedAbove, Settles};
ghost use Rattle.arc_voting.specs.Parts.{VotesAt, part_of, Shows, ShowsPart};

use crate::entries::{has_vote_at, holds_vote};
use arc_bytes::Five;
use arc_data::{Command, Record};

/// What a journal says of one slot.
#[derive(Clone, Copy, Drop)]
pub struct Part {
    /// Its votes at the slot stand from this place on ..
    pub start: usize,
    /// .. and before this one.
    pub end: usize,
    /// The highest ballot that it promised from this slot or a lower one on, or 0.
    pub reach: u64,
}

/// What five journals say of one slot.
#[derive(Drop)]
pub struct Slot {
    pub number: u32,
    pub parts: Five<Part>,
}

/// The entries of a node's journal among which its votes at the slot stand.
pub fn entries_of<'a>(journals: &Five<&'a [Record]>, slot: &Slot, node: u8) -> &'a [Record]
    requires of_five { node < 5 }
    requires shown { Shows (journals_of journals.now) slot.now }
    ensures { result.now ≡ part_of (journals_of journals.now node) (at slot.now.parts node) }
{
    let part = slot.parts.get(node);
    &journals.get(node)[part.start..part.end]
}

/// Whether a node's journal holds this vote.
pub fn node_voted(
    journals: &Five<&[Record]>,
    slot: &Slot,
    node: u8,
    ballot: u64,
    command: &Command,
) -> bool
    requires of_five { node < 5 }
    requires shown { Shows (journals_of journals.now) slot.now }
    ensures { IsTrue result ↔ HoldsVote (journals_of journals.now node) slot.now.number ballot command.now }
{
    holds_vote(
        entries_of(journals, slot, node),
        slot.number,
        ballot,
        command,
    )
}

/// Whether a node's journal holds some vote at this ballot.
pub fn node_voted_at(journals: &Five<&[Record]>, slot: &Slot, node: u8, ballot: u64) -> bool
    requires of_five { node < 5 }
    requires shown { Shows (journals_of journals.now) slot.now }
    ensures { IsTrue result ↔ VotesAt (journals_of journals.now node) slot.now.number ballot }
{
    has_vote_at(entries_of(journals, slot, node), slot.number, ballot)
}

/// Whether a node's journal settles this ballot for the command: it voted so, or didn't vote there and never will.
pub fn node_settles(
    journals: &Five<&[Record]>,
    slot: &Slot,
    node: u8,
    ballot: u64,
    command: &Command,
) -> bool
    requires of_five { node < 5 }
    requires shown { Shows (journals_of journals.now) slot.now }
    ensures { IsTrue result ↔ Settles (journals_of journals.now node) slot.now.number ballot command.now }
{
    if node_voted(journals, slot, node, ballot, command) {
        return true;
    }
    if slot.parts.get(node).reach <= ballot {
        return false;
    }
    !node_voted_at(journals, slot, node, ballot)
}

/// The whole of a journal as the part of one slot.
fn whole_part(journal: &[Record], slot: u32) -> Part
    ensures { ShowsPart journal.now slot result }
{
    Part {
        start: 0,
        end: journal.len(),
        reach: reach_of(journal, slot),
    }
}

/// The highest ballot that a journal promised from this slot or a lower one on, or 0.
fn reach_of(journal: &[Record], slot: u32) -> u64
    ensures { (ballot : ℕ) → HasPromisedAbove journal.now slot ballot ↔ (ballot < result) }
{
    let mut reach = 0;
    for entry in journal {
        if let Record::Promised { from, ballot } = entry {
            if *from <= slot {
                reach = reach.max(*ballot);
            }
        }
    }
    reach
}

/// One slot, looked for in the whole journals.
pub fn whole_slot(journals: &Five<&[Record]>, number: u32) -> Slot
    ensures number { result.number ≡ number }
    ensures shown { Shows (journals_of journals.now) result }
{
    let parts = Five {
        d0: whole_part(journals.d0, number),
        d1: whole_part(journals.d1, number),
        d2: whole_part(journals.d2, number),
        d3: whole_part(journals.d3, number),
        d4: whole_part(journals.d4, number),
    };
    Slot { number, parts }
}
