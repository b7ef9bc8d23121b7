//! Well-formed journals, and the first breach of that.
ghost use Rattle.std.specs.Prelude.{◌≡◌, ◌≢◌, ◌↔◌, ◌<◌, ◌≤◌, ◌+◌, ◌*◌, ◌^◌, ℕ, IsTrue, [], length, take};
ghost use Rattle.std.specs.List.{slice_get};
ghost use Rattle.arc_voting.specs.Journals.{journals_of, is_promised, promised_count, promises_of};
ghost use Rattle.arc_voting.specs.Formed.{IsBallot, IsPromise, IsVote};
ghost use Rattle.arc_data.specs.Entries.{closed_len};
ghost use Rattle.arc_voting.specs.Sound.{IsWellFormedIn};
ghost use Rattle.arc_voting.specs.Walk.{Describes, IsFirstIn, IsFirstUnder, HaveRoom, IsFitBehind};

use crate::entries::is_one_command;
use crate::{Breach, Rule};
use arc_bytes::Five;
use arc_data::{Command, Record};

/// What the entries of a journal so far say of the next one.
#[derive(Clone, Copy, Drop)]
pub struct Seen {
    /// How often the node was started.
    pub opened: usize,
    /// How many slots it closed.
    pub closed: usize,
    /// The highest ballot that it promised, and the last one.
    pub promise: u64,
    /// Behind the entry that closed the last slot.
    pub start: usize,
}

/// Whether a ballot is at least 1 and at most five times the number of promises.
fn is_ballot(ballot: u64, promises: u64) -> bool
    requires { promises < 2 ^ 40 }
    ensures { IsTrue result ↔ IsBallot promises ballot }
{
    1 <= ballot && ballot <= 5 * promises
}

impl Seen {
    /// Before the first entry.
    fn none(journal: &[Record]) -> Seen
        ensures { Describes result journal.now 0 }
    {
        Seen {
            opened: 0,
            closed: 0,
            promise: 0,
            start: 0,
        }
    }

    /// Whether a promise fits behind the entries before this place.
    fn admits_promise(
        &self,
        journal: &[Record],
        place: usize,
        promises: u64,
        from: u32,
        ballot: u64,
    ) -> bool
        requires within { place < length journal.now }
        requires seen { Describes self.now journal.now place }
        requires room { promises < 2 ^ 40 }
        ensures { IsTrue result ↔ IsPromise promises (take place journal.now) from ballot }
    {
        if place == 0 {
            return false;
        }
        if from as usize != self.closed {
            return false;
        }
        if ballot <= self.promise {
            return false;
        }
        is_ballot(ballot, promises)
    }

    /// Whether a vote fits behind the entries before this place.
    fn admits_vote(
        &self,
        journal: &[Record],
        place: usize,
        promises: u64,
        slot: u32,
        ballot: u64,
        command: &Command,
    ) -> bool
        requires within { place < length journal.now }
        requires seen { Describes self.now journal.now place }
        requires room { promises < 2 ^ 40 }
        ensures { IsTrue result ↔ IsVote promises (take place journal.now) slot ballot command.now }
    {
        if place == 0 {
            return false;
        }
        if slot as usize != self.closed {
            return false;
        }
        if ballot < self.promise {
            return false;
        }
        if !is_ballot(ballot, promises) {
            return false;
        }
        is_one_command(&journal[self.start..place], slot, ballot, command)
    }

    /// Whether closing this slot fits behind the entries before this place.
    fn admits_closed(&self, journal: &[Record], place: usize, slot: u32) -> bool
        requires within { place < length journal.now }
        requires seen { Describes self.now journal.now place }
        ensures { IsTrue result ↔ ((take place journal.now ≢ []) × (slot ≡ closed_len (take place journal.now))) }
    {
        if place == 0 {
            return false;
        }
        slot as usize == self.closed
    }

    /// Whether the journal's entry at this place fits those before it, where five journals have so many promises.
    fn admits(&self, journal: &[Record], place: usize, promises: u64) -> bool
        requires within { place < length journal.now }
        requires seen { Describes self.now journal.now place }
        requires room { promises < 2 ^ 40 }
        ensures { IsTrue result ↔ IsFitBehind promises journal.now place }
    {
        match &journal[place] {
            Record::Opened { inc } => *inc as usize == self.opened + 1,
            Record::Promised { from, ballot } => {
                self.admits_promise(journal, place, promises, *from, *ballot)
            }
            Record::Voted {
                slot,
                ballot,
                command,
            } => self.admits_vote(journal, place, promises, *slot, *ballot, command),
            Record::Closed { slot, .. } => self.admits_closed(journal, place, *slot),
        }
    }

    /// Takes note of the entry at this place, which fits those before it.
    fn note(&mut self, journal: &[Record], place: usize, promises: u64)
        requires within { place < length journal.now }
        requires seen { Describes self.old journal.now place }
        requires fits { IsFitBehind promises journal.now place }
        ensures { Describes self.new journal.now (place + 1) }
    {
        match &journal[place] {
            Record::Opened { .. } => self.opened += 1,
            Record::Promised { ballot, .. } => self.promise = *ballot,
            Record::Voted { .. } => {}
            Record::Closed { .. } => {
                self.closed += 1;
                self.start = place + 1;
            }
        }
    }
}

/// Whether this entry is a promise.
#[tactic(auto, unfolding(crate::specs::Journals::is_promised))]
fn is_promise(entry: &Record) -> bool
    ensures { result ≡ is_promised entry.now }
{
    matches!(entry, Record::Promised { .. })
}

/// How many promises a journal holds.
fn promises_in(journal: &[Record]) -> usize
    ensures counted { result ≡ promised_count journal.now }
    ensures few { result ≤ length journal.now }
{
    let mut promises = 0;
    for entry in journal {
        promises += usize::from(is_promise(entry));
    }
    promises
}

/// How many promises the five journals hold.
pub fn count_promises(journals: &Five<&[Record]>) -> u64
    requires { HaveRoom (journals_of journals.now) }
    ensures counted { result ≡ promises_of (journals_of journals.now) }
    ensures room { result < 2 ^ 40 }
{
    let first = promises_in(journals.d0);
    let second = promises_in(journals.d1);
    let third = promises_in(journals.d2);
    let fourth = promises_in(journals.d3);
    let fifth = promises_in(journals.d4);
    (first + second + third + fourth + fifth) as u64
}

/// The first place of a journal at which it isn't well-formed, where five journals have so many promises.
fn first_unfit(journal: &[Record], promises: u64) -> Option<usize>
    requires { promises < 2 ^ 40 }
    ensures { IsFirstIn (IsWellFormedIn promises journal.now) result }
{
    if journal.is_empty() {
        return Some(0);
    }
    let mut seen = Seen::none(journal);
    for place in 0..journal.len() {
        if !seen.admits(journal, place, promises) {
            return Some(place);
        }
        seen.note(journal, place, promises);
    }
    None
}

/// The first entry at which a journal isn't well-formed, by node and then place.
pub fn first_unfit_breach(journals: &Five<&[Record]>, promises: u64) -> Option<Breach>
    requires fits { HaveRoom (journals_of journals.now) }
    requires counted { promises ≡ promises_of (journals_of journals.now) }
    requires room { promises < 2 ^ 40 }
    ensures { IsFirstUnder (journals_of journals.now) Rule.V1 result }
{
    for node in 0..5 {
        if let Some(place) = first_unfit(journals.get(node), promises) {
            return Some(Breach::of(Rule::V1, node, place));
        }
    }
    None
}
