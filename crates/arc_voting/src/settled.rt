//! Whether every lower ballot is settled.
//!
//! Not every ballot below a vote's need be looked at: it is enough to look at those at which some journal votes at the
//! slot, and at the greatest one at which none does, since a promise above that one is above every smaller one.
ghost use Rattle.std.specs.Prelude.{◌≡◌, ◌↔◌, ◌<◌, ◌≤◌, ◌-◌, ℕ, IsTrue};
ghost use Rattle.arc_data.specs.declared.command.Command.{Command};
ghost use Rattle.arc_bytes.specs.Five.{at};
ghost use Rattle.arc_voting.specs.Journals.{journals_of};
ghost use Rattle.arc_voting.specs.Settled.{IsSettled, LowerAreSettled};
ghost use Rattle.arc_voting.specs.Parts.{Shows, VotesAt, part_of, SomeVotesAt, NoneVotesAt, IsSettledBelow, VotedAreSettled};

use crate::majority::{each_of_five, is_settled, some_of_five};
use crate::slot::{Slot, entries_of, node_voted_at};
use arc_bytes::Five;
use arc_data::{Command, Record};

/// Whether this entry is no vote at the slot, below the ballot, that isn't settled for the command.
#[tactic(auto, unfolding(crate::specs::Parts::IsSettledBelow))]
fn is_settled_entry(
    journals: &Five<&[Record]>,
    slot: &Slot,
    entry: &Record,
    ballot: u64,
    command: &Command,
) -> bool
    requires { Shows (journals_of journals.now) slot.now }
    ensures { IsTrue result ↔
        IsSettledBelow (journals_of journals.now) slot.now.number ballot command.now entry.now }
{
    match entry {
        Record::Voted {
            slot: its_slot,
            ballot: lower,
            ..
        } => {
            if *its_slot != slot.number || *lower == 0 || ballot <= *lower {
                return true;
            }
            is_settled(journals, slot, *lower, command)
        }
        _ => true,
    }
}

/// Whether each ballot of the votes at the slot among these entries, below the given one, is settled for the command.
fn are_settled(
    journals: &Five<&[Record]>,
    slot: &Slot,
    entries: &[Record],
    ballot: u64,
    command: &Command,
) -> bool
    requires { Shows (journals_of journals.now) slot.now }
    ensures { IsTrue result ↔
        VotedAreSettled (journals_of journals.now) entries.now slot.now.number ballot command.now }
{
    entries.iter().all(|entry| is_settled_entry(journals, slot, entry, ballot, command))
}

/// Whether each ballot at which this node votes, below the given one, is settled for the command.
fn its_votes_are_settled(
    journals: &Five<&[Record]>,
    slot: &Slot,
    node: u8,
    ballot: u64,
    command: &Command,
) -> bool
    requires of_five { node < 5 }
    requires shown { Shows (journals_of journals.now) slot.now }
    ensures { IsTrue result ↔ VotedAreSettled (journals_of journals.now)
        (part_of (journals_of journals.now node) (at slot.now.parts node)) slot.now.number ballot command.now }
{
    are_settled(
        journals,
        slot,
        entries_of(journals, slot, node),
        ballot,
        command,
    )
}

/// Whether some node votes at this ballot.
fn some_votes(journals: &Five<&[Record]>, slot: &Slot, ballot: u64) -> bool
    requires { Shows (journals_of journals.now) slot.now }
    ensures { IsTrue result ↔ SomeVotesAt (journals_of journals.now) slot.now.number ballot }
{
    some_of_five(&Five {
        d0: node_voted_at(journals, slot, 0, ballot),
        d1: node_voted_at(journals, slot, 1, ballot),
        d2: node_voted_at(journals, slot, 2, ballot),
        d3: node_voted_at(journals, slot, 3, ballot),
        d4: node_voted_at(journals, slot, 4, ballot),
    })
}

/// The greatest ballot below this one at which no node votes, or 0.
fn free_below(journals: &Five<&[Record]>, slot: &Slot, ballot: u64) -> u64
    requires { Shows (journals_of journals.now) slot.now }
    ensures below { result ≤ ballot - 1 }
    ensures free { 1 ≤ result → NoneVotesAt (journals_of journals.now) slot.now.number result }
    ensures greatest { (lower : ℕ) → result < lower → lower < ballot →
        SomeVotesAt (journals_of journals.now) slot.now.number lower }
{
    let mut free = ballot.saturating_sub(1);
    while 0 < free && some_votes(journals, slot, free) {
        free -= 1;
    }
    free
}

/// Whether each ballot at which some node votes, below the given one, is settled for the command.
fn voted_are_settled(
    journals: &Five<&[Record]>,
    slot: &Slot,
    ballot: u64,
    command: &Command,
) -> bool
    requires { Shows (journals_of journals.now) slot.now }
    ensures { IsTrue result ↔ ((lower : ℕ) → 1 ≤ lower → lower < ballot →
        SomeVotesAt (journals_of journals.now) slot.now.number lower →
        IsSettled (journals_of journals.now) slot.now.number lower command.now) }
{
    each_of_five(&Five {
        d0: its_votes_are_settled(journals, slot, 0, ballot, command),
        d1: its_votes_are_settled(journals, slot, 1, ballot, command),
        d2: its_votes_are_settled(journals, slot, 2, ballot, command),
        d3: its_votes_are_settled(journals, slot, 3, ballot, command),
        d4: its_votes_are_settled(journals, slot, 4, ballot, command),
    })
}

/// Whether every ballot below this one is settled at the slot for the command.
pub fn lower_are_settled(
    journals: &Five<&[Record]>,
    slot: &Slot,
    ballot: u64,
    command: &Command,
) -> bool
    requires { Shows (journals_of journals.now) slot.now }
    ensures { IsTrue result ↔ LowerAreSettled (journals_of journals.now) slot.now.number ballot command.now }
{
    if !voted_are_settled(journals, slot, ballot, command) {
        return false;
    }
    let free = free_below(journals, slot, ballot);
    if free == 0 {
        return true;
    }
    is_settled(journals, slot, free, command)
}
