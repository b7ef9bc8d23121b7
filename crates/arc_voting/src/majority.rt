//! Three of five nodes, and what they choose.
ghost use Rattle.std.specs.Prelude.{◌≡◌, ◌↔◌, ◌<◌, ℕ, IsTrue};
ghost use Rattle.arc_bytes.specs.Five.{at};
ghost use Rattle.arc_data.specs.declared.command.Command.{Command};
ghost use Rattle.arc_voting.specs.Journals.{journals_of, ByThree};
ghost use Rattle.arc_voting.specs.Chosen.{HoldsVote, IsVoteWith, IsVotedByThree, IsChosen};
ghost use Rattle.arc_voting.specs.Settled.{IsSettled};
ghost use Rattle.arc_voting.specs.Parts.{Shows, part_of, ChoosesAmong, OfEach, OfSome};

use crate::slot::{Slot, entries_of, node_settles, node_voted, whole_slot};
use arc_bytes::Five;
use arc_data::{Command, Record};

/// Whether it holds of at least three nodes.
pub fn by_three(holds: &Five<bool>) -> bool
    ensures { IsTrue result ↔ ByThree (λ node. IsTrue (at holds.now node)) }
{
    let mut count: u8 = 0;
    for node in 0..5 {
        if *holds.get(node) {
            count += 1;
        }
    }
    3 <= count
}

/// Whether it holds of each node.
pub fn each_of_five(holds: &Five<bool>) -> bool
    ensures { IsTrue result ↔ OfEach (λ node. IsTrue (at holds.now node)) }
{
    for node in 0..5 {
        if !*holds.get(node) {
            return false;
        }
    }
    true
}

/// Whether it holds of some node.
pub fn some_of_five(holds: &Five<bool>) -> bool
    ensures { IsTrue result ↔ OfSome (λ node. IsTrue (at holds.now node)) }
{
    for node in 0..5 {
        if *holds.get(node) {
            return true;
        }
    }
    false
}

/// Whether at least three journals hold this vote.
pub fn is_voted_by_three(
    journals: &Five<&[Record]>,
    slot: &Slot,
    ballot: u64,
    command: &Command,
) -> bool
    requires { Shows (journals_of journals.now) slot.now }
    ensures { IsTrue result ↔ IsVotedByThree (journals_of journals.now) slot.now.number ballot command.now }
{
    let voted = Five {
        d0: node_voted(journals, slot, 0, ballot, command),
        d1: node_voted(journals, slot, 1, ballot, command),
        d2: node_voted(journals, slot, 2, ballot, command),
        d3: node_voted(journals, slot, 3, ballot, command),
        d4: node_voted(journals, slot, 4, ballot, command),
    };
    by_three(&voted)
}

/// Whether at least three journals settle this ballot for the command.
pub fn is_settled(journals: &Five<&[Record]>, slot: &Slot, ballot: u64, command: &Command) -> bool
    requires { Shows (journals_of journals.now) slot.now }
    ensures { IsTrue result ↔ IsSettled (journals_of journals.now) slot.now.number ballot command.now }
{
    let settled = Five {
        d0: node_settles(journals, slot, 0, ballot, command),
        d1: node_settles(journals, slot, 1, ballot, command),
        d2: node_settles(journals, slot, 2, ballot, command),
        d3: node_settles(journals, slot, 3, ballot, command),
        d4: node_settles(journals, slot, 4, ballot, command),
    };
    by_three(&settled)
}

/// Whether this entry is a vote at the slot, of a ballot in which three vote for the command.
fn is_chosen_with(
    journals: &Five<&[Record]>,
    slot: &Slot,
    entry: &Record,
    command: &Command,
) -> bool
    requires { Shows (journals_of journals.now) slot.now }
    ensures { IsTrue result ↔ IsVoteWith entry.now (λ its_slot ballot d. (its_slot ≡ slot.now.number)
        × IsVotedByThree (journals_of journals.now) slot.now.number ballot command.now) }
{
    match entry {
        Record::Voted {
            slot: its_slot,
            ballot,
            ..
        } => {
            if *its_slot != slot.number {
                return false;
            }
            is_voted_by_three(journals, slot, *ballot, command)
        }
        _ => false,
    }
}

/// Whether a vote of this node at the slot is of a ballot in which three vote for the command.
fn is_chosen_by(journals: &Five<&[Record]>, slot: &Slot, node: u8, command: &Command) -> bool
    requires of_five { node < 5 }
    requires shown { Shows (journals_of journals.now) slot.now }
    ensures { IsTrue result ↔ ChoosesAmong (journals_of journals.now)
        (part_of (journals_of journals.now node) (at slot.now.parts node)) slot.now.number command.now }
{
    entries_of(journals, slot, node)
        .iter()
        .any(|entry| is_chosen_with(journals, slot, entry, command))
}

/// Whether a command is chosen at the slot.
pub fn is_chosen(journals: &Five<&[Record]>, slot: &Slot, command: &Command) -> bool
    requires { Shows (journals_of journals.now) slot.now }
    ensures { IsTrue result ↔ IsChosen (journals_of journals.now) slot.now.number command.now }
{
    some_of_five(&Five {
        d0: is_chosen_by(journals, slot, 0, command),
        d1: is_chosen_by(journals, slot, 1, command),
        d2: is_chosen_by(journals, slot, 2, command),
        d3: is_chosen_by(journals, slot, 3, command),
        d4: is_chosen_by(journals, slot, 4, command),
    })
}

/// Whether this command is chosen at this slot: for some ballot at least three of the five journals hold that vote.
pub fn chosen(js: &Five<&[Record]>, slot: u32, c: &Command) -> bool
    ensures { IsTrue result ↔ IsChosen (journals_of js.now) slot c.now }
{
    is_chosen(js, &whole_slot(js, slot), c)
}
