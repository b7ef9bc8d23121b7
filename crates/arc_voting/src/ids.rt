//! What the identifiers of commands promise. These bodies walk whole journals, and name the first breach; `index` tells
//! sooner that there is none.
ghost use Rattle.std.specs.Prelude.{◌≡◌, ◌↔◌, ◌<◌, ◌≤◌, ℕ, IsTrue, length};
ghost use Rattle.arc_data.specs.declared.command.Command.{Command};
ghost use Rattle.arc_voting.specs.Journals.{journals_of};
ghost use Rattle.arc_voting.specs.Ids.{VotesFor, VotesSince, StartsAtItsNode, HasNoDouble, HasNoEarlierDouble, IsNotChosenBelow};
ghost use Rattle.arc_voting.specs.Tracks.{AreTracksOf};
ghost use Rattle.arc_voting.specs.Parts.{IsNoneChosenBelow, HasNoChosenBelow};

use crate::entries::{has_no_double, votes_for};
use crate::majority::{each_of_five, is_voted_by_three};
use crate::tracks::Tracks;
use arc_bytes::Five;
use arc_data::{Command, Equals, Record};

/// Whether the journal holds the start with this number and, after it, a vote for the command.
fn votes_since(journal: &[Record], inc: u32, command: &Command) -> bool
    ensures { IsTrue result ↔ VotesSince journal.now inc command.now }
{
    for place in 0..journal.len() {
        if let Record::Opened { inc: its_inc } = &journal[place] {
            if *its_inc == inc && votes_for(&journal[place + 1..], command) {
                return true;
            }
        }
    }
    false
}

/// Whether a command starts at the node of its id.
pub fn starts_at_its_node(journals: &Five<&[Record]>, command: &Command) -> bool
    ensures { IsTrue result ↔ StartsAtItsNode (journals_of journals.now) command.now }
{
    let id = command.id;
    if 5 <= id.node {
        return false;
    }
    votes_since(journals.get(id.node), id.inc, command)
}

/// Whether no vote before this place has the command's id and is for another one.
pub fn has_no_earlier_double(
    journals: &Five<&[Record]>,
    node: u8,
    place: usize,
    command: &Command,
) -> bool
    requires of_five { node < 5 }
    requires within { place ≤ length (journals_of journals.now node) }
    ensures { IsTrue result ↔ HasNoEarlierDouble (journals_of journals.now) node place command.now }
{
    for former in 0..node {
        if !has_no_double(journals.get(former), command) {
            return false;
        }
    }
    has_no_double(&journals.get(node)[..place], command)
}

/// Whether this entry isn't a vote, in a slot below this one and with the command's id, that has three of its kind.
#[tactic(auto, unfolding(crate::specs::Parts::IsNoneChosenBelow))]
fn is_no_chosen_below(
    journals: &Five<&[Record]>,
    tracks: &Tracks,
    entry: &Record,
    slot: u32,
    command: &Command,
) -> bool
    requires { AreTracksOf tracks.now (journals_of journals.now) }
    ensures { IsTrue result ↔ IsNoneChosenBelow (journals_of journals.now) slot command.now entry.now }
{
    match entry {
        Record::Voted {
            slot: lower,
            ballot,
            command: its_command,
        } => {
            if slot <= *lower || !its_command.id.equals(&command.id) {
                return true;
            }
            !is_voted_by_three(journals, &tracks.slot_at(*lower), *ballot, its_command)
        }
        _ => true,
    }
}

/// Whether no vote of this node, in a slot below this one and with the command's id, has three of its kind.
fn has_no_chosen_below(
    journals: &Five<&[Record]>,
    tracks: &Tracks,
    node: u8,
    slot: u32,
    command: &Command,
) -> bool
    requires of_five { node < 5 }
    requires tracked { AreTracksOf tracks.now (journals_of journals.now) }
    ensures { IsTrue result ↔
        HasNoChosenBelow (journals_of journals.now) (journals_of journals.now node) slot command.now }
{
    journals.get(node).iter().all(|entry| is_no_chosen_below(
        journals, tracks, entry, slot, command,
    ))
}

/// Whether no command with this command's id is chosen in a slot below this one.
pub fn is_not_chosen_below(
    journals: &Five<&[Record]>,
    tracks: &Tracks,
    slot: u32,
    command: &Command,
) -> bool
    requires { AreTracksOf tracks.now (journals_of journals.now) }
    ensures { IsTrue result ↔ IsNotChosenBelow (journals_of journals.now) slot command.now }
{
    each_of_five(&Five {
        d0: has_no_chosen_below(journals, tracks, 0, slot, command),
        d1: has_no_chosen_below(journals, tracks, 1, slot, command),
        d2: has_no_chosen_below(journals, tracks, 2, slot, command),
        d3: has_no_chosen_below(journals, tracks, 3, slot, command),
        d4: has_no_chosen_below(journals, tracks, 4, slot, command),
    })
}
