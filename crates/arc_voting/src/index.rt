//! An index of where commands begin and which slot they close, by which the rules on identifiers are seen to hold.
//!
//! Nothing rests on how the index is filled: each vote is compared with the entries that the index names for its
//! identifier. Where all agree, equal identifiers have equal commands, and each begins at its node. Where they don't, the
//! entries are gone through one by one.
ghost use Rattle.std.specs.Prelude.{◌≡◌, ◌↔◌, ◌<◌, ◌≤◌, ℕ, IsTrue, IfSome, Some, All};
ghost use Rattle.std.specs.List.{slice_get};
ghost use Rattle.arc_data.specs.declared.record.Record.TheVariants.{Opened};
ghost use Rattle.arc_voting.specs.Index.{number_of_id, begun_in, IsVoteAt, BeganAt, IsKnown, IsKnownVote, IsKnownClosed, AreKnown};
ghost use Rattle.arc_voting.specs.Journals.{journals_of};

use crate::entries::is_vote_for;
use arc_bytes::Five;
use arc_data::{Command, CommandId, Record};
use std::alloc::{AllocError, Global};
use std::collections::BTreeMap;

/// Where a command begins, and which slot it closes.
#[derive(Clone, Copy, Drop)]
pub struct Begun {
    /// The place of its node's start, in the journal of that node.
    pub start: usize,
    /// The place of the first vote for it behind that start.
    pub vote: usize,
    /// The slot that some journal closes with it.
    pub closed: Option<u32>,
}

/// By the node of the identifiers, and then by what else they are.
pub type Index = Five<BTreeMap<u64, Begun>>;

/// An identifier of one node as one number.
fn number_of_id(id: CommandId) -> u64
    ensures { result ≡ number_of_id id }
{
    u64::from(id.inc) * 4294967296 + u64::from(id.n)
}

/// What the index says of an identifier.
fn begun_in(index: &Index, id: CommandId) -> Option<Begun>
    requires { id.node < 5 }
    ensures { result ≡ begun_in index.now id }
{
    index.get(id.node).get(&number_of_id(id)).copied()
}

/// Whether the start with this number stands at this place.
fn is_start_at(journal: &[Record], place: usize, inc: u32) -> bool
    ensures { IsTrue result ↔ (slice_get journal.now place ≡ Some (Opened inc)) }
{
    match journal.get(place) {
        Some(Record::Opened { inc: its_inc }) => *its_inc == inc,
        _ => false,
    }
}

/// Whether a vote for the command stands at this place.
fn is_vote_at(journal: &[Record], place: usize, command: &Command) -> bool
    ensures { IsTrue result ↔ IsVoteAt journal.now place command.now }
{
    match journal.get(place) {
        Some(entry) => is_vote_for(entry, command),
        None => false,
    }
}

/// Whether the command begins there.
fn began_at(journal: &[Record], command: &Command, begun: Begun) -> bool
    ensures { IsTrue result ↔ BeganAt journal.now command.now begun }
{
    if begun.vote <= begun.start {
        return false;
    }
    if !is_start_at(journal, begun.start, command.id.inc) {
        return false;
    }
    is_vote_at(journal, begun.vote, command)
}

/// Whether the index says rightly where a vote's command begins, and no slot below the vote's.
fn is_known_vote(journals: &Five<&[Record]>, index: &Index, slot: u32, command: &Command) -> bool
    ensures { IsTrue result → IsKnownVote (journals_of journals.now) index.now slot command.now }
{
    let id = command.id;
    if 5 <= id.node {
        return false;
    }
    match begun_in(index, id) {
        Some(begun) => {
            is_not_closed_below(begun.closed, slot)
                && began_at(journals.get(id.node), command, begun)
        }
        None => false,
    }
}

/// Whether the slot that is closed, if one is, isn't below this one.
fn is_not_closed_below(closed: Option<u32>, slot: u32) -> bool
    ensures { IsTrue result ↔ IfSome closed (λ its_slot. slot ≤ its_slot) }
{
    match closed {
        Some(its_slot) => slot <= its_slot,
        None => true,
    }
}

/// Whether the index says which slot a command closes.
fn is_known_closed(index: &Index, slot: u32, command: &Command) -> bool
    ensures { IsTrue result → IsKnownClosed index.now slot command.now }
{
    let id = command.id;
    if 5 <= id.node {
        return false;
    }
    match begun_in(index, id) {
        Some(begun) => closes(begun.closed, slot),
        None => false,
    }
}

/// Whether it is this slot that is closed.
fn closes(closed: Option<u32>, slot: u32) -> bool
    ensures { IsTrue result ↔ (closed ≡ Some slot) }
{
    match closed {
        Some(its_slot) => its_slot == slot,
        None => false,
    }
}

/// Whether the index says what is needed of this entry.
#[tactic(auto, unfolding(crate::specs::Index::IsKnown))]
fn is_known(journals: &Five<&[Record]>, index: &Index, entry: &Record) -> bool
    ensures { IsTrue result → IsKnown (journals_of journals.now) index.now entry.now }
{
    match entry {
        Record::Voted { slot, command, .. } => is_known_vote(journals, index, *slot, command),
        Record::Closed { slot, command } => is_known_closed(index, *slot, command),
        Record::Opened { .. } => true,
        Record::Promised { .. } => true,
    }
}

/// Whether the index says what is needed of each of these entries.
fn are_known(journals: &Five<&[Record]>, index: &Index, entries: &[Record]) -> bool
    ensures { IsTrue result → All (λ entry. IsKnown (journals_of journals.now) index.now entry) entries.now }
{
    for entry in entries {
        if !is_known(journals, index, entry) {
            return false;
        }
    }
    true
}

/// Whether the index says what is needed of each entry of the five journals.
pub fn all_are_known(journals: &Five<&[Record]>, index: &Index) -> bool
    ensures { IsTrue result → AreKnown (journals_of journals.now) index.now }
{
    for node in 0..5 {
        if !are_known(journals, index, journals.get(node)) {
            return false;
        }
    }
    true
}

/// Takes note of a vote, where it is the first one for its command at the command's own node.
fn note_vote(
    begun: &mut BTreeMap<u64, Begun>,
    starts: &[usize],
    node: u8,
    place: usize,
    id: CommandId,
) -> Result<(), AllocError> {
    if id.node != node || begun.contains_key(&number_of_id(id)) {
        return Ok(());
    }
    let behind = (id.inc as usize).saturating_sub(1);
    match starts.get(behind) {
        Some(start) => {
            let first = Begun {
                start: *start,
                vote: place,
                closed: None,
            };
            match begun.insert(number_of_id(id), first) {
                Ok(_) => Ok(()),
                Err(_) => Err(AllocError),
            }
        }
        None => Ok(()),
    }
}

/// The commands of a node that its own journal votes for.
fn votes_of(
    alloc: Global,
    journal: &[Record],
    node: u8,
) -> Result<BTreeMap<u64, Begun>, AllocError> {
    let mut begun = BTreeMap::new(alloc);
    let mut starts = Vec::new(alloc);
    for place in 0..journal.len() {
        match &journal[place] {
            Record::Opened { .. } => starts.push(place)?,
            Record::Voted { command, .. } => {
                note_vote(&mut begun, starts.as_slice(), node, place, command.id)?
            }
            Record::Promised { .. } => {}
            Record::Closed { .. } => {}
        }
    }
    Ok(begun)
}

/// Takes note of the slots that a journal closes with commands of the node.
fn note_closed(begun: &mut BTreeMap<u64, Begun>, journal: &[Record], node: u8) {
    for entry in journal {
        if let Record::Closed { slot, command } = entry {
            if command.id.node == node {
                if let Some(known) = begun.get_mut(&number_of_id(command.id)) {
                    known.closed = Some(*slot);
                }
            }
        }
    }
}

/// What the journals say of the commands of one node.
fn begun_by(
    alloc: Global,
    journals: &Five<&[Record]>,
    node: u8,
) -> Result<BTreeMap<u64, Begun>, AllocError>
    requires { node < 5 }
{
    let mut begun = votes_of(alloc, journals.get(node), node)?;
    for other in 0..5 {
        note_closed(&mut begun, journals.get(other), node);
    }
    Ok(begun)
}

/// The index of five journals.
pub fn index_of(alloc: Global, journals: &Five<&[Record]>) -> Result<Index, AllocError> {
    Ok(Five {
        d0: begun_by(alloc, journals, 0)?,
        d1: begun_by(alloc, journals, 1)?,
        d2: begun_by(alloc, journals, 2)?,
        d3: begun_by(alloc, journals, 3)?,
        d4: begun_by(alloc, journals, 4)?,
    })
}
