//! The audit of five journals.
ghost use Rattle.std.specs.Prelude.{◌≡◌, ◌≢◌, ◌↔◌, ◌<◌, ℕ, IsTrue, Some, Err, length, OnOk, IfErr, MatchOption};
ghost use Rattle.std.specs.List.{slice_get};
ghost use Rattle.arc_voting.specs.Journals.{journals_of};
ghost use Rattle.arc_voting.specs.Sound.{Keeps, VoteKeeps, IsKept, IsSound, IsFirstBreach, NamesTheFirst};
ghost use Rattle.arc_voting.specs.Tracks.{AreTracksOf};
ghost use Rattle.arc_voting.specs.Walk.{IsFirstIn, HaveRoom, IsFirstUnder};

use crate::ids::{has_no_earlier_double, is_not_chosen_below, starts_at_its_node};
use crate::index::all_are_known;
use crate::majority::is_chosen;
use crate::settled::lower_are_settled;
use crate::slot::node_voted;
use crate::tracks::Tracks;
use crate::{AuditEnd, Breach, Rule};
use arc_bytes::Five;
use arc_data::{Command, Record};
use std::alloc::Global;

/// Whether this vote, at this node and place, keeps the rule.
fn vote_keeps(
    journals: &Five<&[Record]>,
    tracks: &Tracks,
    rule: Rule,
    node: u8,
    place: usize,
    slot: u32,
    ballot: u64,
    command: &Command,
) -> bool
    requires of_five { node < 5 }
    requires within { place < length (journals_of journals.now node) }
    requires other { rule ≢ Rule.V1 }
    requires tracked { AreTracksOf tracks.now (journals_of journals.now) }
    ensures { IsTrue result ↔ VoteKeeps (journals_of journals.now) rule node place slot ballot command.now }
{
    let at = tracks.slot_at(slot);
    match rule {
        Rule::V2 => node_voted(journals, &at, (ballot % 5) as u8, ballot, command),
        Rule::V3 => lower_are_settled(journals, &at, ballot, command),
        Rule::V5 => {
            starts_at_its_node(journals, command)
                && has_no_earlier_double(journals, node, place, command)
        }
        Rule::V6 => is_not_chosen_below(journals, tracks, slot, command),
        Rule::V1 | Rule::V4 => true,
    }
}

/// The entry at this node and place.
fn entry_at<'a>(journals: &Five<&'a [Record]>, node: u8, place: usize) -> &'a Record
    requires of_five { node < 5 }
    requires within { place < length (journals_of journals.now node) }
    ensures { slice_get (journals_of journals.now node) place ≡ Some result.now }
{
    &journals.get(node)[place]
}

/// Whether the entry at this node and place keeps the rule.
fn keeps(journals: &Five<&[Record]>, tracks: &Tracks, rule: Rule, node: u8, place: usize) -> bool
    requires of_five { node < 5 }
    requires within { place < length (journals_of journals.now node) }
    requires other { rule ≢ Rule.V1 }
    requires tracked { AreTracksOf tracks.now (journals_of journals.now) }
    ensures { IsTrue result ↔ Keeps (journals_of journals.now) rule node place }
{
    match entry_at(journals, node, place) {
        Record::Voted {
            slot,
            ballot,
            command,
        } => vote_keeps(journals, tracks, rule, node, place, *slot, *ballot, command),
        Record::Closed { slot, command } => match rule {
            Rule::V4 => is_chosen(journals, &tracks.slot_at(*slot), command),
            _ => true,
        },
        _ => true,
    }
}

/// The first place of a node's journal that breaks a rule other than the first one.
fn first_breaking(
    journals: &Five<&[Record]>,
    tracks: &Tracks,
    rule: Rule,
    node: u8,
) -> Option<usize>
    requires of_five { node < 5 }
    requires other { rule ≢ Rule.V1 }
    requires tracked { AreTracksOf tracks.now (journals_of journals.now) }
    ensures { IsFirstIn (Keeps (journals_of journals.now) rule node) result }
{
    for place in 0..journals.get(node).len() {
        if !keeps(journals, tracks, rule, node, place) {
            return Some(place);
        }
    }
    None
}

/// The first breach of a rule other than the first one, by node and then place.
fn first_breach(journals: &Five<&[Record]>, tracks: &Tracks, rule: Rule) -> Option<Breach>
    requires fits { HaveRoom (journals_of journals.now) }
    requires other { rule ≢ Rule.V1 }
    requires tracked { AreTracksOf tracks.now (journals_of journals.now) }
    ensures { IsFirstUnder (journals_of journals.now) rule result }
{
    for node in 0..5 {
        if let Some(place) = first_breaking(journals, tracks, rule, node) {
            return Some(Breach::of(rule, node, place));
        }
    }
    None
}

/// The first breach of a rule on identifiers. Where it is known to be kept nothing is looked at.
fn first_id_breach(
    journals: &Five<&[Record]>,
    tracks: &Tracks,
    rule: Rule,
    kept: bool,
) -> Option<Breach>
    requires fits { HaveRoom (journals_of journals.now) }
    requires other { rule ≢ Rule.V1 }
    requires tracked { AreTracksOf tracks.now (journals_of journals.now) }
    requires known { IsTrue kept → IsKept (journals_of journals.now) rule }
    ensures { IsFirstUnder (journals_of journals.now) rule result }
{
    if kept {
        return None;
    }
    first_breach(journals, tracks, rule)
}

/// The first breach of the rules behind the first one, in the order of rule, node and place.
fn first_later_breach(journals: &Five<&[Record]>, tracks: &Tracks) -> Option<Breach>
    requires fits { HaveRoom (journals_of journals.now) }
    requires tracked { AreTracksOf tracks.now (journals_of journals.now) }
    ensures { MatchOption result (IsSound (journals_of journals.now)) (IsFirstBreach (journals_of journals.now)) }
{
    if let Some(breach) = first_breach(journals, tracks, Rule::V2) {
        return Some(breach);
    }
    if let Some(breach) = first_breach(journals, tracks, Rule::V3) {
        return Some(breach);
    }
    if let Some(breach) = first_breach(journals, tracks, Rule::V4) {
        return Some(breach);
    }
    let known = all_are_known(journals, &tracks.index);
    if let Some(breach) = first_id_breach(journals, tracks, Rule::V5, known) {
        return Some(breach);
    }
    first_id_breach(journals, tracks, Rule::V6, known)
}

/// Whether five journals are sound, by their tracks: where they aren't, the first breach, in the order of rule, node and place.
/// It takes no memory.
pub fn audit_with(tracks: &Tracks, js: &Five<&[Record]>) -> Result<(), Breach>
    requires few { HaveRoom (journals_of js.now) }
    requires tracked { AreTracksOf tracks.now (journals_of js.now) }
    ensures sound { OnOk result (IsSound (journals_of js.now)) }
    ensures first { IfErr result (λ breach. IsFirstBreach (journals_of js.now) breach) }
{
    match first_later_breach(js, tracks) {
        Some(breach) => Err(breach),
        None => Ok(()),
    }
}

/// Whether five journals are sound: where they aren't, the first breach, in the order of rule, node and place. A breach of V1 is
/// answered before any memory is taken.
pub fn audit(alloc: Global, js: &Five<&[Record]>) -> Result<(), AuditEnd>
    requires { HaveRoom (journals_of js.now) }
    ensures sound { OnOk result (IsSound (journals_of js.now)) }
    ensures first { IfErr result (λ end. NamesTheFirst (journals_of js.now) end) }
    ensures formed { result ≡ Err AuditEnd.Memory → IsKept (journals_of js.now) Rule.V1 }
{
    let tracks = Tracks::of(alloc, js)?;
    match audit_with(&tracks, js) {
        Ok(()) => Ok(()),
        Err(breach) => Err(AuditEnd::Breach(breach)),
    }
}
