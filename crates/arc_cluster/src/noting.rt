//! What peers tell is noted.
ghost use Rattle.std.specs.Prelude.{◌≡◌, ◌≤◌, ◌^◌, Some, IfSome};
ghost use Rattle.arc_proposer.specs.Proposing.{HasNoneCounted, shown_by};
ghost use Rattle.arc_cluster.specs.Asking.{AreInRange, first_known, known_noted, length_noted, lengths_noted, shown_by_all, shown_noted};

use crate::work::Work;
use arc_bytes::Five;
use arc_data::{Answer, Command};
use arc_proposer::Proposer;
use std::mem;

/// Notes how far a node has come, by its answer to a status or to a command that it was told.
fn note_length(length: &mut u32, answer: &Option<Answer>)
    ensures { length.new ≡ length_noted length.old answer.now }
{
    match answer {
        Some(Answer::At { length: its, .. }) => *length = *its,
        Some(Answer::Learned { length: its }) => *length = *its,
        _ => {}
    }
}

/// Takes the command that an answer names, unless one is known already.
fn note_known(known: &mut Option<Command>, answer: &mut Answer)
    ensures { known.new ≡ known_noted known.old (Some answer.old) }
{
    if known.is_some() {
        return;
    }
    if let Answer::At { known: its, .. } = answer {
        drop(mem::replace(known, its.take()));
    }
}

/// Notes a peer's answer to a status: its length, its ballot, and the command that it names, where none is known yet.
fn note_status(
    proposer: &mut Proposer,
    peer: u8,
    length: &mut u32,
    answer: &mut Option<Answer>,
    known: &mut Option<Command>,
)
    requires none { HasNoneCounted proposer.old }
    requires in_range { IfSome answer.old (λ a. shown_by a ≤ 2 ^ 63) }
    ensures length { length.new ≡ length_noted length.old answer.old }
    ensures shown { proposer.new ≡ record proposer.old { shown = shown_noted proposer.old.shown answer.old } }
    ensures known { known.new ≡ known_noted known.old answer.old }
{
    note_length(length, answer);
    if let Some(told) = answer {
        proposer.on_status(peer, told);
        note_known(known, told);
    }
}

/// Notes the answers of the peers to a status. Gives the command that the first of them names that names one.
pub(crate) fn note_statuses(
    work: &mut Work,
    proposer: &mut Proposer,
    answers: &mut Five<Option<Answer>>,
) -> Option<Command>
    requires none { HasNoneCounted proposer.old }
    requires in_range { AreInRange answers.old }
    ensures work { work.new ≡ record work.old { lengths = lengths_noted work.old.lengths answers.old } }
    ensures shown { proposer.new ≡ record proposer.old { shown = shown_by_all proposer.old.shown answers.old } }
    ensures known { result ≡ first_known answers.old }
{
    let mut known = None;
    let lengths = &mut work.lengths;
    note_status(proposer, 0, &mut lengths.d0, &mut answers.d0, &mut known);
    note_status(proposer, 1, &mut lengths.d1, &mut answers.d1, &mut known);
    note_status(proposer, 2, &mut lengths.d2, &mut answers.d2, &mut known);
    note_status(proposer, 3, &mut lengths.d3, &mut answers.d3, &mut known);
    note_status(proposer, 4, &mut lengths.d4, &mut answers.d4, &mut known);
    known
}

/// Notes how far the peers have come that were told what they lack.
pub(crate) fn note_lengths(work: &mut Work, answers: &Five<Option<Answer>>)
    ensures { work.new ≡ record work.old { lengths = lengths_noted work.old.lengths answers.now } }
{
    note_length(&mut work.lengths.d0, &answers.d0);
    note_length(&mut work.lengths.d1, &answers.d1);
    note_length(&mut work.lengths.d2, &answers.d2);
    note_length(&mut work.lengths.d3, &answers.d3);
    note_length(&mut work.lengths.d4, &answers.d4);
}
