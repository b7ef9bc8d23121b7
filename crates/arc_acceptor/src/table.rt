//! The table of messages and answers.
ghost use Rattle.std.specs.Prelude.{◌≡◌, ◌↔◌, ◌<◌, ◌+◌, ◌^◌, Bool, IsTrue, IsSome, List, IfOk, OnErr, length, false};
ghost use Rattle.std.specs.List.{slice_get};
ghost use Rattle.std.specs.Option.{option_copied};
ghost use Rattle.arc_data.specs.Entries.{closed_len, promise, told, top_vote};
ghost use Rattle.arc_data.specs.declared.record.Record.{Record};
ghost use Rattle.arc_voting.specs.Chosen.{HoldsVote};
ghost use Rattle.arc_voting.specs.Lists.{applied};
ghost use Rattle.arc_voting.specs.Replies.{slot_of};
ghost use Rattle.arc_voting.specs.Tails.{VotesAreInPlace, tail_of};
ghost use Rattle.arc_voting.specs.Turn.{Turn, IsTurn, answers_only, promise_turn, turn_of, vote_turn};
ghost use Rattle.arc_acceptor.specs.Answering.{IsLearnable, progress_of, turn_in, CopiesCommand, IsOutcome};

use crate::Turned;
use crate::progress::Progress;
use arc_bytes::Memory;
use arc_data::{Answer, Command, Message, Record, top_vote};
use arc_voting::{applied_at, holds_vote, votes_stay_in_place};
use std::alloc::Global;

/// What a node that keeps these entries appends and answers to a message. Of two votes of one highest ballot the first
/// counts. `Memory` comes only where the turn copies a command.
pub fn answer(alloc: Global, rs: &[Record], m: &Message) -> Result<Turned, Memory>
    requires entries { length rs.now < 2 ^ 32 }
    requires slot { IsLearnable m.now }
    ensures table { IfOk result (λ turned. IsTurn rs.now m.now (turn_in turned)) }
    ensures memory { OnErr result ((turn : Turn) → IsTurn rs.now m.now turn → CopiesCommand turn) }
{
    let progress = Progress::of(rs);
    match m {
        Message::Status { slot } => status(alloc, progress, applied_at(rs, *slot), *slot),
        Message::Prepare { slot, ballot } => {
            prepare(alloc, progress, applied_at(rs, *slot), rs, *slot, *ballot)
        }
        Message::Accept {
            slot,
            ballot,
            command,
        } => accept(
            alloc,
            progress,
            applied_at(rs, *slot),
            rs,
            *slot,
            *ballot,
            command,
        ),
        Message::Learn { slot, command } => learn(alloc, progress, *slot, command),
    }
}

/// The same from the tail of the entries, for all entries whose votes stand at the slots that were open then: `length` of
/// them close slots, `last` is the last promised ballot, or 0, `known` is the command that is closed at the message's slot,
/// and `tail` is what stands behind the last entry that closes one. It looks at no other entry.
pub fn answer_tail(
    alloc: Global,
    length: u32,
    last: u64,
    known: Option<&Command>,
    tail: &[Record],
    m: &Message,
) -> Result<Turned, Memory>
    requires slot { IsLearnable m.now }
    ensures table { IfOk result (λ turned. (rs : List Record) → VotesAreInPlace rs → closed_len rs ≡ length →
        promise rs ≡ last → tail_of rs ≡ tail.now → slice_get (applied rs) (slot_of m.now) ≡ option_copied known.entry →
        IsTurn rs m.now (turn_in turned)) }
    ensures memory { OnErr result ((rs : List Record) → VotesAreInPlace rs → closed_len rs ≡ length →
        promise rs ≡ last → tail_of rs ≡ tail.now → slice_get (applied rs) (slot_of m.now) ≡ option_copied known.entry →
        (turn : Turn) → IsTurn rs m.now turn → CopiesCommand turn) }
{
    votes_stay_in_place();
    let progress = Progress {
        length,
        promise: last,
    };
    match m {
        Message::Status { slot } => status(alloc, progress, known, *slot),
        Message::Prepare { slot, ballot } => prepare(alloc, progress, known, tail, *slot, *ballot),
        Message::Accept {
            slot,
            ballot,
            command,
        } => accept(alloc, progress, known, tail, *slot, *ballot, command),
        Message::Learn { slot, command } => learn(alloc, progress, *slot, command),
    }
}

/// An answer alone.
fn only(reply: Answer) -> Turned
    ensures { turn_in result ≡ answers_only reply }
{
    Turned {
        append: None,
        reply,
    }
}

/// The command that is closed at the slot.
fn tell_known(alloc: Global, slot: u32, command: &Command) -> Result<Turned, Memory>
    ensures { IsOutcome (answers_only (Answer.Known slot command.now)) result }
{
    let Ok(command) = command.copy(alloc) else {
        return Err(Memory);
    };
    Ok(only(Answer::Known { slot, command }))
}

/// The length of the list, the promise, and the command at the slot.
fn status(
    alloc: Global,
    progress: Progress,
    known: Option<&Command>,
    slot: u32,
) -> Result<Turned, Memory>
    ensures { (rs : List Record) → progress ≡ progress_of rs → slice_get (applied rs) slot ≡ option_copied known.entry →
        IsOutcome (turn_of false rs (Message.Status slot)) result }
{
    let known = match known {
        Some(command) => {
            let Ok(copy) = command.copy(alloc) else {
                return Err(Memory);
            };
            Some(copy)
        }
        None => None,
    };
    Ok(only(Answer::At {
        length: progress.length,
        ballot: progress.promise,
        known,
    }))
}

/// A promise at the end of the list, with the highest of these votes at the slot.
fn prepare(
    alloc: Global,
    progress: Progress,
    known: Option<&Command>,
    votes: &[Record],
    slot: u32,
    ballot: u64,
) -> Result<Turned, Memory>
    ensures { (rs : List Record) → progress ≡ progress_of rs → slice_get (applied rs) slot ≡ option_copied known.entry →
        (slot ≡ closed_len rs → top_vote slot rs ≡ top_vote slot votes.now) →
        IsOutcome (turn_of false rs (Message.Prepare slot ballot)) result }
{
    if let Some(command) = known {
        return tell_known(alloc, slot, command);
    }
    let length = progress.length;
    if length < slot {
        return Ok(only(Answer::Behind { length }));
    }
    promise_here(alloc, progress, votes, slot, ballot)
}

/// A promise, in a ballot above the last one.
fn promise_here(
    alloc: Global,
    progress: Progress,
    votes: &[Record],
    slot: u32,
    ballot: u64,
) -> Result<Turned, Memory>
    ensures { (rs : List Record) → progress ≡ progress_of rs → top_vote slot rs ≡ top_vote slot votes.now →
        IsOutcome (promise_turn rs slot ballot) result }
{
    let last = progress.promise;
    if ballot <= last {
        return Ok(only(Answer::Refused { ballot: last }));
    }
    let vote = copy_vote(alloc, top_vote(votes, slot))?;
    let from = progress.length;
    Ok(Turned {
        append: Some(Record::Promised { from, ballot }),
        reply: Answer::Promise { slot, ballot, vote },
    })
}

/// A copy of a vote that is lent.
fn copy_vote(alloc: Global, vote: Option<(u64, &Command)>) -> Result<Option<(u64, Command)>, Memory>
    ensures copy { IfOk result (λ copy. copy ≡ told vote.entry) }
    ensures memory { OnErr result (IsSome (told vote.entry)) }
{
    match vote {
        Some((ballot, command)) => {
            let Ok(command) = command.copy(alloc) else {
                return Err(Memory);
            };
            Ok(Some((ballot, command)))
        }
        None => Ok(None),
    }
}

/// A vote at the end of the list, where it may stand among these votes already.
fn accept(
    alloc: Global,
    progress: Progress,
    known: Option<&Command>,
    votes: &[Record],
    slot: u32,
    ballot: u64,
    command: &Command,
) -> Result<Turned, Memory>
    ensures { (stands : Bool) → (IsTrue stands ↔ HoldsVote votes.now slot ballot command.now) →
        (rs : List Record) → progress ≡ progress_of rs → slice_get (applied rs) slot ≡ option_copied known.entry →
        IsOutcome (turn_of stands rs (Message.Accept slot ballot command.now)) result }
{
    let stands = holds_vote(votes, slot, ballot, command);
    accept_told(alloc, stands, progress, known, slot, ballot, command)
}

/// A vote at the end of the list, where it is known whether it stands already.
fn accept_told(
    alloc: Global,
    stands: bool,
    progress: Progress,
    known: Option<&Command>,
    slot: u32,
    ballot: u64,
    command: &Command,
) -> Result<Turned, Memory>
    ensures { (rs : List Record) → progress ≡ progress_of rs → slice_get (applied rs) slot ≡ option_copied known.entry →
        IsOutcome (turn_of stands rs (Message.Accept slot ballot command.now)) result }
{
    if let Some(command) = known {
        return tell_known(alloc, slot, command);
    }
    let length = progress.length;
    if length < slot {
        return Ok(only(Answer::Behind { length }));
    }
    vote_here(alloc, stands, progress.promise, slot, ballot, command)
}

/// A vote, in a ballot that isn't below the last promise.
fn vote_here(
    alloc: Global,
    stands: bool,
    last: u64,
    slot: u32,
    ballot: u64,
    command: &Command,
) -> Result<Turned, Memory>
    ensures { (rs : List Record) → last ≡ promise rs → IsOutcome (vote_turn stands rs slot ballot command.now) result }
{
    if ballot < last {
        return Ok(only(Answer::Refused { ballot: last }));
    }
    if stands {
        return Ok(only(Answer::Accepted { slot, ballot }));
    }
    let Ok(command) = command.copy(alloc) else {
        return Err(Memory);
    };
    Ok(Turned {
        append: Some(Record::Voted {
            slot,
            ballot,
            command,
        }),
        reply: Answer::Accepted { slot, ballot },
    })
}

/// A command that was chosen at the end of the list.
fn learn(alloc: Global, progress: Progress, slot: u32, command: &Command) -> Result<Turned, Memory>
    requires { slot + 1 < 2 ^ 32 }
    ensures { (rs : List Record) → progress ≡ progress_of rs →
        IsOutcome (turn_of false rs (Message.Learn slot command.now)) result }
{
    let length = progress.length;
    if slot < length {
        return Ok(only(Answer::Learned { length }));
    }
    if slot > length {
        return Ok(only(Answer::Behind { length }));
    }
    let Ok(command) = command.copy(alloc) else {
        return Err(Memory);
    };
    Ok(Turned {
        append: Some(Record::Closed { slot, command }),
        reply: Answer::Learned { length: length + 1 },
    })
}
