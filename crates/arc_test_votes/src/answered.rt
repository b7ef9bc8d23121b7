//! The table of messages and answers, each row of it once over the whole list and once over its tail.
ghost use Rattle.std.specs.Prelude.{◌<◌, ◌^◌, length};
ghost use Rattle.arc_acceptor.specs.Answering.{IsLearnable};

use crate::named::{Name, command};
use arc_acceptor::{Turned, answer, answer_tail};
use arc_bytes::Memory;
use arc_data::{Answer, Command, Message, Record};
use arc_voting::Indexed;
use std::alloc::Global;
use std::process::Abort;
use std::test::Fail;

/// A message, an entry or an answer by numbers alone. A command is told by its token, and no command is 0.
#[derive(Clone, Copy, Debug, PartialEq, Eq)]
enum Word {
    Status(u32),
    Prepare(u32, u64),
    Accept(u32, u64, u64),
    Learn(u32, u64),
    Open(u32),
    Promise(u32, u64),
    Vote(u32, u64, u64),
    Close(u32, u64),
    At(u32, u64, u64),
    Known(u32, u64),
    Behind(u32),
    Refused(u64),
    Promised(u32, u64, u64, u64),
    Accepted(u32, u64),
    Learned(u32),
}

use Word::{
    Accept, Accepted, At, Behind, Close, Known, Learn, Learned, Open, Prepare, Promise, Promised,
    Refused, Status, Vote,
};

/// The command with this token.
fn tokened(token: u64) -> Command {
    command(Name(0, 1, 0, token))
}

fn message(word: Word) -> Message
    ensures { IsLearnable result }
{
    match word {
        Prepare(slot, ballot) => Message::Prepare { slot, ballot },
        Accept(slot, ballot, token) => Message::Accept {
            slot,
            ballot,
            command: tokened(token),
        },
        Learn(slot, token) if slot < 9 => Message::Learn {
            slot,
            command: tokened(token),
        },
        Status(slot) => Message::Status { slot },
        _ => Message::Status { slot: 0 },
    }
}

fn entry(word: Word) -> Record {
    match word {
        Promise(from, ballot) => Record::Promised { from, ballot },
        Vote(slot, ballot, token) => Record::Voted {
            slot,
            ballot,
            command: tokened(token),
        },
        Close(slot, token) => Record::Closed {
            slot,
            command: tokened(token),
        },
        Open(inc) => Record::Opened { inc },
        _ => Record::Opened { inc: 0 },
    }
}

fn shown_entry(entry: &Record) -> Word {
    match entry {
        Record::Opened { inc } => Open(*inc),
        Record::Promised { from, ballot } => Promise(*from, *ballot),
        Record::Voted {
            slot,
            ballot,
            command,
        } => Vote(*slot, *ballot, command.token),
        Record::Closed { slot, command } => Close(*slot, command.token),
    }
}

fn shown_answer(answer: &Answer) -> Word {
    match answer {
        Answer::At {
            length,
            ballot,
            known,
        } => match known {
            Some(command) => At(*length, *ballot, command.token),
            None => At(*length, *ballot, 0),
        },
        Answer::Known { slot, command } => Known(*slot, command.token),
        Answer::Behind { length } => Behind(*length),
        Answer::Refused { ballot } => Refused(*ballot),
        Answer::Promise { slot, ballot, vote } => match vote {
            Some((at, command)) => Promised(*slot, *ballot, *at, command.token),
            None => Promised(*slot, *ballot, 0, 0),
        },
        Answer::Accepted { slot, ballot } => Accepted(*slot, *ballot),
        Answer::Learned { length } => Learned(*length),
    }
}

/// The entries of a journal.
fn entries(alloc: Global, journal: &[Word]) -> Result<Vec<Record>, Memory> {
    let mut entries = Vec::new(alloc);
    for word in journal {
        entries.push(entry(*word))?;
    }
    Ok(entries)
}

/// What is appended and answered.
fn shown(turned: &Turned) -> (Option<Word>, Word) {
    match &turned.append {
        Some(entry) => (Some(shown_entry(entry)), shown_answer(&turned.reply)),
        None => (None, shown_answer(&turned.reply)),
    }
}

/// What a node with these entries appends and answers.
fn told(alloc: Global, entries: &[Record], asked: &Message) -> Result<(Option<Word>, Word), Memory>
    requires entries { length entries.now < 2 ^ 32 }
    requires slot { IsLearnable asked.now }
{
    let turned = answer(alloc, entries, asked)?;
    let shown = shown(&turned);
    drop(turned);
    Ok(shown)
}

/// The same by one who keeps a table of the slots, and looks at the entries behind the last closed one alone.
fn told_by_tail(
    alloc: Global,
    list: &Indexed,
    slot: u32,
    asked: &Message,
) -> Result<(Option<Word>, Word), Memory>
    requires { IsLearnable asked.now }
{
    let known = list.applied_at(slot);
    let turned = answer_tail(
        alloc,
        list.closed_len(),
        list.promise(),
        known,
        list.tail(),
        asked,
    )?;
    let shown = shown(&turned);
    drop(turned);
    Ok(shown)
}

/// The slot that a message asks about.
fn slot(word: Word) -> u32 {
    match word {
        Status(slot) | Prepare(slot, _) | Accept(slot, _, _) | Learn(slot, _) => slot,
        _ => 0,
    }
}

/// The same, where the message is made of a word.
fn asked_by_tail(
    alloc: Global,
    list: &Indexed,
    asked: Word,
) -> Result<(Option<Word>, Word), Memory> {
    let message = message(asked);
    let told = told_by_tail(alloc, list, slot(asked), &message);
    drop(message);
    told
}

/// The same, where the entries are made of words.
fn turn_by_tail(
    alloc: Global,
    journal: &[Word],
    word: Word,
) -> Result<(Option<Word>, Word), Memory> {
    let entries = entries(alloc, journal)?;
    if entries.len() > 99 {
        drop(entries);
        return Err(Memory);
    }
    let list = Indexed::of(alloc, entries)?;
    let turn = asked_by_tail(alloc, &list, word);
    drop(list);
    turn
}

/// What a node with these entries appends and answers, where the message is made of a word.
fn asked(alloc: Global, entries: &[Record], asked: Word) -> Result<(Option<Word>, Word), Memory> {
    if entries.len() > 99 {
        return Err(Memory);
    }
    let message = message(asked);
    let told = told(alloc, entries, &message);
    drop(message);
    told
}

/// The same, where the entries are made of words.
fn turn(alloc: Global, journal: &[Word], word: Word) -> Result<(Option<Word>, Word), Memory> {
    let entries = entries(alloc, journal)?;
    asked(alloc, &entries, word)
}

/// A journal, what is asked, what is appended and what is answered.
type Row = (&'static [Word], Word, Option<Word>, Word);

/// One slot is closed with the command 1, and ballot 10 is promised. At slot 1 there are two votes in it, as no sound
/// journal has, and one in a lower ballot.
const JOURNAL: &[Word] = &[
    Open(1),
    Promise(0, 5),
    Vote(0, 5, 1),
    Close(0, 1),
    Vote(1, 5, 9),
    Promise(1, 10),
    Vote(1, 10, 2),
    Vote(1, 10, 3),
];

/// What a peer has whose votes were withheld: eight promises of node 0, up to ballot 40.
const WITHHELD: &[Word] = &[
    Open(1),
    Promise(0, 5),
    Promise(0, 10),
    Promise(0, 15),
    Promise(0, 20),
    Promise(0, 25),
    Promise(0, 30),
    Promise(0, 35),
    Promise(0, 40),
];

/// What a peer has that voted in ballot 5, and whose `Learn` was kept on the way; and once that was delivered.
const SILENT: &[Word] = &[Open(1), Promise(0, 5), Vote(0, 5, 1)];

const DELIVERED: &[Word] = &[Open(1), Promise(0, 5), Vote(0, 5, 1), Close(0, 1)];

const ROWS: [Row; 21] = [
    (JOURNAL, Status(0), None, At(1, 10, 1)),
    (JOURNAL, Status(1), None, At(1, 10, 0)),
    (JOURNAL, Prepare(0, 99), None, Known(0, 1)),
    (JOURNAL, Accept(0, 99, 4), None, Known(0, 1)),
    (JOURNAL, Prepare(2, 99), None, Behind(1)),
    (JOURNAL, Accept(2, 99, 4), None, Behind(1)),
    (JOURNAL, Learn(2, 4), None, Behind(1)),
    (JOURNAL, Prepare(1, 10), None, Refused(10)),
    (
        JOURNAL,
        Prepare(1, 11),
        Some(Promise(1, 11)),
        Promised(1, 11, 10, 2),
    ),
    (JOURNAL, Accept(1, 9, 4), None, Refused(10)),
    (JOURNAL, Accept(1, 10, 3), None, Accepted(1, 10)),
    (
        JOURNAL,
        Accept(1, 10, 4),
        Some(Vote(1, 10, 4)),
        Accepted(1, 10),
    ),
    (JOURNAL, Learn(0, 4), None, Learned(1)),
    (JOURNAL, Learn(1, 4), Some(Close(1, 4)), Learned(2)),
    // messages that were held, and come to a node that has promised more since
    (WITHHELD, Accept(0, 5, 1), None, Refused(40)),
    (
        WITHHELD,
        Accept(0, 40, 1),
        Some(Vote(0, 40, 1)),
        Accepted(0, 40),
    ),
    (WITHHELD, Learn(0, 1), Some(Close(0, 1)), Learned(1)),
    (
        WITHHELD,
        Prepare(0, 41),
        Some(Promise(0, 41)),
        Promised(0, 41, 0, 0),
    ),
    // the kept message is delivered once, and then again
    (SILENT, Learn(0, 1), Some(Close(0, 1)), Learned(1)),
    (DELIVERED, Learn(0, 1), None, Learned(1)),
    // an endpoint that works with it later is told its vote
    (
        SILENT,
        Prepare(0, 6),
        Some(Promise(0, 6)),
        Promised(0, 6, 5, 1),
    ),
];

fn check_all(rt: &(impl Abort + AllocGlobal), rows: &[Row]) -> Result<(), Fail> {
    for (journal, asked, appended, answered) in rows {
        let turned = turn(rt.alloc(), journal, *asked)?;
        assert_eq!(rt; turned, (*appended, *answered), "{asked:?}");
        let turned = turn_by_tail(rt.alloc(), journal, *asked)?;
        assert_eq!(rt; turned, (*appended, *answered), "{asked:?} by the tail");
    }
    Ok(())
}

#[test]
fn each_row_of_the_table_is_appended_and_answered(rt: HostRuntime) -> Result<(), Fail> {
    check_all(&rt, &ROWS)
}
