//! Worked journals: sound ones, and for each rule the smallest that break it alone.
ghost use Rattle.std.specs.Prelude.{◌+◌, ◌<◌, ◌≤◌, ℕ, vec_len};
ghost use Rattle.arc_bytes.specs.Five.{at};
ghost use Rattle.arc_voting.specs.Journals.{journals_of};
ghost use Rattle.arc_voting.specs.Walk.{HaveRoom};

use crate::named::{Name, command};
use arc_bytes::Five;
use arc_data::Record;
use arc_voting::{AuditEnd, audit, chosen};
use std::alloc::{AllocError, Global};
use std::process::Abort;

/// An entry by numbers alone.
#[derive(Clone, Copy)]
enum Entry {
    Open(u32),
    Promise(u32, u64),
    Vote(u32, u64, Name),
    Close(u32, Name),
}

use Entry::{Close, Open, Promise, Vote};

fn record(entry: Entry) -> Record {
    match entry {
        Open(inc) => Record::Opened { inc },
        Promise(from, ballot) => Record::Promised { from, ballot },
        Vote(slot, ballot, name) => Record::Voted {
            slot,
            ballot,
            command: command(name),
        },
        Close(slot, name) => Record::Closed {
            slot,
            command: command(name),
        },
    }
}

/// Five journals, and the rule, node and place of the first breach, if there is one.
#[derive(Clone, Copy)]
struct Row {
    journals: [&'static [Entry]; 5],
    breach: Option<(u8, u8, u32)>,
}

const C: Name = Name(0, 1, 0, 0);

const D: Name = Name(1, 1, 0, 0);

const STARTED: &[Entry] = &[Open(1)];

const PROMISED: &[Entry] = &[Open(1), Promise(0, 5)];

const VOTED: &[Entry] = &[Open(1), Promise(0, 5), Vote(0, 5, C)];

/// Node 0 votes again in ballot 5, after another start.
const AGAIN: &[Entry] = &[
    Open(1),
    Promise(0, 5),
    Vote(0, 5, C),
    Open(2),
    Vote(0, 5, Name(0, 2, 0, 0)),
];

/// No journal of a test is longer.
const LONGEST: usize = 100;

/// Adds an entry.
fn put(records: &mut Vec<Record>, entry: Entry) -> Result<(), AllocError>
    ensures { vec_len records.new ≤ vec_len records.old + 1 }
{
    records.push(record(entry))?;
    Ok(())
}

/// The entries of a journal, as far as there is memory.
fn journal(alloc: Global, entries: &[Entry]) -> Vec<Record>
    ensures { vec_len result ≤ LONGEST }
{
    let mut records = Vec::new(alloc);
    for entry in entries {
        if records.len() >= LONGEST {
            return records;
        }
        if put(&mut records, *entry).is_err() {
            return records;
        }
    }
    records
}

fn journals(alloc: Global, rows: &[&[Entry]; 5]) -> Five<Vec<Record>>
    ensures { (node : ℕ) → node < 5 → vec_len (at result node) ≤ LONGEST }
{
    Five {
        d0: journal(alloc, rows[0]),
        d1: journal(alloc, rows[1]),
        d2: journal(alloc, rows[2]),
        d3: journal(alloc, rows[3]),
        d4: journal(alloc, rows[4]),
    }
}

/// Lends five journals.
fn lent(js: &Five<Vec<Record>>) -> Five<&[Record]>
    requires { (node : ℕ) → node < 5 → vec_len (at js.now node) ≤ LONGEST }
    ensures { HaveRoom (journals_of result) }
{
    Five {
        d0: js.d0.as_slice(),
        d1: js.d1.as_slice(),
        d2: js.d2.as_slice(),
        d3: js.d3.as_slice(),
        d4: js.d4.as_slice(),
    }
}

/// The rule, node and place of the first breach that the audit finds. For want of memory it is one that there is not.
fn breach_of(alloc: Global, rows: &[&[Entry]; 5]) -> Option<(u8, u8, u32)> {
    let js = journals(alloc, rows);
    match audit(alloc, &lent(&js)) {
        Ok(()) => None,
        Err(AuditEnd::Breach(breach)) => Some((breach.rule, breach.node, breach.place)),
        Err(AuditEnd::Memory) => Some((0, 0, 0)),
    }
}

const ROWS: [Row; 26] = [
    // one promise is no quorum
    Row {
        journals: [VOTED, STARTED, STARTED, STARTED, STARTED],
        breach: Some((3, 0, 2)),
    },
    // three are; and the promises of ballot 5 told no vote, but node 0 has one in it, behind its own
    Row {
        journals: [VOTED, PROMISED, PROMISED, STARTED, STARTED],
        breach: None,
    },
    // nodes 0, 1 and 3 promised ballot 11, and told a vote for C in ballot 12 beside node 1's for D in 11
    Row {
        journals: [
            &[Open(1), Vote(0, 12, C), Promise(0, 11)],
            &[Open(1), Vote(0, 11, D), Promise(0, 11)],
            &[Open(1), Promise(0, 12), Vote(0, 12, C)],
            &[Open(1), Promise(0, 11), Promise(0, 12)],
            &[Open(1), Promise(0, 12)],
        ],
        breach: None,
    },
    // node 0 owns ballot 5, and voted for another command in it
    Row {
        journals: [
            VOTED,
            &[Open(1), Promise(0, 5), Vote(0, 5, D)],
            PROMISED,
            STARTED,
            STARTED,
        ],
        breach: Some((2, 1, 2)),
    },
    // V1: an empty journal; no start at first; a start skipped; a slot skipped
    Row {
        journals: [STARTED, STARTED, STARTED, &[], STARTED],
        breach: Some((1, 3, 0)),
    },
    Row {
        journals: [STARTED, STARTED, &[Promise(0, 1)], STARTED, STARTED],
        breach: Some((1, 2, 0)),
    },
    Row {
        journals: [STARTED, &[Open(1), Open(3)], STARTED, STARTED, STARTED],
        breach: Some((1, 1, 1)),
    },
    Row {
        journals: [STARTED, STARTED, STARTED, STARTED, &[Open(1), Close(1, C)]],
        breach: Some((1, 4, 1)),
    },
    // V1: a promise beyond the end; in ballot 0; one above the bound, which is 5 for one promise; not a higher one
    Row {
        journals: [
            &[Open(1), Promise(1, 5)],
            STARTED,
            STARTED,
            STARTED,
            STARTED,
        ],
        breach: Some((1, 0, 1)),
    },
    Row {
        journals: [
            &[Open(1), Promise(0, 0)],
            STARTED,
            STARTED,
            STARTED,
            STARTED,
        ],
        breach: Some((1, 0, 1)),
    },
    Row {
        journals: [
            &[Open(1), Promise(0, 6)],
            STARTED,
            STARTED,
            STARTED,
            STARTED,
        ],
        breach: Some((1, 0, 1)),
    },
    Row {
        journals: [PROMISED, STARTED, STARTED, STARTED, STARTED],
        breach: None,
    },
    Row {
        journals: [
            &[Open(1), Promise(0, 5), Promise(0, 5)],
            STARTED,
            STARTED,
            STARTED,
            STARTED,
        ],
        breach: Some((1, 0, 2)),
    },
    // V1: a vote beyond the end; below the promise
    Row {
        journals: [
            &[Open(1), Promise(0, 5), Vote(1, 5, C)],
            PROMISED,
            PROMISED,
            STARTED,
            STARTED,
        ],
        breach: Some((1, 0, 2)),
    },
    Row {
        journals: [
            &[Open(1), Promise(0, 5), Vote(0, 4, C)],
            PROMISED,
            PROMISED,
            STARTED,
            STARTED,
        ],
        breach: Some((1, 0, 2)),
    },
    // V2: the ballot's owner, node 0, has no vote
    Row {
        journals: [
            PROMISED,
            &[Open(1), Promise(0, 5), Vote(0, 5, D)],
            PROMISED,
            STARTED,
            STARTED,
        ],
        breach: Some((2, 1, 2)),
    },
    // V3: nodes 1 and 2 promised ballot 4, which isn't above 4
    Row {
        journals: [
            VOTED,
            &[Open(1), Promise(0, 4)],
            &[Open(1), Promise(0, 4)],
            STARTED,
            STARTED,
        ],
        breach: Some((3, 0, 2)),
    },
    // V4: two votes are no majority; three are
    Row {
        journals: [
            &[Open(1), Promise(0, 5), Vote(0, 5, C), Close(0, C)],
            VOTED,
            PROMISED,
            STARTED,
            STARTED,
        ],
        breach: Some((4, 0, 3)),
    },
    Row {
        journals: [
            &[Open(1), Promise(0, 5), Vote(0, 5, C), Close(0, C)],
            VOTED,
            VOTED,
            STARTED,
            STARTED,
        ],
        breach: None,
    },
    // V5: the command's node never voted for it; did so before that start; there is no such node
    Row {
        journals: [
            &[Open(1), Promise(0, 5), Vote(0, 5, D)],
            PROMISED,
            PROMISED,
            STARTED,
            STARTED,
        ],
        breach: Some((5, 0, 2)),
    },
    Row {
        journals: [
            &[
                Open(1),
                Promise(0, 5),
                Vote(0, 5, Name(0, 2, 0, 0)),
                Open(2),
            ],
            PROMISED,
            PROMISED,
            STARTED,
            STARTED,
        ],
        breach: Some((5, 0, 2)),
    },
    Row {
        journals: [
            &[Open(1), Promise(0, 5), Vote(0, 5, Name(5, 1, 0, 0))],
            PROMISED,
            PROMISED,
            STARTED,
            STARTED,
        ],
        breach: Some((5, 0, 2)),
    },
    // V5: one id for two commands
    Row {
        journals: [
            &[
                Open(1),
                Promise(0, 5),
                Vote(0, 5, C),
                Promise(0, 10),
                Vote(0, 10, Name(0, 1, 0, 9)),
            ],
            &[Open(1), Promise(0, 10)],
            &[Open(1), Promise(0, 10)],
            &[Open(1), Promise(0, 10)],
            STARTED,
        ],
        breach: Some((5, 0, 4)),
    },
    // V6: chosen at slot 0, and voted for again at slot 1
    Row {
        journals: [
            &[
                Open(1),
                Promise(0, 5),
                Vote(0, 5, C),
                Close(0, C),
                Vote(1, 5, C),
            ],
            VOTED,
            VOTED,
            STARTED,
            STARTED,
        ],
        breach: Some((6, 0, 4)),
    },
    // V1: an old ballot isn't used again
    Row {
        journals: [AGAIN, PROMISED, PROMISED, STARTED, STARTED],
        breach: Some((1, 0, 4)),
    },
    // a breach is first by rule
    Row {
        journals: [VOTED, STARTED, STARTED, STARTED, &[]],
        breach: Some((1, 4, 0)),
    },
];

fn check_all(rt: &(impl Abort + AllocGlobal), rows: &[Row]) {
    for (number, row) in rows.iter().enumerate() {
        assert_eq!(rt;
            breach_of(rt.alloc(), &row.journals),
            row.breach,
            "row {number}"
        );
    }
}

#[test]
fn sound_journals_pass_and_a_breach_is_told_first_by_rule(rt: HostRuntime) {
    check_all(&rt, &ROWS);
}

/// Five journals, a slot, a command, and whether it is chosen there.
const CHOSEN: [([&[Entry]; 5], u32, Name, bool); 4] = [
    ([VOTED, VOTED, PROMISED, STARTED, STARTED], 0, C, false),
    ([VOTED, VOTED, VOTED, STARTED, STARTED], 0, C, true),
    ([VOTED, VOTED, VOTED, STARTED, STARTED], 1, C, false),
    ([VOTED, VOTED, VOTED, STARTED, STARTED], 0, D, false),
];

/// Whether these journals choose a command at a slot.
fn choose(alloc: Global, rows: &[&[Entry]; 5], slot: u32, name: Name) -> bool {
    let js = journals(alloc, rows);
    let command = command(name);
    let is_chosen = chosen(&lent(&js), slot, &command);
    drop(command);
    is_chosen
}

fn check_chosen(
    rt: &(impl Abort + AllocGlobal),
    rows: &[([&'static [Entry]; 5], u32, Name, bool)],
) {
    for (journals, slot, name, wanted) in rows {
        assert_eq!(rt; choose(rt.alloc(), journals, *slot, *name), *wanted);
    }
}

#[test]
fn a_minority_decides_nothing(rt: HostRuntime) {
    check_chosen(&rt, &CHOSEN);
}
