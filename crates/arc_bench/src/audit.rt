//! The audit of five sound journals: at each slot a promise, a vote and its closing.
ghost use Rattle.std.specs.Prelude.{◌≡◌, ◌<◌, ◌≤◌, ◌+◌, ◌*◌, ◌^◌, ℕ, vec_len};
ghost use Rattle.arc_bytes.specs.Five.{at};
ghost use Rattle.arc_voting.specs.Journals.{journals_of};
ghost use Rattle.arc_voting.specs.Walk.{HaveRoom};

use arc_bytes::{Five, Memory};
use arc_data::{Command, CommandId, ControlId, Op, Record};
use arc_voting::audit;
use std::alloc::Global;

/// How often the journals are audited.
const ROUNDS: u32 = 16;

/// The command of node 0 with this number.
fn command_of(n: u32) -> Command {
    Command {
        id: CommandId { node: 0, inc: 1, n },
        at_ms: 0,
        token: 0,
        op: Op::GetRoutingControlState {
            control: ControlId(1),
        },
    }
}

/// Puts an entry behind the others, where there is memory.
fn put(records: &mut Vec<Record>, record: Record) -> Result<(), Memory>
    ensures { vec_len records.new ≤ vec_len records.old + 1 }
{
    records.push(record)?;
    Ok(())
}

/// Puts the entries of a slot behind the others, where there is memory.
fn put_slot(records: &mut Vec<Record>, slot: u32) -> Result<(), Memory>
    ensures { vec_len records.new ≤ vec_len records.old + 3 }
{
    let ballot = 5 * (slot as u64 + 1);
    put(records, Record::Promised { from: slot, ballot })?;
    let command = command_of(slot);
    put(
        records,
        Record::Voted {
            slot,
            ballot,
            command,
        },
    )?;
    let command = command_of(slot);
    put(records, Record::Closed { slot, command })
}

/// A journal that closed so many slots, where there is memory.
fn journal_of(alloc: Global, slots: u32) -> Vec<Record>
    requires { slots ≤ 10000 }
    ensures { vec_len result ≤ 3 * slots + 1 }
{
    let mut records = Vec::new(alloc);
    let _ = put(&mut records, Record::Opened { inc: 1 });
    for slot in 0..slots {
        let _ = put_slot(&mut records, slot);
    }
    records
}

/// Five such journals.
fn five_of(alloc: Global, slots: u32) -> Five<Vec<Record>>
    requires { slots ≤ 10000 }
    ensures { (node : ℕ) → node < 5 → vec_len (at result node) < 2 ^ 32 }
{
    Five {
        d0: journal_of(alloc, slots),
        d1: journal_of(alloc, slots),
        d2: journal_of(alloc, slots),
        d3: journal_of(alloc, slots),
        d4: journal_of(alloc, slots),
    }
}

/// Lends five journals.
fn lent(js: &Five<Vec<Record>>) -> Five<&[Record]>
    requires { (node : ℕ) → node < 5 → vec_len (at js.now node) < 2 ^ 32 }
    ensures { HaveRoom (journals_of result) }
{
    Five {
        d0: js.d0.as_slice(),
        d1: js.d1.as_slice(),
        d2: js.d2.as_slice(),
        d3: js.d3.as_slice(),
        d4: js.d4.as_slice(),
    }
}

/// Audits journals again and again, and tells whether they are sound.
fn are_sound(alloc: Global, js: &Five<&[Record]>) -> bool
    requires { HaveRoom (journals_of js.now) }
{
    for _ in 0..ROUNDS {
        if audit(alloc, js).is_err() {
            return false;
        }
    }
    true
}

/// Audits five such journals again and again, and counts the entries of one; 0 where they aren't sound.
pub fn audits(alloc: Global, slots: u32) -> usize
    requires { slots ≤ 10000 }
{
    let js = five_of(alloc, slots);
    if are_sound(alloc, &lent(&js)) {
        js.d0.len()
    } else {
        0
    }
}
