//! The four calls: what they read and write is the one spelling.
ghost use Rattle.std.specs.Prelude.{◌≡◌, ◌+◌, ◌≤◌, ◌++◌, ℕ, List, Ok, length, vec_capacity, IsOk, IfOk, OnErr, OnOk};
ghost use Rattle.arc_data.specs.declared.command.Command.{Command};
ghost use Rattle.arc_data.specs.declared.record.Record.{Record};
ghost use Rattle.arc_command.specs.Laws.{BeginsWith, IsSpellable, IsSpellableRecord};
ghost use Rattle.arc_command.specs.Reading.{Gives, command_at, body_of};
ghost use Rattle.arc_command.specs.Spelling.{command_bytes, record_bytes};
ghost use Rattle.arc_command.specs.Typed.{IsTyped, IsTypedRecord};
ghost use Rattle.arc_data.specs.Valid.{IsValidCommand, IsValidRecord};

use crate::command_bytes::{put_command, read_command};
use crate::record_bytes::{put_record, read_record};
use crate::zones::{zones_are_short, zones_in_are_short};
use crate::{Command, CommandEnd, Record};
use arc_bytes::Memory;
use std::alloc::Global;

/// The most bytes of a command.
const MOST_COMMAND_BYTES: usize = 1024;

/// The most bytes of an entry.
const MOST_RECORD_BYTES: usize = 1037;

/// Appends the one spelling of a command, at most 1,024 bytes. Where there is room for so many it answers Ok.
#[tactic(auto, using(crate::proofs::Lengths::command_is_short))]
pub fn encode(c: &Command, out: &mut Vec<u8>) -> Result<(), Memory>
    requires { IsValidCommand c.now }
    ensures appends { OnOk result (out.new.items ≡ out.old.items ++ command_bytes c.now) }
    ensures typed { OnOk result (IsTyped c.now) }
    ensures short { length (command_bytes c.now) ≤ 1024 }
    ensures kept { OnErr result (out.new.items ≡ out.old.items) }
    ensures room { length out.old.items + 1024 ≤ vec_capacity out.old → IsOk result }
    ensures capacity { vec_capacity out.old ≤ vec_capacity out.new }
{
    zones_are_short(&c.op);
    out.reserve(MOST_COMMAND_BYTES)?;
    put_command(out, c)
}

/// Appends the one spelling of an entry, at most 1,037 bytes. Where there is room for so many it answers Ok.
#[tactic(auto, using(crate::proofs::Lengths::record_is_short))]
pub fn encode_record(r: &Record, out: &mut Vec<u8>) -> Result<(), Memory>
    requires { IsValidRecord r.now }
    ensures appends { OnOk result (out.new.items ≡ out.old.items ++ record_bytes r.now) }
    ensures typed { OnOk result (IsTypedRecord r.now) }
    ensures short { length (record_bytes r.now) ≤ 1037 }
    ensures kept { OnErr result (out.new.items ≡ out.old.items) }
    ensures room { length out.old.items + 1037 ≤ vec_capacity out.old → IsOk result }
    ensures capacity { vec_capacity out.old ≤ vec_capacity out.new }
{
    zones_in_are_short(r);
    out.reserve(MOST_RECORD_BYTES)?;
    put_record(out, r)
}

/// The command whose spelling begins the bytes, and how many bytes it has. Otherwise the place of the first field that
/// can't be read; where fields stand inside a field, the innermost counts.
pub fn decode(alloc: Global, bytes: &[u8]) -> Result<(Command, usize), CommandEnd>
    ensures exact { Gives result (command_at bytes.now 0) }
    // What is read is spelled so.
    ensures spelled { IfOk result (λ x. BeginsWith bytes.now x.0 x.1) }
    // What is spelled so is read, unless memory runs out.
    ensures only { (c : Command) (rest : List ℕ) → IsSpellable c → bytes.now ≡ command_bytes c ++ rest →
        Gives result (Ok (c, length (command_bytes c))) }
{
    read_command(alloc, bytes, 0)
}

/// The entry whose spelling the bytes are, all of them. Otherwise the place of the first field that can't be read, or
/// that of the first byte behind the entry.
pub fn decode_record(alloc: Global, bytes: &[u8]) -> Result<Record, CommandEnd>
    ensures exact { Gives result (body_of bytes.now) }
    // What is read is spelled so.
    ensures spelled { IfOk result (λ r. IsSpellableRecord r × (bytes.now ≡ record_bytes r)) }
    // What is spelled so is read, unless memory runs out.
    ensures only { (r : Record) → IsSpellableRecord r → bytes.now ≡ record_bytes r → Gives result (Ok r) }
{
    read_body(alloc, bytes)
}

/// One entry, and nothing behind it.
#[tactic(auto, unfolding(crate::specs::Reading::body_of))]
fn read_body(alloc: Global, bytes: &[u8]) -> Result<Record, CommandEnd>
    ensures { Gives result (body_of bytes.now) }
{
    let (record, end) = read_record(alloc, bytes, 0)?;
    if end != bytes.len() {
        return Err(CommandEnd::BadCommand { place: end });
    }
    Ok(record)
}
