//! The bytes of entries of journals: the kind, and what belongs to it.
ghost use Rattle.std.specs.Prelude.{◌≡◌, OnOk};
ghost use Rattle.arc_command.specs.Reading.{Gives, record_at, opened_at, promised_at, voted_at, closed_at};
ghost use Rattle.arc_command.specs.Spelling.{record_bytes};
ghost use Rattle.arc_command.specs.Typed.{IsTypedRecord};
ghost use Rattle.arc_data.specs.Valid.{IsValidRecord};
ghost use Rattle.arc_bytes.specs.Adding.{Adds};

use crate::command_bytes::{put_command, read_command};
use crate::field::{put_byte, read_byte, read_u32, read_u64};
use crate::{CommandEnd, Record};
use arc_bytes::{Memory, put_u32, put_u64};
use std::alloc::Global;

/// Puts an entry at the end.
#[tactic(auto, unfolding(crate::specs::Spelling::record_bytes, crate::specs::Spelling::parts_of))]
pub(crate) fn put_record(out: &mut Vec<u8>, r: &Record) -> Result<(), Memory>
    requires { IsValidRecord r.now }
    ensures adds { Adds out.old out.new (record_bytes r.now) result }
    ensures typed { OnOk result (IsTypedRecord r.now) }
{
    match r {
        Record::Opened { inc } => {
            put_byte(out, 1)?;
            put_u32(out, *inc)
        }
        Record::Promised { from, ballot } => {
            put_byte(out, 2)?;
            put_u32(out, *from)?;
            put_u64(out, *ballot)
        }
        Record::Voted {
            slot,
            ballot,
            command,
        } => {
            put_byte(out, 3)?;
            put_u32(out, *slot)?;
            put_u64(out, *ballot)?;
            put_command(out, command)
        }
        Record::Closed { slot, command } => {
            put_byte(out, 4)?;
            put_u32(out, *slot)?;
            put_command(out, command)
        }
    }
}

/// An entry.
#[tactic(auto, unfolding(crate::specs::Reading::record_at))]
pub(crate) fn read_record(
    alloc: Global,
    bytes: &[u8],
    at: usize,
) -> Result<(Record, usize), CommandEnd>
    ensures { Gives result (record_at bytes.now at) }
{
    let (kind, parts) = read_byte(bytes, at)?;
    match kind {
        1 => read_opened(bytes, parts),
        2 => read_promised(bytes, parts),
        3 => read_voted(alloc, bytes, parts),
        4 => read_closed(alloc, bytes, parts),
        _ => Err(CommandEnd::BadCommand { place: at }),
    }
}

#[tactic(auto, unfolding(crate::specs::Reading::opened_at))]
fn read_opened(bytes: &[u8], at: usize) -> Result<(Record, usize), CommandEnd>
    ensures { Gives result (opened_at bytes.now at) }
{
    let (inc, at) = read_u32(bytes, at)?;
    Ok((Record::Opened { inc }, at))
}

#[tactic(auto, unfolding(crate::specs::Reading::promised_at))]
fn read_promised(bytes: &[u8], at: usize) -> Result<(Record, usize), CommandEnd>
    ensures { Gives result (promised_at bytes.now at) }
{
    let (from, at) = read_u32(bytes, at)?;
    let (ballot, at) = read_u64(bytes, at)?;
    Ok((Record::Promised { from, ballot }, at))
}

#[tactic(auto, unfolding(crate::specs::Reading::voted_at))]
fn read_voted(alloc: Global, bytes: &[u8], at: usize) -> Result<(Record, usize), CommandEnd>
    ensures { Gives result (voted_at bytes.now at) }
{
    let (slot, at) = read_u32(bytes, at)?;
    let (ballot, at) = read_u64(bytes, at)?;
    let (command, at) = read_command(alloc, bytes, at)?;
    let vote = Record::Voted {
        slot,
        ballot,
        command,
    };
    Ok((vote, at))
}

#[tactic(auto, unfolding(crate::specs::Reading::closed_at))]
fn read_closed(alloc: Global, bytes: &[u8], at: usize) -> Result<(Record, usize), CommandEnd>
    ensures { Gives result (closed_at bytes.now at) }
{
    let (slot, at) = read_u32(bytes, at)?;
    let (command, at) = read_command(alloc, bytes, at)?;
    Ok((Record::Closed { slot, command }, at))
}
