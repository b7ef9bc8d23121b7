//! The bytes of commands: the version, the identifier, the time, the token, the operation.
ghost use Rattle.std.specs.Prelude.{◌≡◌, OnOk};
ghost use Rattle.arc_command.specs.Reading.{Gives, command_at, command_id_at, version_at, time_at};
ghost use Rattle.arc_command.specs.Spelling.{command_bytes, id_bytes};
ghost use Rattle.arc_command.specs.Typed.{IsTyped, IsTypedId};
ghost use Rattle.arc_data.specs.Valid.{IsValidCommand};
ghost use Rattle.arc_bytes.specs.Adding.{Adds};

use crate::field::{put_byte, read_byte, read_u32, read_u64};
use crate::op_bytes::{put_op, read_op};
use crate::{Command, CommandEnd, CommandId, MAX_MS};
use arc_bytes::{Memory, put_u32, put_u64};
use std::alloc::Global;

/// The first byte of every command.
const VERSION: u8 = 1;

/// Puts a command at the end.
#[tactic(auto, unfolding(crate::specs::Spelling::command_bytes))]
pub(crate) fn put_command(out: &mut Vec<u8>, command: &Command) -> Result<(), Memory>
    requires { IsValidCommand command.now }
    ensures adds { Adds out.old out.new (command_bytes command.now) result }
    ensures typed { OnOk result (IsTyped command.now) }
{
    put_byte(out, VERSION)?;
    put_command_id(out, command.id)?;
    put_u64(out, command.at_ms)?;
    put_u64(out, command.token)?;
    put_op(out, &command.op)
}

/// A command.
#[tactic(auto, unfolding(crate::specs::Reading::command_at))]
pub(crate) fn read_command(
    alloc: Global,
    bytes: &[u8],
    at: usize,
) -> Result<(Command, usize), CommandEnd>
    ensures { Gives result (command_at bytes.now at) }
{
    let (_, at) = read_version(bytes, at)?;
    let (id, at) = read_command_id(bytes, at)?;
    let (at_ms, at) = read_time(bytes, at)?;
    let (token, at) = read_u64(bytes, at)?;
    let (op, at) = read_op(alloc, bytes, at)?;
    let command = Command {
        id,
        at_ms,
        token,
        op,
    };
    Ok((command, at))
}

/// Puts the identifier of a command at the end.
#[tactic(auto, unfolding(crate::specs::Spelling::id_bytes))]
fn put_command_id(out: &mut Vec<u8>, id: CommandId) -> Result<(), Memory>
    ensures adds { Adds out.old out.new (id_bytes id) result }
    ensures typed { IsTypedId id }
{
    put_byte(out, id.node)?;
    put_u32(out, id.inc)?;
    put_u32(out, id.n)
}

/// The identifier of a command.
#[tactic(auto, unfolding(crate::specs::Reading::command_id_at))]
fn read_command_id(bytes: &[u8], at: usize) -> Result<(CommandId, usize), CommandEnd>
    ensures { Gives result (command_id_at bytes.now at) }
{
    let (node, inc_at) = read_byte(bytes, at)?;
    if node > 4 {
        return Err(CommandEnd::BadCommand { place: at });
    }
    let (inc, n_at) = read_u32(bytes, inc_at)?;
    if inc == 0 {
        return Err(CommandEnd::BadCommand { place: inc_at });
    }
    let (n, at) = read_u32(bytes, n_at)?;
    Ok((CommandId { node, inc, n }, at))
}

/// The version, and the place after it.
fn read_version(bytes: &[u8], at: usize) -> Result<(u8, usize), CommandEnd>
    ensures { Gives result (version_at bytes.now at) }
{
    let (version, after) = read_byte(bytes, at)?;
    if version != VERSION {
        return Err(CommandEnd::BadCommand { place: at });
    }
    Ok((version, after))
}

/// When a call came.
fn read_time(bytes: &[u8], at: usize) -> Result<(u64, usize), CommandEnd>
    ensures { Gives result (time_at bytes.now at) }
{
    let (at_ms, after) = read_u64(bytes, at)?;
    if at_ms > MAX_MS {
        return Err(CommandEnd::BadCommand { place: at });
    }
    Ok((at_ms, after))
}
