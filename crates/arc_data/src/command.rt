//! Commands.
ghost use Rattle.std.specs.Prelude.{◌≡◌, IfOk};

use crate::{CommandId, Op};
use arc_bytes::Memory;
use std::alloc::Global;

/// An operation with the call that it came from.
#[derive(Drop)]
pub struct Command {
    pub id: CommandId,
    /// When the call came, in milliseconds since 1970-01-01, at most `MAX_MS`.
    pub at_ms: u64,
    /// The number of commands that the caller knows to be in the list.
    pub token: u64,
    pub op: Op,
}

/// The last millisecond of the year 9999.
pub const MAX_MS: u64 = 253_402_300_799_999;

impl Command {
    /// The same command again.
    pub fn copy(&self, alloc: Global) -> Result<Command, Memory>
        ensures { IfOk result (λ command. command ≡ self.now) }
    {
        let op = self.op.copy(alloc)?;
        Ok(Command {
            id: self.id,
            at_ms: self.at_ms,
            token: self.token,
            op,
        })
    }
}
