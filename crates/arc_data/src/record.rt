//! The entries of a node's journal.
ghost use Rattle.std.specs.Prelude.{◌≡◌, IfOk};

use crate::Command;
use arc_bytes::Memory;
use std::alloc::Global;

/// An entry of a node's journal.
#[derive(Drop)]
pub enum Record {
    /// The node was started, for the time with this number, counted from 1.
    Opened {
        inc: u32,
    },
    /// The node takes part in no ballot below this one, at no slot from `from` on.
    Promised {
        from: u32,
        ballot: u64,
    },
    /// The node votes for this command at this slot, in this ballot.
    Voted {
        slot: u32,
        ballot: u64,
        command: Command,
    },
    /// This command was chosen at this slot.
    Closed {
        slot: u32,
        command: Command,
    },
}

impl Record {
    /// The same entry again.
    pub fn copy(&self, alloc: Global) -> Result<Record, Memory>
        ensures { IfOk result (λ copy. copy ≡ self.now) }
    {
        match self {
            Record::Opened { inc } => Ok(Record::Opened { inc: *inc }),
            Record::Promised { from, ballot } => Ok(Record::Promised {
                from: *from,
                ballot: *ballot,
            }),
            Record::Voted {
                slot,
                ballot,
                command,
            } => {
                let command = command.copy(alloc)?;
                Ok(Record::Voted {
                    slot: *slot,
                    ballot: *ballot,
                    command,
                })
            }
            Record::Closed { slot, command } => {
                let command = command.copy(alloc)?;
                Ok(Record::Closed {
                    slot: *slot,
                    command,
                })
            }
        }
    }
}
