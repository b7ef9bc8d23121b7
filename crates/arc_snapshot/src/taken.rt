//! What both copies are to take in.
ghost use Rattle.std.specs.Prelude.{◌≡◌, IfOk};
ghost use Rattle.arc_data.specs.Valid.{IsValidCommand};

use crate::record::Front;
use arc_bytes::Memory;
use arc_data::Command;
use std::alloc::Global;
use std::marker::Model;

/// A command within its limits.
#[derive(Drop)]
pub struct Taken {
    command: Command,
}

/// A step of a copy.
#[derive(Drop)]
pub enum Step {
    /// Does a command.
    Do(Taken),
    /// Marks the copy with what is recorded.
    Mark(Front),
}

impl Model for Taken {
    ghost use Rattle.arc_data.specs.declared.command.Command.{Command};

    ghost Value = { Command };

    ghost use Rattle.arc_data.specs.Valid.{IsValidCommand};

    ghost view = { λ t. t.command };

    ghost invariant = { λ t. IsValidCommand t.command };
}

impl Taken {
    /// A copy of the command.
    pub(crate) fn copy_of(alloc: Global, command: &Command) -> Result<Taken, Memory>
        requires { IsValidCommand command.now }
        ensures { IfOk result (λ t. t ≡ command.now) }
    {
        Ok(Taken {
            command: command.copy(alloc)?,
        })
    }

    /// The command.
    pub(crate) fn command(&self) -> &Command
        ensures value { result.now ≡ self.now }
        ensures valid { IsValidCommand result.now }
    {
        &self.command
    }
}
