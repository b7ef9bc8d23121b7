//! The bytes of commands and of entries of journals.
ghost use Rattle.std.specs.Prelude.{◌≡◌};
ghost use Rattle.arc_command.specs.declared.bytes.CommandEnd.TheVariants as end;

use arc_bytes::Memory;
use std::alloc::{AllocError, AllocFailed};

/// Why bytes were not read as a command or as an entry.
#[derive(Clone, Copy, Debug, PartialEq, Eq)]
pub enum CommandEnd {
    /// The field that begins at this place can't be read. Places are counted from 0.
    BadCommand { place: usize },
    /// There was no memory left for what was read.
    Memory,
}

impl From<Memory> for CommandEnd {
    ghost from_gives = { λ _ e. e ≡ end.Memory };

    fn from(_: Memory) -> CommandEnd {
        CommandEnd::Memory
    }
}

impl From<AllocError> for CommandEnd {
    ghost from_gives = { λ _ e. e ≡ end.Memory };

    fn from(_: AllocError) -> CommandEnd {
        CommandEnd::Memory
    }
}

impl<T: Drop> From<AllocFailed<T>> for CommandEnd {
    ghost from_gives = { λ _ e. e ≡ end.Memory };

    fn from(_: AllocFailed<T>) -> CommandEnd {
        CommandEnd::Memory
    }
}
