//! What words ask for, and why they ask for nothing.
ghost use Rattle.std.specs.Prelude.{◌≡◌};
ghost use Rattle.arc_cli.specs.declared.task.WordsEnd.TheVariants.{Memory};

use std::alloc::AllocError;

/// What the words ask for.
#[derive(Drop)]
pub enum Task {
    /// Drills a script.
    Drill {
        /// The path of the file that it is in; none is standard input.
        script: Option<String>,
    },
    /// Writes a generated script.
    Gen {
        /// Its size, from 1 to 4,000.
        n: u32,
    },
}

/// Why no task was read.
#[derive(Clone, Copy, Debug, PartialEq, Eq)]
pub enum WordsEnd {
    /// The words have none of the forms.
    Usage,
    /// There was no memory left; the words have one of the forms.
    Memory,
}

impl From<AllocError> for WordsEnd {
    ghost from_gives = { λ _ end. end ≡ Memory };

    fn from(_: AllocError) -> WordsEnd {
        WordsEnd::Memory
    }
}
