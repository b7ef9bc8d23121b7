//! Why a line wasn't read.
ghost use Rattle.std.specs.Prelude.{◌≡◌};
ghost use Rattle.arc_script.specs.declared.end.LineEnd.TheVariants.{Bad, Memory};

use crate::ScriptCode;
use std::alloc::{AllocError, AllocFailed};

/// Why a line wasn't read.
#[derive(Clone, Copy, PartialEq, Eq)]
pub enum LineEnd {
    /// The first test that it fails.
    Bad(ScriptCode),
    /// There was no memory left.
    Memory,
}

impl From<ScriptCode> for LineEnd {
    ghost from_gives = { λ code end. end ≡ Bad code };

    fn from(code: ScriptCode) -> LineEnd {
        LineEnd::Bad(code)
    }
}

impl From<arc_bytes::Memory> for LineEnd {
    ghost from_gives = { λ _ end. end ≡ Memory };

    fn from(_: arc_bytes::Memory) -> LineEnd {
        LineEnd::Memory
    }
}

impl From<AllocError> for LineEnd {
    ghost from_gives = { λ _ end. end ≡ Memory };

    fn from(_: AllocError) -> LineEnd {
        LineEnd::Memory
    }
}

impl<T: Drop> From<AllocFailed<T>> for LineEnd {
    ghost from_gives = { λ _ end. end ≡ Memory };

    fn from(_: AllocFailed<T>) -> LineEnd {
        LineEnd::Memory
    }
}
