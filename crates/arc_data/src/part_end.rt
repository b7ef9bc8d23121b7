//! How a call of one part of the state ends badly.
ghost use Rattle.std.specs.Prelude.{◌≡◌};
ghost use Rattle.arc_data.specs.declared.part_end.PartEnd.{PartEnd};
ghost use Rattle.arc_data.specs.declared.part_end.PartEnd.TheVariants.{Memory as NoMemory};

use crate::Refusal;
use arc_bytes::Memory;
use std::alloc::{AllocError, AllocFailed};

/// Why a call of a part of the state did nothing.
#[derive(Drop)]
pub enum PartEnd {
    /// It was refused.
    Refused(Refusal),
    /// There was no memory left.
    Memory,
}

impl From<Memory> for PartEnd {
    ghost from_gives = { λ m end. end ≡ NoMemory };

    fn from(_: Memory) -> PartEnd {
        PartEnd::Memory
    }
}

impl From<AllocError> for PartEnd {
    ghost from_gives = { λ e end. end ≡ NoMemory };

    fn from(_: AllocError) -> PartEnd {
        PartEnd::Memory
    }
}

impl<T: Drop> From<AllocFailed<T>> for PartEnd {
    ghost from_gives = { λ e end. end ≡ NoMemory };

    fn from(_: AllocFailed<T>) -> PartEnd {
        PartEnd::Memory
    }
}
