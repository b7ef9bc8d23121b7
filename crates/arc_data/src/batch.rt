//! Batches of changes.
ghost use Rattle.std.specs.Prelude.{◌≡◌, IfOk};

use crate::{ControlId, List, RuleId};
use arc_bytes::Memory;
use std::alloc::Global;

/// A change of one control.
#[derive(Clone, Copy, PartialEq, Eq)]
pub struct Entry {
    pub control: ControlId,
    /// `true` for On.
    pub on: bool,
}

/// Changes that are made together or not at all.
#[derive(Drop)]
pub struct Batch {
    /// The changes, each of another control.
    pub entries: List<Entry>,
    /// The safety rules that the batch bypasses.
    pub overrides: List<RuleId>,
}

impl Batch {
    /// The same batch again.
    pub fn copy(&self, alloc: Global) -> Result<Batch, Memory>
        ensures { IfOk result (λ batch. batch ≡ self.now) }
    {
        let entries = self.entries.copy(alloc)?;
        let overrides = self.overrides.copy(alloc)?;
        Ok(Batch { entries, overrides })
    }
}
