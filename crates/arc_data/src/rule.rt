//! Safety rules: what they are made of, how they are shown, and why they forbid a batch.
ghost use Rattle.std.specs.Prelude.{◌≡◌, IfOk};

use crate::{ControlId, List, PanelId, RuleId, Text};
use arc_bytes::Memory;
use std::alloc::Global;

/// How the states of a rule's controls make its value.
#[derive(Clone, Copy, Debug, PartialEq, Eq)]
pub enum RuleKind {
    /// True where all controls are On.
    And,
    /// True where some control is On.
    Or,
    /// True where at least as many controls as the threshold are On.
    AtLeast,
}

/// How a rule is evaluated.
#[derive(Clone, Copy, PartialEq, Eq)]
pub struct RuleConfig {
    pub kind: RuleKind,
    /// From 1 to the number of controls for `AtLeast`, and 0 for the others, which don't look at it.
    pub threshold: u16,
    /// Whether the value is negated.
    pub inverted: bool,
}

/// What a safety rule is made of.
#[derive(Drop)]
pub struct RuleSpec {
    pub name: Text,
    pub panel: PanelId,
    /// The asserted controls of an assertion, the gating controls of a gate.
    pub controls: List<ControlId>,
    /// The target controls of a gate; `None` for an assertion.
    pub targets: Option<List<ControlId>>,
    pub config: RuleConfig,
    /// For how many milliseconds further changes fail after one.
    pub wait_ms: u32,
}

/// A rule as replies show it.
#[derive(Drop)]
pub struct RuleItem {
    pub name: Text,
    pub rule: RuleId,
    /// `true` for a gate, `false` for an assertion.
    pub gating: bool,
    pub wait_ms: u32,
}

/// Why a rule forbids a batch.
#[derive(Clone, Copy, PartialEq, Eq)]
pub enum Cause {
    /// The assertion would be false after the batch.
    AssertFalse,
    /// The gate is false before the batch.
    GateClosed,
    /// The last change was too short a time ago: the wait ends at `until`, in milliseconds of list time.
    Waiting { until: u64 },
}

/// A rule that forbids a batch, and why.
#[derive(Clone, Copy, PartialEq, Eq)]
pub struct Forbidden {
    pub rule: RuleId,
    pub cause: Cause,
}

impl RuleSpec {
    /// The same again.
    pub fn copy(&self, alloc: Global) -> Result<RuleSpec, Memory>
        ensures { IfOk result (λ spec. spec ≡ self.now) }
    {
        let targets = match &self.targets {
            Some(targets) => Some(targets.copy(alloc)?),
            None => None,
        };
        Ok(RuleSpec {
            name: self.name.copy(alloc)?,
            panel: self.panel,
            controls: self.controls.copy(alloc)?,
            targets,
            config: self.config,
            wait_ms: self.wait_ms,
        })
    }
}
