//! Exact equality of plain data.
ghost use Rattle.std.specs.Prelude.{◌≡◌, ◌↔◌, IsTrue};

use crate::{
    Batch, Command, CommandId, ControlId, Entry, List, PanelId, PracticeChange, PracticeConfig,
    Record, ResourceId, RuleConfig, RuleId, RuleSpec, ShiftId, Status, Text, Window, ZoneName,
};

/// Data that can be compared exactly: two values are equal where a contract can't tell them apart.
pub trait Equals {
    /// Whether the two are one value.
    fn equals(&self, other: &Self) -> bool
        ensures { IsTrue result ↔ (self.now ≡ other.now) };
}

impl Equals for PanelId {
    fn equals(&self, other: &PanelId) -> bool {
        self.0 == other.0
    }
}

impl Equals for ControlId {
    fn equals(&self, other: &ControlId) -> bool {
        self.0 == other.0
    }
}

impl Equals for RuleId {
    fn equals(&self, other: &RuleId) -> bool {
        self.0 == other.0
    }
}

impl Equals for ResourceId {
    fn equals(&self, other: &ResourceId) -> bool {
        self.0 == other.0
    }
}

impl Equals for ShiftId {
    fn equals(&self, other: &ShiftId) -> bool {
        self.0 == other.0
    }
}

impl Equals for u32 {
    fn equals(&self, other: &u32) -> bool {
        *self == *other
    }
}

impl Equals for Status {
    fn equals(&self, other: &Status) -> bool {
        *self == *other
    }
}

impl Equals for ZoneName {
    fn equals(&self, other: &ZoneName) -> bool {
        self.as_str() == other.as_str()
    }
}

impl Equals for Window {
    fn equals(&self, other: &Window) -> bool {
        self.from == other.from && self.to == other.to
    }
}

impl<T: Equals> Equals for Option<T> {
    fn equals(&self, other: &Option<T>) -> bool {
        match (self, other) {
            (Some(left), Some(right)) => left.equals(right),
            (None, None) => true,
            _ => false,
        }
    }
}

impl Equals for CommandId {
    fn equals(&self, other: &CommandId) -> bool {
        self.node == other.node && self.inc == other.inc && self.n == other.n
    }
}

impl Equals for Text {
    fn equals(&self, other: &Text) -> bool {
        self.as_str() == other.as_str()
    }
}

impl<T: Equals> Equals for List<T> {
    fn equals(&self, other: &List<T>) -> bool {
        all_equal(self.as_slice(), other.as_slice())
    }
}

/// Whether two slices are the same items, in order.
fn all_equal<T: Equals>(left: &[T], right: &[T]) -> bool
    ensures { IsTrue result ↔ (left.now ≡ right.now) }
{
    if left.len() != right.len() {
        return false;
    }
    for i in 0..left.len() {
        if !left[i].equals(&right[i]) {
            return false;
        }
    }
    true
}

impl Equals for Entry {
    fn equals(&self, other: &Entry) -> bool {
        self.control.equals(&other.control) && self.on == other.on
    }
}

impl Equals for Batch {
    fn equals(&self, other: &Batch) -> bool {
        self.entries.equals(&other.entries) && self.overrides.equals(&other.overrides)
    }
}

impl Equals for RuleConfig {
    fn equals(&self, other: &RuleConfig) -> bool {
        self.kind == other.kind
            && self.threshold == other.threshold
            && self.inverted == other.inverted
    }
}

impl Equals for RuleSpec {
    fn equals(&self, other: &RuleSpec) -> bool {
        self.name.equals(&other.name)
            && self.panel.equals(&other.panel)
            && self.controls.equals(&other.controls)
            && self.targets.equals(&other.targets)
            && self.config.equals(&other.config)
            && self.wait_ms == other.wait_ms
    }
}

impl Equals for PracticeConfig {
    fn equals(&self, other: &PracticeConfig) -> bool {
        self.blocked_dates.equals(&other.blocked_dates)
            && self.blocked_windows.equals(&other.blocked_windows)
            && self.blocking_alarms.equals(&other.blocking_alarms)
            && self.outcome_alarms.equals(&other.outcome_alarms)
    }
}

impl Equals for PracticeChange {
    fn equals(&self, other: &PracticeChange) -> bool {
        self.blocked_dates.equals(&other.blocked_dates)
            && self.blocked_windows.equals(&other.blocked_windows)
            && self.blocking_alarms.equals(&other.blocking_alarms)
            && self.outcome_alarms.equals(&other.outcome_alarms)
    }
}

impl Equals for Command {
    fn equals(&self, other: &Command) -> bool {
        self.id.equals(&other.id)
            && self.at_ms == other.at_ms
            && self.token == other.token
            && self.op.equals(&other.op)
    }
}

impl Equals for Record {
    fn equals(&self, other: &Record) -> bool {
        match (self, other) {
            (Record::Opened { inc }, Record::Opened { inc: other_inc }) => inc == other_inc,
            (
                Record::Promised { from, ballot },
                Record::Promised {
                    from: other_from,
                    ballot: other_ballot,
                },
            ) => from == other_from && ballot == other_ballot,
            (
                Record::Voted {
                    slot,
                    ballot,
                    command,
                },
                Record::Voted {
                    slot: other_slot,
                    ballot: other_ballot,
                    command: other_command,
                },
            ) => { slot == other_slot && ballot == other_ballot && command.equals(other_command) }
            (
                Record::Closed { slot, command },
                Record::Closed {
                    slot: other_slot,
                    command: other_command,
                },
            ) => slot == other_slot && command.equals(other_command),
            _ => false,
        }
    }
}
