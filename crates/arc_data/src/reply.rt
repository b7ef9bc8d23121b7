//! Replies: what was done, or why not.
use crate::{
    BlockCause, ControlId, Forbidden, Kind, List, PanelId, ResourceId, ResourceItem, RuleId,
    RuleItem, ShiftId, ShiftItem, Status, Text, ZoneName,
};

/// A control as replies show it.
#[derive(Drop)]
pub struct ControlItem {
    pub panel: PanelId,
    pub control: ControlId,
    pub name: Text,
    /// `true` for On.
    pub on: bool,
}

/// Something that has an identifier.
#[derive(Clone, Copy, PartialEq, Eq)]
pub enum Named {
    Panel(PanelId),
    Control(ControlId),
    Rule(RuleId),
    Resource(ResourceId),
    Shift(ShiftId),
    Zone(ZoneName),
}

/// Why a command changed nothing but list time and the number of commands.
#[derive(Drop)]
pub enum Refusal {
    /// The caller's token is above the place of the command in the list.
    TokenAhead { token: u64, place: u64 },
    /// What the command names isn't there.
    NotFound { id: Named },
    /// The resource has no configuration of practice runs.
    NotConfigured { resource: ResourceId },
    /// There is no room for one more: so many are kept.
    Limit { count: u32 },
    /// The name is another's.
    NameTaken { id: Named },
    /// It is in use by another, or can't be removed at all.
    InUse { id: Named },
    /// The resource has a configuration of practice runs already.
    Configured { resource: ResourceId },
    /// Zones in autoshift move the resource's traffic away, so that it keeps its configuration.
    Enabled { resource: ResourceId },
    /// The zone is in autoshift already.
    Started { zone: ZoneName },
    /// Safety rules forbid the batch: all of them, in order of creation.
    Forbidden { rules: List<Forbidden> },
    /// The shift is over.
    NotActive { status: Status },
    /// Another shift moves the resource's traffic away.
    Busy { by: Kind },
    /// The resource isn't in that zone.
    WrongZone { zone: ZoneName },
    /// Practice runs of the resource don't start now.
    Blocked { cause: BlockCause },
}

/// What a command that was done answers.
#[derive(Drop)]
pub enum Body {
    /// Nothing beside that it was done.
    Empty,
    /// A new panel.
    Panel {
        panel: PanelId,
        name: Text,
    },
    /// A new control.
    Control {
        panel: PanelId,
        name: Text,
        control: ControlId,
    },
    /// Controls, by ascending identifier.
    Controls {
        items: List<ControlItem>,
    },
    /// Whether a control is On.
    ControlState {
        control: ControlId,
        name: Text,
        on: bool,
    },
    /// A new safety rule.
    Rule {
        rule: RuleId,
    },
    /// Safety rules, by ascending identifier.
    Rules {
        items: List<RuleItem>,
    },
    /// A new resource.
    Resource {
        resource: ResourceId,
    },
    /// What is kept of a resource, and which shift moves its traffic away from which zone.
    ResourceDetail {
        applied: Option<(Kind, ZoneName)>,
        zones: List<ZoneName>,
        name: Text,
        resource: ResourceId,
        autoshift: bool,
    },
    /// Resources, by ascending identifier.
    Resources {
        items: List<ResourceItem>,
    },
    /// A shift or a practice run.
    Shift {
        item: ShiftItem,
    },
    /// Shifts and practice runs, by ascending identifier.
    Shifts {
        items: List<ShiftItem>,
    },
    /// Whether zones in autoshift move a resource's traffic away.
    Autoshift {
        resource: ResourceId,
        enabled: bool,
    },
}

/// The answer to a command at its place in the list.
#[derive(Drop)]
pub enum Reply {
    Done(Body),
    Refused(Refusal),
}
