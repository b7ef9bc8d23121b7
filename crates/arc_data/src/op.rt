//! Operations: what a command asks for.

use crate::{
    Batch, ControlId, List, PanelId, PracticeChange, PracticeConfig, ResourceId, RuleId, RuleSpec,
    ShiftId, Status, Text, ZoneName,
};

/// What a command asks for. The operations have the numbers 1 to 28 in this order.
#[derive(Drop)]
pub enum Op {
    /// Makes a control panel.
    CreateControlPanel {
        name: Text,
    },
    /// Removes a control panel without controls.
    DeleteControlPanel {
        panel: PanelId,
    },
    /// Makes a control in a panel, switched Off.
    CreateRoutingControl {
        name: Text,
        panel: PanelId,
    },
    /// Removes a control that no safety rule names.
    DeleteRoutingControl {
        control: ControlId,
    },
    /// Lists the controls of one panel, or of all.
    ListRoutingControls {
        panel: Option<PanelId>,
    },
    /// Tells whether a control is On.
    GetRoutingControlState {
        control: ControlId,
    },
    /// Sets one control: the batch has one entry.
    UpdateRoutingControlState {
        batch: Batch,
    },
    /// Sets controls, all of them or none.
    UpdateRoutingControlStates {
        batch: Batch,
    },
    /// Makes a safety rule.
    CreateSafetyRule {
        spec: RuleSpec,
    },
    /// Gives a safety rule of that kind another name and another wait, in milliseconds.
    UpdateSafetyRule {
        gating: bool,
        rule: RuleId,
        name: Text,
        wait_ms: u32,
    },
    /// Removes a safety rule.
    DeleteSafetyRule {
        rule: RuleId,
    },
    /// Lists the safety rules of a panel.
    ListSafetyRules {
        panel: PanelId,
    },
    /// Registers a managed resource with its zones.
    RegisterManagedResource {
        name: Text,
        zones: List<ZoneName>,
    },
    /// Tells what is kept of a resource, and which shift moves its traffic away.
    GetManagedResource {
        resource: ResourceId,
    },
    /// Lists the managed resources.
    ListManagedResources,
    /// Starts a shift away from a zone, for so many minutes.
    StartZonalShift {
        resource: ResourceId,
        away_from: ZoneName,
        expires_min: u32,
        comment: Text,
    },
    /// Sets what is given of an active shift; minutes count from now.
    UpdateZonalShift {
        shift: ShiftId,
        comment: Option<Text>,
        expires_min: Option<u32>,
    },
    /// Cancels an active shift.
    CancelZonalShift {
        shift: ShiftId,
    },
    /// Lists shifts and practice runs, those of one resource and one status or of all.
    ListZonalShifts {
        resource: Option<ResourceId>,
        status: Option<Status>,
    },
    /// Configures the practice runs of a resource.
    CreatePracticeRunConfiguration {
        resource: ResourceId,
        config: PracticeConfig,
    },
    /// Replaces what is given of a configuration.
    UpdatePracticeRunConfiguration {
        resource: ResourceId,
        change: PracticeChange,
    },
    /// Removes a configuration.
    DeletePracticeRunConfiguration {
        resource: ResourceId,
    },
    /// Starts a practice run away from a zone.
    StartPracticeRun {
        resource: ResourceId,
        away_from: ZoneName,
        comment: Text,
    },
    /// Interrupts a pending practice run.
    CancelPracticeRun {
        shift: ShiftId,
    },
    /// Sets whether zones in autoshift move a resource's traffic away.
    UpdateZonalAutoshiftConfiguration {
        resource: ResourceId,
        enabled: bool,
    },
    /// Puts a zone into autoshift.
    StartAutoshift {
        away_from: ZoneName,
    },
    /// Takes a zone out of autoshift.
    EndAutoshift {
        away_from: ZoneName,
    },
    /// Sets an alarm red or not.
    SetAlarmState {
        alarm: Text,
        red: bool,
    },
}
