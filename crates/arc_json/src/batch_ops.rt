//! Operations on panels, controls and their states, read from their members.
ghost use Rattle.std.specs.Prelude.{◌≡◌, ◌≤◌, ◌==◌, IfOk, length, ⊤};
ghost use Rattle.serde_json.specs.View.{view};
ghost use Rattle.arc_data.specs.Valid.{IsValid};
ghost use Rattle.arc_json.specs.Apart.{AreChanges};
ghost use Rattle.arc_members.specs.Reading.{Gives};
ghost use Rattle.arc_json.specs.Batches.{create_control_panel, create_routing_control, delete_control_panel, delete_routing_control, entries_in, entry_in, entry_members, get_routing_control_state, list_routing_controls, overrides_in, rule_list_in, same_control, update_routing_control_state, update_routing_control_states};

use arc_data::{Batch, ControlId, Entry, List, Op, PanelId, RuleId};
use arc_members::{
    Apart, Kind, Name, RequestEnd, State, defaulted, list_in, object_in, optional, required, set_in,
};
use serde_json::Value;
use std::alloc::{AllocError, AllocFailed, Global};

/// Makes a control panel.
#[tactic(auto, unfolding(crate::specs::Batches::create_control_panel))]
pub(crate) fn create_control_panel(alloc: Global, object: &Value) -> Result<Op, RequestEnd>
    ensures gives { Gives result (create_control_panel (view object.now)) }
    ensures valid { IfOk result IsValid }
{
    let name = required::<Name>(alloc, object, "ControlPanelName")?;
    Ok(Op::CreateControlPanel { name })
}

/// Removes a control panel.
#[tactic(auto, unfolding(crate::specs::Batches::delete_control_panel))]
pub(crate) fn delete_control_panel(alloc: Global, object: &Value) -> Result<Op, RequestEnd>
    ensures gives { Gives result (delete_control_panel (view object.now)) }
    ensures valid { IfOk result IsValid }
{
    let panel = required::<PanelId>(alloc, object, "ControlPanelArn")?;
    Ok(Op::DeleteControlPanel { panel })
}

/// Makes a control, in panel 1 where no other is given.
#[tactic(auto, unfolding(crate::specs::Batches::create_routing_control))]
pub(crate) fn create_routing_control(alloc: Global, object: &Value) -> Result<Op, RequestEnd>
    ensures gives { Gives result (create_routing_control (view object.now)) }
    ensures valid { IfOk result IsValid }
{
    let name = required::<Name>(alloc, object, "RoutingControlName")?;
    let panel = defaulted::<PanelId>(alloc, object, "ControlPanelArn", PanelId(1))?;
    Ok(Op::CreateRoutingControl { name, panel })
}

/// Removes a control.
#[tactic(auto, unfolding(crate::specs::Batches::delete_routing_control))]
pub(crate) fn delete_routing_control(alloc: Global, object: &Value) -> Result<Op, RequestEnd>
    ensures gives { Gives result (delete_routing_control (view object.now)) }
    ensures valid { IfOk result IsValid }
{
    let control = required::<ControlId>(alloc, object, "RoutingControlArn")?;
    Ok(Op::DeleteRoutingControl { control })
}

/// Lists the controls of a panel, or all.
#[tactic(auto, unfolding(crate::specs::Batches::list_routing_controls))]
pub(crate) fn list_routing_controls(alloc: Global, object: &Value) -> Result<Op, RequestEnd>
    ensures gives { Gives result (list_routing_controls (view object.now)) }
    ensures valid { IfOk result IsValid }
{
    let panel = optional::<PanelId>(alloc, object, "ControlPanelArn")?;
    Ok(Op::ListRoutingControls { panel })
}

/// Tells whether a control is On.
#[tactic(auto, unfolding(crate::specs::Batches::get_routing_control_state))]
pub(crate) fn get_routing_control_state(alloc: Global, object: &Value) -> Result<Op, RequestEnd>
    ensures gives { Gives result (get_routing_control_state (view object.now)) }
    ensures valid { IfOk result IsValid }
{
    let control = required::<ControlId>(alloc, object, "RoutingControlArn")?;
    Ok(Op::GetRoutingControlState { control })
}

/// The change of one control.
#[tactic(auto, unfolding(crate::specs::Batches::entry_members))]
fn entry_members(alloc: Global, object: &Value) -> Result<Entry, RequestEnd>
    ensures { Gives result (entry_members (view object.now)) }
{
    let control = required::<ControlId>(alloc, object, "RoutingControlArn")?;
    let on = required::<State>(alloc, object, "RoutingControlState")?;
    Ok(Entry { control, on })
}

/// A change of one control, as an object.
struct Change;

impl Kind for Change {
    type Read = Entry;

    ghost reading = { entry_in };

    ghost Holds = { λ _. ⊤ };

    #[tactic(auto, unfolding(crate::specs::Batches::entry_in))]
    fn read(alloc: Global, value: &Value) -> Result<Entry, RequestEnd> {
        entry_members(alloc, object_in(value)?)
    }
}

impl Apart for Change {
    ghost same = { same_control };

    fn is_same(a: &Entry, b: &Entry) -> bool {
        a.control.0 == b.control.0
    }
}

/// Changes of up to 16 controls, each of another one.
struct Changes;

impl Kind for Changes {
    type Read = List<Entry>;

    ghost reading = { entries_in };

    ghost Holds = { AreChanges };

    #[tactic(auto, using(crate::proofs::Apart::entries_apart), unfolding(crate::specs::Batches::entries_in))]
    fn read(alloc: Global, value: &Value) -> Result<List<Entry>, RequestEnd> {
        set_in::<Change>(alloc, value, 1, 16)
    }
}

/// The rules that a batch bypasses, as a list of at most 16.
struct Overrides;

impl Kind for Overrides {
    type Read = List<RuleId>;

    ghost reading = { rule_list_in };

    ghost Holds = { λ overrides. length overrides ≤ 16 };

    #[tactic(auto, unfolding(crate::specs::Batches::rule_list_in))]
    fn read(alloc: Global, value: &Value) -> Result<List<RuleId>, RequestEnd> {
        list_in::<RuleId>(alloc, value, 0, 16)
    }
}

/// The rules that a batch bypasses; none where none are given.
#[tactic(auto, unfolding(crate::specs::Batches::overrides_in))]
fn overrides_in(alloc: Global, object: &Value) -> Result<List<RuleId>, RequestEnd>
    ensures gives { Gives result (overrides_in (view object.now)) }
    ensures few { IfOk result (λ overrides. length overrides ≤ 16) }
{
    let none = List::of(Vec::new(alloc));
    defaulted::<Overrides>(alloc, object, "SafetyRulesToOverride", none)
}

/// Sets one control.
#[tactic(auto, unfolding(crate::specs::Batches::update_routing_control_state))]
pub(crate) fn update_routing_control_state(alloc: Global, object: &Value) -> Result<Op, RequestEnd>
    ensures gives { Gives result (update_routing_control_state (view object.now)) }
    ensures valid { IfOk result IsValid }
{
    let entry = entry_members(alloc, object)?;
    let overrides = overrides_in(alloc, object)?;
    let entries = List::of(vec![in alloc; entry]?);
    Ok(Op::UpdateRoutingControlState {
        batch: Batch { entries, overrides },
    })
}

/// Sets controls.
#[tactic(auto, unfolding(crate::specs::Batches::update_routing_control_states))]
pub(crate) fn update_routing_control_states(alloc: Global, object: &Value) -> Result<Op, RequestEnd>
    ensures gives { Gives result (update_routing_control_states (view object.now)) }
    ensures valid { IfOk result IsValid }
{
    let entries = required::<Changes>(alloc, object, "UpdateRoutingControlStateEntries")?;
    let overrides = overrides_in(alloc, object)?;
    Ok(Op::UpdateRoutingControlStates {
        batch: Batch { entries, overrides },
    })
}
