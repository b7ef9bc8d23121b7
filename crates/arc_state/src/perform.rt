//! Which operation does what.
ghost use Rattle.std.specs.Prelude.{◌≡◌, IfOk, OnErr};
ghost use Rattle.arc_data.specs.Valid.{IsValid};
ghost use Rattle.arc_plain.specs.Cluster.{effect_of};
ghost use Rattle.arc_state.specs.Standing.{AreReady, Does};

use crate::parts::Parts;
use crate::{autoshifts, changes, controls, practice, read, rules, runs, shifts, shown};
use arc_bytes::Memory;
use arc_data::{Op, Reply};
use std::alloc::Global;

/// Does an operation on parts whose list time has come. After want of memory nothing has changed.
pub(crate) fn perform(alloc: Global, parts: &mut Parts, op: &Op) -> Result<Reply, Memory>
    requires valid { IsValid op.now }
    requires ready { AreReady parts.old }
    ensures does { IfOk result (λ reply. Does (λ plain. effect_of plain op.now) parts.old reply parts.new) }
    ensures unchanged { OnErr result (parts.new ≡ parts.old) }
{
    match op {
        Op::CreateControlPanel { name } => controls::create_control_panel(alloc, parts, name),
        Op::DeleteControlPanel { panel } => controls::delete_control_panel(parts, *panel),
        Op::CreateRoutingControl { name, panel } => {
            controls::create_routing_control(alloc, parts, name, *panel)
        }
        Op::DeleteRoutingControl { control } => controls::delete_routing_control(parts, *control),
        Op::ListRoutingControls { panel } => read::list_routing_controls(alloc, parts, *panel),
        Op::GetRoutingControlState { control } => {
            read::get_routing_control_state(alloc, parts, *control)
        }
        Op::UpdateRoutingControlState { batch } => controls::update_states(alloc, parts, batch),
        Op::UpdateRoutingControlStates { batch } => controls::update_states(alloc, parts, batch),
        Op::CreateSafetyRule { spec } => rules::create_safety_rule(alloc, parts, spec),
        Op::UpdateSafetyRule {
            gating,
            rule,
            name,
            wait_ms,
        } => rules::update_safety_rule(alloc, parts, *gating, *rule, name, *wait_ms),
        Op::DeleteSafetyRule { rule } => rules::delete_safety_rule(parts, *rule),
        Op::ListSafetyRules { panel } => read::list_safety_rules(alloc, parts, *panel),
        Op::RegisterManagedResource { name, zones } => {
            shifts::register_managed_resource(alloc, parts, name, zones)
        }
        Op::GetManagedResource { resource } => shown::get_managed_resource(alloc, parts, *resource),
        Op::ListManagedResources => shown::list_managed_resources(alloc, parts),
        Op::StartZonalShift {
            resource,
            away_from,
            expires_min,
            comment,
        } => shifts::start_zonal_shift(alloc, parts, *resource, *away_from, *expires_min, comment),
        Op::UpdateZonalShift {
            shift,
            comment,
            expires_min,
        } => changes::update_zonal_shift(alloc, parts, *shift, comment, *expires_min),
        Op::CancelZonalShift { shift } => changes::cancel_zonal_shift(alloc, parts, *shift),
        Op::ListZonalShifts { resource, status } => {
            read::list_zonal_shifts(alloc, parts, *resource, *status)
        }
        Op::CreatePracticeRunConfiguration { resource, config } => {
            practice::create_practice_configuration(alloc, parts, *resource, config)
        }
        Op::UpdatePracticeRunConfiguration { resource, change } => {
            practice::update_practice_configuration(alloc, parts, *resource, change)
        }
        Op::DeletePracticeRunConfiguration { resource } => {
            practice::delete_practice_configuration(parts, *resource)
        }
        Op::StartPracticeRun {
            resource,
            away_from,
            comment,
        } => runs::start_practice_run(alloc, parts, *resource, *away_from, comment),
        Op::CancelPracticeRun { shift } => runs::cancel_practice_run(alloc, parts, *shift),
        Op::UpdateZonalAutoshiftConfiguration { resource, enabled } => {
            practice::update_autoshift_configuration(parts, *resource, *enabled)
        }
        Op::StartAutoshift { away_from } => autoshifts::start_autoshift(parts, *away_from),
        Op::EndAutoshift { away_from } => practice::end_autoshift(parts, *away_from),
        Op::SetAlarmState { alarm, red } => practice::set_alarm_state(alloc, parts, alarm, *red),
    }
}
