//! The bytes of operations: the number of the operation, and its fields.
ghost use Rattle.std.specs.Prelude.{◌≡◌, OnOk};
ghost use Rattle.arc_command.specs.Reading.{Gives, op_at};
ghost use Rattle.arc_command.specs.Spelling.{op_bytes, fields_of, tag_of};
ghost use Rattle.arc_command.specs.Typed.{IsTypedOp};
ghost use Rattle.arc_data.specs.Valid.{IsValid};
ghost use Rattle.arc_bytes.specs.Adding.{Adds};

use crate::control_bytes::{
    put_batch, put_given_panel, put_single, read_batch, read_create_routing_control,
    read_given_panel, read_single,
};
use crate::field::{put_byte, put_text, read_byte, read_text};
use crate::fields::{
    put_control, put_panel, put_resource, put_rule, put_shift, put_switch, put_zone, read_control,
    read_panel, read_resource, read_rule, read_shift, read_zone,
};
use crate::practice_bytes::{
    put_practice_change, put_practice_config, put_start_practice_run,
    read_create_practice_run_configuration, read_set_alarm_state, read_start_practice_run,
    read_update_practice_run_configuration,
};
use crate::rule_bytes::{
    put_rule_spec, put_update_safety_rule, read_rule_spec, read_update_safety_rule,
};
use crate::shift_bytes::{
    put_list_zonal_shifts, put_register_managed_resource, put_start_zonal_shift,
    put_update_zonal_shift, read_list_zonal_shifts, read_register_managed_resource,
    read_start_zonal_shift, read_update_zonal_autoshift_configuration, read_update_zonal_shift,
};
use crate::{CommandEnd, Op};
use arc_bytes::Memory;
use std::alloc::Global;

/// Puts an operation at the end.
pub(crate) fn put_op(out: &mut Vec<u8>, op: &Op) -> Result<(), Memory>
    requires { IsValid op.now }
    ensures adds { Adds out.old out.new (op_bytes op.now) result }
    ensures typed { OnOk result (IsTypedOp op.now) }
{
    put_byte(out, number_of(op))?;
    put_fields(out, op)
}

/// The number of an operation.
fn number_of(op: &Op) -> u8
    ensures { result ≡ tag_of op.now }
{
    match op {
        Op::CreateControlPanel { .. } => 1,
        Op::DeleteControlPanel { .. } => 2,
        Op::CreateRoutingControl { .. } => 3,
        Op::DeleteRoutingControl { .. } => 4,
        Op::ListRoutingControls { .. } => 5,
        Op::GetRoutingControlState { .. } => 6,
        Op::UpdateRoutingControlState { .. } => 7,
        Op::UpdateRoutingControlStates { .. } => 8,
        Op::CreateSafetyRule { .. } => 9,
        Op::UpdateSafetyRule { .. } => 10,
        Op::DeleteSafetyRule { .. } => 11,
        Op::ListSafetyRules { .. } => 12,
        Op::RegisterManagedResource { .. } => 13,
        Op::GetManagedResource { .. } => 14,
        Op::ListManagedResources => 15,
        Op::StartZonalShift { .. } => 16,
        Op::UpdateZonalShift { .. } => 17,
        Op::CancelZonalShift { .. } => 18,
        Op::ListZonalShifts { .. } => 19,
        Op::CreatePracticeRunConfiguration { .. } => 20,
        Op::UpdatePracticeRunConfiguration { .. } => 21,
        Op::DeletePracticeRunConfiguration { .. } => 22,
        Op::StartPracticeRun { .. } => 23,
        Op::CancelPracticeRun { .. } => 24,
        Op::UpdateZonalAutoshiftConfiguration { .. } => 25,
        Op::StartAutoshift { .. } => 26,
        Op::EndAutoshift { .. } => 27,
        Op::SetAlarmState { .. } => 28,
    }
}

/// Puts the fields of an operation at the end.
#[tactic(auto, unfolding(crate::specs::Spelling::fields_of))]
fn put_fields(out: &mut Vec<u8>, op: &Op) -> Result<(), Memory>
    requires { IsValid op.now }
    ensures adds { Adds out.old out.new (fields_of op.now) result }
    ensures typed { OnOk result (IsTypedOp op.now) }
{
    match op {
        Op::CreateControlPanel { name } => put_text(out, name),
        Op::DeleteControlPanel { panel } => put_panel(out, *panel),
        Op::CreateRoutingControl { name, panel } => {
            put_text(out, name)?;
            put_panel(out, *panel)
        }
        Op::DeleteRoutingControl { control } => put_control(out, *control),
        Op::ListRoutingControls { panel } => put_given_panel(out, panel),
        Op::GetRoutingControlState { control } => put_control(out, *control),
        Op::UpdateRoutingControlState { batch } => put_single(out, batch),
        Op::UpdateRoutingControlStates { batch } => put_batch(out, batch),
        Op::CreateSafetyRule { spec } => put_rule_spec(out, spec),
        Op::UpdateSafetyRule {
            gating,
            rule,
            name,
            wait_ms,
        } => put_update_safety_rule(out, *gating, *rule, name, *wait_ms),
        Op::DeleteSafetyRule { rule } => put_rule(out, *rule),
        Op::ListSafetyRules { panel } => put_panel(out, *panel),
        Op::RegisterManagedResource { name, zones } => {
            put_register_managed_resource(out, name, zones)
        }
        Op::GetManagedResource { resource } => put_resource(out, *resource),
        Op::ListManagedResources => Ok(()),
        Op::StartZonalShift {
            resource,
            away_from,
            expires_min,
            comment,
        } => put_start_zonal_shift(out, *resource, away_from, *expires_min, comment),
        Op::UpdateZonalShift {
            shift,
            comment,
            expires_min,
        } => put_update_zonal_shift(out, *shift, comment, expires_min),
        Op::CancelZonalShift { shift } => put_shift(out, *shift),
        Op::ListZonalShifts { resource, status } => put_list_zonal_shifts(out, resource, status),
        Op::CreatePracticeRunConfiguration { resource, config } => {
            put_resource(out, *resource)?;
            put_practice_config(out, config)
        }
        Op::UpdatePracticeRunConfiguration { resource, change } => {
            put_resource(out, *resource)?;
            put_practice_change(out, change)
        }
        Op::DeletePracticeRunConfiguration { resource } => put_resource(out, *resource),
        Op::StartPracticeRun {
            resource,
            away_from,
            comment,
        } => put_start_practice_run(out, *resource, away_from, comment),
        Op::CancelPracticeRun { shift } => put_shift(out, *shift),
        Op::UpdateZonalAutoshiftConfiguration { resource, enabled } => {
            put_resource(out, *resource)?;
            put_switch(out, *enabled)
        }
        Op::StartAutoshift { away_from } => put_zone(out, away_from),
        Op::EndAutoshift { away_from } => put_zone(out, away_from),
        Op::SetAlarmState { alarm, red } => {
            put_text(out, alarm)?;
            put_switch(out, *red)
        }
    }
}

/// An operation.
#[tactic(auto, unfolding(crate::specs::Reading::op_at, crate::specs::Reading::fields_at))]
pub(crate) fn read_op(alloc: Global, bytes: &[u8], at: usize) -> Result<(Op, usize), CommandEnd>
    ensures { Gives result (op_at bytes.now at) }
{
    let (tag, fields) = read_byte(bytes, at)?;
    match tag {
        1 => {
            let (name, at) = read_text(alloc, bytes, fields, 1, 64)?;
            Ok((Op::CreateControlPanel { name }, at))
        }
        2 => {
            let (panel, at) = read_panel(bytes, fields)?;
            Ok((Op::DeleteControlPanel { panel }, at))
        }
        3 => read_create_routing_control(alloc, bytes, fields),
        4 => {
            let (control, at) = read_control(bytes, fields)?;
            Ok((Op::DeleteRoutingControl { control }, at))
        }
        5 => {
            let (panel, at) = read_given_panel(bytes, fields)?;
            Ok((Op::ListRoutingControls { panel }, at))
        }
        6 => {
            let (control, at) = read_control(bytes, fields)?;
            Ok((Op::GetRoutingControlState { control }, at))
        }
        7 => {
            let (batch, at) = read_single(alloc, bytes, fields)?;
            Ok((Op::UpdateRoutingControlState { batch }, at))
        }
        8 => {
            let (batch, at) = read_batch(alloc, bytes, fields)?;
            Ok((Op::UpdateRoutingControlStates { batch }, at))
        }
        9 => {
            let (spec, at) = read_rule_spec(alloc, bytes, fields)?;
            Ok((Op::CreateSafetyRule { spec }, at))
        }
        10 => read_update_safety_rule(alloc, bytes, fields),
        11 => {
            let (rule, at) = read_rule(bytes, fields)?;
            Ok((Op::DeleteSafetyRule { rule }, at))
        }
        12 => {
            let (panel, at) = read_panel(bytes, fields)?;
            Ok((Op::ListSafetyRules { panel }, at))
        }
        13 => read_register_managed_resource(alloc, bytes, fields),
        14 => {
            let (resource, at) = read_resource(bytes, fields)?;
            Ok((Op::GetManagedResource { resource }, at))
        }
        15 => Ok((Op::ListManagedResources, fields)),
        16 => read_start_zonal_shift(alloc, bytes, fields),
        17 => read_update_zonal_shift(alloc, bytes, fields),
        18 => {
            let (shift, at) = read_shift(bytes, fields)?;
            Ok((Op::CancelZonalShift { shift }, at))
        }
        19 => read_list_zonal_shifts(bytes, fields),
        20 => read_create_practice_run_configuration(alloc, bytes, fields),
        21 => read_update_practice_run_configuration(alloc, bytes, fields),
        22 => {
            let (resource, at) = read_resource(bytes, fields)?;
            Ok((Op::DeletePracticeRunConfiguration { resource }, at))
        }
        23 => read_start_practice_run(alloc, bytes, fields),
        24 => {
            let (shift, at) = read_shift(bytes, fields)?;
            Ok((Op::CancelPracticeRun { shift }, at))
        }
        25 => read_update_zonal_autoshift_configuration(bytes, fields),
        26 => {
            let (away_from, at) = read_zone(alloc, bytes, fields)?;
            Ok((Op::StartAutoshift { away_from }, at))
        }
        27 => {
            let (away_from, at) = read_zone(alloc, bytes, fields)?;
            Ok((Op::EndAutoshift { away_from }, at))
        }
        28 => read_set_alarm_state(alloc, bytes, fields),
        _ => Err(CommandEnd::BadCommand { place: at }),
    }
}
