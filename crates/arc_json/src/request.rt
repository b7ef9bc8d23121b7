//! Requests: the name of an operation and a body of JSON.
ghost use Rattle.std.specs.Prelude.{◌≡◌, ◌⊎◌, Err, IfErr, IfOk, Ok};
ghost use Rattle.serde_json.specs.Errors.{IsMemory};
ghost use Rattle.serde_json.specs.View.{view};
ghost use Rattle.arc_data.specs.Valid.{IsValid};
ghost use Rattle.arc_members.specs.declared.code.Code.TheVariants.{BadJson};
ghost use Rattle.arc_members.specs.Reading.{Gives};
ghost use Rattle.arc_json.specs.Operations.{members_of};
ghost use Rattle.arc_json.specs.Requests.{json_of, object_of, op_of};

use crate::batch_ops::{
    create_control_panel, create_routing_control, delete_control_panel, delete_routing_control,
    get_routing_control_state, list_routing_controls, update_routing_control_state,
    update_routing_control_states,
};
use crate::operation::{Operation, operation_of};
use crate::rule_ops::{
    create_safety_rule, delete_safety_rule, list_safety_rules, update_safety_rule,
};
use crate::shift_ops::{
    cancel_practice_run, cancel_zonal_shift, create_practice_run_configuration,
    delete_practice_run_configuration, end_autoshift, get_managed_resource, list_zonal_shifts,
    register_managed_resource, set_alarm_state, start_autoshift, start_practice_run,
    start_zonal_shift, update_practice_run_configuration, update_zonal_autoshift_configuration,
    update_zonal_shift,
};
use arc_data::Op;
use arc_members::{Code, RequestEnd};
use serde_json::{Map, Value};
use std::alloc::Global;
use std::str;

/// The operation that a request asks for. `BadRequest` has the code of the first test that fails, in this order: the name
/// is that of an operation; the body is JSON, where an empty one counts as `{}`; it is an object; and then its members in
/// their order, each first for being there and then for its value. Members that the operation doesn't have are passed
/// over, and of a doubled name the last one counts.
#[tactic(auto, unfolding(crate::specs::Requests::op_of))]
pub fn read_op(alloc: Global, name: &[u8], body: &[u8]) -> Result<Op, RequestEnd>
    ensures exact { Gives result (op_of name.now body.now) }
    ensures valid { IfOk result IsValid }
{
    let Some(operation) = operation_of(name) else {
        return Err(refused(Code::UnknownOperation));
    };
    let object = read_object(alloc, body)?;
    read_members(alloc, operation, &object)
}

/// The refusal with this code.
fn refused(code: Code) -> RequestEnd
    ensures { result ≡ RequestEnd.BadRequest code }
{
    RequestEnd::BadRequest { code }
}

/// The object that a body is; an empty body counts as `{}`.
#[tactic(auto, unfolding(crate::specs::Requests::object_of))]
fn read_object(alloc: Global, body: &[u8]) -> Result<Value, RequestEnd>
    ensures ok { IfOk result (λ object. object_of body.now ≡ Ok (view object)) }
    ensures err { IfErr result (λ e. Gives (Err e) (object_of body.now)) }
{
    if body.is_empty() {
        return Ok(Value::Object(Map::new(alloc)));
    }
    let value = read_json(alloc, body)?;
    if value.is_object() {
        Ok(value)
    } else {
        Err(refused(Code::NotObject))
    }
}

/// The value that a text of JSON is.
#[tactic(auto, using(crate::proofs::Texts::utf8_passes, crate::proofs::Texts::utf8_fails), unfolding(crate::specs::Requests::json_of))]
fn read_json(alloc: Global, body: &[u8]) -> Result<Value, RequestEnd>
    ensures ok { IfOk result (λ v. json_of body.now ≡ Ok (view v)) }
    ensures err { IfErr result (λ e. Gives (Err e) (json_of body.now)) }
{
    let Ok(text) = str::from_utf8(body) else {
        return Err(refused(Code::BadJson));
    };
    match Value::from_str(alloc, text) {
        Ok(value) => Ok(value),
        Err(error) => Err(unread(&error)),
    }
}

/// Why a text gave no value: it is no JSON, or memory ran out.
fn unread(error: &serde_json::Error) -> RequestEnd
    ensures { (result ≡ RequestEnd.Memory) ⊎ ((result ≡ RequestEnd.BadRequest BadJson) × ¬ IsMemory error.now) }
{
    if error.is_memory() {
        RequestEnd::Memory
    } else {
        refused(Code::BadJson)
    }
}

/// What an object's members ask of an operation.
#[tactic(auto, unfolding(crate::specs::Operations::members_of))]
fn read_members(alloc: Global, operation: Operation, object: &Value) -> Result<Op, RequestEnd>
    ensures gives { Gives result (members_of operation (view object.now)) }
    ensures valid { IfOk result IsValid }
{
    match operation {
        Operation::CreateControlPanel => create_control_panel(alloc, object),
        Operation::DeleteControlPanel => delete_control_panel(alloc, object),
        Operation::CreateRoutingControl => create_routing_control(alloc, object),
        Operation::DeleteRoutingControl => delete_routing_control(alloc, object),
        Operation::ListRoutingControls => list_routing_controls(alloc, object),
        Operation::GetRoutingControlState => get_routing_control_state(alloc, object),
        Operation::UpdateRoutingControlState => update_routing_control_state(alloc, object),
        Operation::UpdateRoutingControlStates => update_routing_control_states(alloc, object),
        Operation::CreateSafetyRule => create_safety_rule(alloc, object),
        Operation::UpdateSafetyRule => update_safety_rule(alloc, object),
        Operation::DeleteSafetyRule => delete_safety_rule(alloc, object),
        Operation::ListSafetyRules => list_safety_rules(alloc, object),
        Operation::RegisterManagedResource => register_managed_resource(alloc, object),
        Operation::GetManagedResource => get_managed_resource(alloc, object),
        Operation::ListManagedResources => Ok(Op::ListManagedResources),
        Operation::StartZonalShift => start_zonal_shift(alloc, object),
        Operation::UpdateZonalShift => update_zonal_shift(alloc, object),
        Operation::CancelZonalShift => cancel_zonal_shift(alloc, object),
        Operation::ListZonalShifts => list_zonal_shifts(alloc, object),
        Operation::CreatePracticeRunConfiguration => create_practice_run_configuration(
            alloc, object,
        ),
        Operation::UpdatePracticeRunConfiguration => update_practice_run_configuration(
            alloc, object,
        ),
        Operation::DeletePracticeRunConfiguration => delete_practice_run_configuration(
            alloc, object,
        ),
        Operation::StartPracticeRun => start_practice_run(alloc, object),
        Operation::CancelPracticeRun => cancel_practice_run(alloc, object),
        Operation::UpdateZonalAutoshiftConfiguration => update_zonal_autoshift_configuration(
            alloc, object,
        ),
        Operation::StartAutoshift => start_autoshift(alloc, object),
        Operation::EndAutoshift => end_autoshift(alloc, object),
        Operation::SetAlarmState => set_alarm_state(alloc, object),
    }
}
