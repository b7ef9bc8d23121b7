//! What was done, as JSON.
ghost use Rattle.std.specs.Prelude.{◌≡◌, IfOk};
ghost use Rattle.serde_json.specs.View.{view};
ghost use Rattle.arc_json.specs.Done.{body_value};

use crate::members::{Shown, list_json};
use crate::resource_body::{autoshift_json, detail_json, resource_json};
use crate::routing_body::{control_json, control_state_json, panel_json, rule_json};
use arc_bytes::Memory;
use arc_data::Body;
use serde_json::{Map, Value};
use std::alloc::Global;

/// The JSON value of what was done.
pub fn body_json(alloc: Global, body: &Body) -> Result<Value, Memory>
    ensures { IfOk result (λ v. view v ≡ body_value body.now) }
{
    match body {
        Body::Empty => Ok(Value::Object(Map::new(alloc))),
        Body::Panel { panel, name } => panel_json(alloc, *panel, name),
        Body::Control {
            panel,
            name,
            control,
        } => control_json(alloc, *panel, name, *control),
        Body::Controls { items } => list_json(alloc, "RoutingControls", items.as_slice()),
        Body::ControlState { control, name, on } => {
            control_state_json(alloc, *control, name, *on)
        }
        Body::Rule { rule } => rule_json(alloc, *rule),
        Body::Rules { items } => list_json(alloc, "SafetyRules", items.as_slice()),
        Body::Resource { resource } => resource_json(alloc, *resource),
        Body::ResourceDetail {
            applied,
            zones,
            name,
            resource,
            autoshift,
        } => detail_json(
            alloc,
            *applied,
            zones.as_slice(),
            name,
            *resource,
            *autoshift,
        ),
        Body::Resources { items } => list_json(alloc, "items", items.as_slice()),
        Body::Shift { item } => item.json(alloc),
        Body::Shifts { items } => list_json(alloc, "items", items.as_slice()),
        Body::Autoshift { resource, enabled } => autoshift_json(alloc, *resource, *enabled),
    }
}
