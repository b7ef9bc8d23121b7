//! Identifiers, read from their texts.
ghost use Rattle.std.specs.Prelude.{◌≡◌, ⊤};
ghost use Rattle.arc_members.specs.Values.{control_in, panel_in, resource_in, rule_in, shift_in};

use crate::kind::refused;
use crate::text::text_in;
use crate::{Code, Kind, RequestEnd};
use arc_data::{ControlId, PanelId, ResourceId, RuleId, ShiftId};
use serde_json::Value;
use std::alloc::Global;

impl Kind for PanelId {
    type Read = PanelId;

    ghost reading = { panel_in };

    ghost Holds = { λ _. ⊤ };

    #[tactic(auto, unfolding(crate::specs::Values::panel_in))]
    fn read(_alloc: Global, value: &Value) -> Result<PanelId, RequestEnd> {
        let text = text_in(value)?;
        match PanelId::of_text(text) {
            Ok(panel) => Ok(panel),
            Err(_) => Err(refused(Code::BadId)),
        }
    }
}

impl Kind for ControlId {
    type Read = ControlId;

    ghost reading = { control_in };

    ghost Holds = { λ _. ⊤ };

    #[tactic(auto, unfolding(crate::specs::Values::control_in))]
    fn read(_alloc: Global, value: &Value) -> Result<ControlId, RequestEnd> {
        let text = text_in(value)?;
        match ControlId::of_text(text) {
            Ok(control) => Ok(control),
            Err(_) => Err(refused(Code::BadId)),
        }
    }
}

impl Kind for RuleId {
    type Read = RuleId;

    ghost reading = { rule_in };

    ghost Holds = { λ _. ⊤ };

    #[tactic(auto, unfolding(crate::specs::Values::rule_in))]
    fn read(_alloc: Global, value: &Value) -> Result<RuleId, RequestEnd> {
        let text = text_in(value)?;
        match RuleId::of_text(text) {
            Ok(rule) => Ok(rule),
            Err(_) => Err(refused(Code::BadId)),
        }
    }
}

impl Kind for ResourceId {
    type Read = ResourceId;

    ghost reading = { resource_in };

    ghost Holds = { λ _. ⊤ };

    #[tactic(auto, unfolding(crate::specs::Values::resource_in))]
    fn read(_alloc: Global, value: &Value) -> Result<ResourceId, RequestEnd> {
        let text = text_in(value)?;
        match ResourceId::of_text(text) {
            Ok(resource) => Ok(resource),
            Err(_) => Err(refused(Code::BadId)),
        }
    }
}

impl Kind for ShiftId {
    type Read = ShiftId;

    ghost reading = { shift_in };

    ghost Holds = { λ _. ⊤ };

    #[tactic(auto, unfolding(crate::specs::Values::shift_in))]
    fn read(_alloc: Global, value: &Value) -> Result<ShiftId, RequestEnd> {
        let text = text_in(value)?;
        match ShiftId::of_text(text) {
            Ok(shift) => Ok(shift),
            Err(_) => Err(refused(Code::BadId)),
        }
    }
}
