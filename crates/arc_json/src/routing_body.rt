//! Panels, controls and safety rules that replies show, as JSON.
ghost use Rattle.std.specs.Prelude.{◌≡◌, IfOk};
ghost use Rattle.serde_json.specs.View.{view};
ghost use Rattle.arc_data.specs.declared.reply.Body.TheVariants as done;
ghost use Rattle.arc_json.specs.Done.{body_value, control_value, rule_value};

use crate::members::{Shown, four_texts, one_text, only_json, put_number, three_texts, two_texts};
use crate::words::{word_of_rule, word_of_switch};
use arc_bytes::Memory;
use arc_data::{ControlId, ControlItem, PanelId, RuleId, RuleItem, Text};
use serde_json::{Map, Value};
use std::alloc::Global;

/// A new panel.
pub(crate) fn panel_json(alloc: Global, panel: PanelId, name: &Text) -> Result<Value, Memory>
    ensures { IfOk result (λ v. view v ≡ body_value (done.Panel panel name.now)) }
{
    let panel = panel.text(alloc)?;
    let value = two_texts(
        alloc,
        Map::new(alloc),
        ("ControlPanelArn", panel.as_str()),
        ("Name", name.as_str()),
    )?;
    only_json(alloc, "ControlPanel", value)
}

/// A new control.
pub(crate) fn control_json(
    alloc: Global,
    panel: PanelId,
    name: &Text,
    control: ControlId,
) -> Result<Value, Memory>
    ensures { IfOk result (λ v. view v ≡ body_value (done.Control panel name.now control)) }
{
    let panel = panel.text(alloc)?;
    let control = control.text(alloc)?;
    let value = three_texts(
        alloc,
        Map::new(alloc),
        ("ControlPanelArn", panel.as_str()),
        ("Name", name.as_str()),
        ("RoutingControlArn", control.as_str()),
    )?;
    only_json(alloc, "RoutingControl", value)
}

impl Shown for ControlItem {
    ghost value = { control_value };

    fn json(&self, alloc: Global) -> Result<Value, Memory> {
        let panel = self.panel.text(alloc)?;
        let control = self.control.text(alloc)?;
        four_texts(
            alloc,
            Map::new(alloc),
            ("ControlPanelArn", panel.as_str()),
            ("RoutingControlArn", control.as_str()),
            ("RoutingControlName", self.name.as_str()),
            ("RoutingControlState", word_of_switch(self.on)),
        )
    }
}

/// Whether a control is On.
pub(crate) fn control_state_json(
    alloc: Global,
    control: ControlId,
    name: &Text,
    on: bool,
) -> Result<Value, Memory>
    ensures { IfOk result (λ v. view v ≡ body_value (done.ControlState control name.now on)) }
{
    let control = control.text(alloc)?;
    three_texts(
        alloc,
        Map::new(alloc),
        ("RoutingControlArn", control.as_str()),
        ("RoutingControlName", name.as_str()),
        ("RoutingControlState", word_of_switch(on)),
    )
}

/// A new safety rule.
pub(crate) fn rule_json(alloc: Global, rule: RuleId) -> Result<Value, Memory>
    ensures { IfOk result (λ v. view v ≡ body_value (done.Rule rule)) }
{
    let rule = rule.text(alloc)?;
    one_text(alloc, Map::new(alloc), ("SafetyRuleArn", rule.as_str()))
}

impl Shown for RuleItem {
    ghost value = { rule_value };

    fn json(&self, alloc: Global) -> Result<Value, Memory> {
        let rule = self.rule.text(alloc)?;
        let mut map = Map::new(alloc);
        put_number(&mut map, alloc, "WaitPeriodMs", self.wait_ms as u64)?;
        three_texts(
            alloc,
            map,
            ("Name", self.name.as_str()),
            ("SafetyRuleArn", rule.as_str()),
            ("Type", word_of_rule(self.gating)),
        )
    }
}
