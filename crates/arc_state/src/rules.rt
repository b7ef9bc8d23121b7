//! What the operations on safety rules do to the parts that are kept.
ghost use Rattle.std.specs.Prelude.{◌≡◌, ◌++◌, IfOk, OnErr, find, not, option_copied};
ghost use Rattle.arc_plain.specs.SafetyRules.{create_safety_rule, delete_safety_rule, first_outside, is_in_panel, update_safety_rule};
ghost use Rattle.arc_state.specs.Outside.{is_outside};
ghost use Rattle.arc_state.specs.Standing.{AreReady, Does};

use crate::ends::{not_found, refused};
use crate::parts::Parts;
use arc_bytes::Memory;
use arc_data::{Body, ControlId, Named, PanelId, Reply, RuleId, RuleSpec, Text};
use arc_panel::Panels;
use std::alloc::Global;

/// Makes a safety rule over controls of its own panel.
#[tactic(auto, unfolding(arc_plain::specs::SafetyRules::create_safety_rule))]
pub(crate) fn create_safety_rule(
    alloc: Global,
    parts: &mut Parts,
    spec: &RuleSpec,
) -> Result<Reply, Memory>
    requires { AreReady parts.old }
    ensures does { IfOk result (λ reply. Does (λ plain. create_safety_rule plain spec.now) parts.old reply parts.new) }
    ensures unchanged { OnErr result (parts.new ≡ parts.old) }
{
    if !parts.controls.panels.has(spec.panel) {
        return Ok(not_found(Named::Panel(spec.panel)));
    }
    if let Some(control) = first_outside(&parts.controls.panels, spec) {
        return Ok(not_found(Named::Control(control)));
    }
    match parts.controls.rules.add(alloc, spec) {
        Ok(rule) => Ok(Reply::Done(Body::Rule { rule })),
        Err(end) => refused(end),
    }
}

/// The first control that a rule names which isn't in its panel: of the asserted or gating controls, then of the targets.
#[tactic(auto, using(crate::proofs::Outside::outside_of), unfolding(arc_plain::specs::SafetyRules::first_outside))]
fn first_outside(panels: &Panels, spec: &RuleSpec) -> Option<ControlId>
    ensures { result ≡ first_outside panels.now spec.now }
{
    let own = outside(panels, spec.panel, spec.controls.as_slice());
    if own.is_some() {
        return own;
    }
    match &spec.targets {
        Some(targets) => outside(panels, spec.panel, targets.as_slice()),
        None => None,
    }
}

/// The first of these controls that isn't in the panel.
#[tactic(auto, unfolding(crate::specs::Outside::is_outside))]
fn outside(panels: &Panels, panel: PanelId, controls: &[ControlId]) -> Option<ControlId>
    ensures { result ≡ find (λ c. not (is_in_panel panels.now panel c)) controls.now }
{
    first_that_is_outside(panels, panel, controls).copied()
}

fn first_that_is_outside<'a>(
    panels: &Panels,
    panel: PanelId,
    controls: &'a [ControlId],
) -> Option<&'a ControlId>
    ensures { option_copied result ≡ find (is_outside panels.now panel) controls.now }
{
    controls.iter().find(|c| is_outside(panels, panel, **c))
}

/// Whether a control isn't in a panel.
#[tactic(auto, unfolding(crate::specs::Outside::is_outside))]
fn is_outside(panels: &Panels, panel: PanelId, control: ControlId) -> bool
    ensures { result ≡ is_outside panels.now panel control }
{
    match panels.panel_of(control) {
        Some(own) => own.0 != panel.0,
        None => true,
    }
}

/// Gives a safety rule another name and another wait.
#[tactic(auto, unfolding(arc_plain::specs::SafetyRules::update_safety_rule))]
pub(crate) fn update_safety_rule(
    alloc: Global,
    parts: &mut Parts,
    gating: bool,
    rule: RuleId,
    name: &Text,
    wait_ms: u32,
) -> Result<Reply, Memory>
    ensures does { IfOk result (λ reply.
        Does (λ plain. update_safety_rule plain gating rule name.now wait_ms) parts.old reply parts.new) }
    ensures unchanged { OnErr result (parts.new ≡ parts.old) }
{
    match parts
        .controls
        .rules
        .update(alloc, gating, rule, name, wait_ms)
    {
        Ok(()) => Ok(Reply::Done(Body::Empty)),
        Err(end) => refused(end),
    }
}

/// Removes a safety rule.
#[tactic(auto, unfolding(arc_plain::specs::SafetyRules::delete_safety_rule))]
pub(crate) fn delete_safety_rule(parts: &mut Parts, rule: RuleId) -> Result<Reply, Memory>
    ensures does { IfOk result (λ reply. Does (λ plain. delete_safety_rule plain rule) parts.old reply parts.new) }
    ensures unchanged { OnErr result (parts.new ≡ parts.old) }
{
    match parts.controls.rules.remove(rule) {
        Ok(()) => Ok(Reply::Done(Body::Empty)),
        Err(end) => refused(end),
    }
}
