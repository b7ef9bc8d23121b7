//! Looking rules up, by what they are made of.
ghost use Rattle.std.specs.Prelude.{◌≡◌, ◌==◌, ◌&&◌, IfOk, filter, find, map, not, position};
ghost use Rattle.std.specs.Bool.{beq};
ghost use Rattle.std.specs.List.{list_any};
ghost use Rattle.std.specs.Option.{option_copied, option_map};
ghost use Rattle.arc_rules.specs.Kept.{is_unknown};
ghost use Rattle.arc_plain.specs.Rules.{holds_name, is_gate, item_of, names_control};

use crate::kept::{Kept, is_gate, names_control};
use arc_bytes::Memory;
use arc_data::{ControlId, PanelId, RuleId, RuleItem, Text};
use std::alloc::{AllocError, Global};

/// Whether there is a rule.
pub(crate) fn has(rules: &[Kept], rule: RuleId) -> bool
    ensures { result ≡ list_any (λ r. r.rule.0 == rule.0) rules.now }
{
    rules.iter().any(|r| r.rule.0 == rule.0)
}

/// The first of these rules that isn't there.
pub(crate) fn first_unknown<'a>(kept: &[Kept], rules: &'a [RuleId]) -> Option<&'a RuleId>
    ensures { option_copied result ≡ find (is_unknown kept.now) rules.now }
{
    rules.iter().find(|r| is_unknown(kept, **r))
}

#[tactic(auto, unfolding(crate::specs::Kept::is_unknown))]
fn is_unknown(kept: &[Kept], rule: RuleId) -> bool
    ensures { result ≡ is_unknown kept.now rule }
{
    !has(kept, rule)
}

/// The place of the rule of this kind.
pub(crate) fn place_of(rules: &[Kept], gating: bool, rule: RuleId) -> Option<usize>
    ensures { result ≡ position (λ r. (r.rule.0 == rule.0) && beq (is_gate r.spec) gating) rules.now }
{
    rules
        .iter()
        .position(|r| r.rule.0 == rule.0 && is_gate(&r.spec) == gating)
}

/// The rule of this panel that has this name.
pub(crate) fn holder_of(rules: &[Kept], panel: PanelId, name: &Text) -> Option<RuleId>
    ensures { result ≡ option_map (λ r. r.rule) (find (λ r. holds_name panel name.now r.spec) rules.now) }
{
    rules
        .iter()
        .find(|r| r.spec.panel.0 == panel.0 && r.spec.name.as_str() == name.as_str())
        .map(|r| r.rule)
}

/// Another rule of this panel that has this name.
pub(crate) fn other_holder_of(
    rules: &[Kept],
    rule: RuleId,
    panel: PanelId,
    name: &Text,
) -> Option<RuleId>
    ensures { result ≡ option_map (λ r. r.rule)
        (find (λ r. not (r.rule.0 == rule.0) && holds_name panel name.now r.spec) rules.now) }
{
    rules
        .iter()
        .find(|r| {
            r.rule.0 != rule.0
                && (r.spec.panel.0 == panel.0 && r.spec.name.as_str() == name.as_str())
        })
        .map(|r| r.rule)
}

/// The first rule that names a control.
pub(crate) fn user_of(rules: &[Kept], control: ControlId) -> Option<RuleId>
    ensures { result ≡ option_map (λ r. r.rule) (find (λ r. names_control r.spec control) rules.now) }
{
    rules
        .iter()
        .find(|r| names_control(&r.spec, control))
        .map(|r| r.rule)
}

/// The rules of a panel, as replies show them.
pub(crate) fn items_in(
    alloc: Global,
    rules: &[Kept],
    panel: PanelId,
) -> Result<Vec<RuleItem>, Memory>
    ensures { IfOk result (λ items. items.items ≡
        map (λ r. item_of r.rule r.spec) (filter (λ r. r.spec.panel.0 == panel.0) rules.now)) }
{
    let mut items = Vec::new(alloc);
    for rule in rules {
        if rule.spec.panel.0 == panel.0 {
            items.push(item_of(alloc, rule)?)?;
        }
    }
    Ok(items)
}

fn item_of(alloc: Global, rule: &Kept) -> Result<RuleItem, Memory>
    ensures { IfOk result (λ item. item ≡ item_of rule.now.rule rule.now.spec) }
{
    Ok(RuleItem {
        name: rule.spec.name.copy(alloc)?,
        rule: rule.rule,
        gating: is_gate(&rule.spec),
        wait_ms: rule.spec.wait_ms,
    })
}
