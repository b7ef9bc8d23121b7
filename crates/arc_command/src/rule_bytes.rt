//! The bytes of operations on safety rules.
ghost use Rattle.std.specs.Prelude.{◌≡◌, ◌≤◌, ◌∷◌, [], Bool, ℕ, IfSome, OnOk, length};
ghost use Rattle.arc_command.specs.Reader.{list_at};
ghost use Rattle.arc_command.specs.Reading.{Gives, gating_at, rule_kind_at, rule_config_at, fits_threshold, targets_at, controls_at, rule_spec_at, update_safety_rule_at};
ghost use Rattle.arc_command.specs.Spelling.{gating_bytes, rule_kind_bytes, rule_config_bytes, targets_bytes, rule_parts_bytes, rule_spec_bytes};
ghost use Rattle.arc_command.specs.Spelling.{rule_bytes, text_bytes, long_bytes};
ghost use Rattle.arc_command.specs.Typed.{IsTypedSpec, IsTypedControl, IsTypedRule};
ghost use Rattle.arc_data.specs.Valid.{IsRule, IsName, AreControls};
ghost use Rattle.arc_bytes.specs.Adding.{Adds};
ghost use Rattle.std.specs.List.{AllByRecursion};
ghost use Rattle.std.specs.Str.{IsUtf8};
ghost use Rattle.std.specs.Prelude.{◌++◌, is_some};

use crate::field::{put_byte, put_list, put_text, read_byte, read_list, read_text, read_u16};
use crate::fields::{
    put_panel, put_rule, put_switch, read_panel, read_rule, read_switch, read_wait,
};
use crate::{CommandEnd, ControlId, List, Op, RuleConfig, RuleId, RuleKind, RuleSpec, Text};
use arc_bytes::{Memory, put_u16, put_u32};
use std::alloc::Global;

/// Puts the kind of a safety rule at the end: 1 for an assertion, 2 for a gate.
fn put_gating(out: &mut Vec<u8>, gating: bool) -> Result<(), Memory>
    ensures { Adds out.old out.new (gating_bytes gating) result }
{
    if gating {
        put_byte(out, 2)
    } else {
        put_byte(out, 1)
    }
}

/// The kind of a safety rule: 1 or 2.
#[tactic(auto, unfolding(crate::specs::Reading::gating_at))]
fn read_gating(bytes: &[u8], at: usize) -> Result<(bool, usize), CommandEnd>
    ensures { Gives result (gating_at bytes.now at) }
{
    let (b, after) = read_byte(bytes, at)?;
    if b < 1 || 2 < b {
        return Err(CommandEnd::BadCommand { place: at });
    }
    Ok((b == 2, after))
}

/// Puts at the end how a rule's value is made.
fn put_rule_kind(out: &mut Vec<u8>, kind: RuleKind) -> Result<(), Memory>
    ensures { Adds out.old out.new (rule_kind_bytes kind) result }
{
    match kind {
        RuleKind::And => put_byte(out, 1),
        RuleKind::Or => put_byte(out, 2),
        RuleKind::AtLeast => put_byte(out, 3),
    }
}

/// How a rule's value is made: 1 to 3.
#[tactic(auto, unfolding(crate::specs::Reading::rule_kind_at))]
fn read_rule_kind(bytes: &[u8], at: usize) -> Result<(RuleKind, usize), CommandEnd>
    ensures { Gives result (rule_kind_at bytes.now at) }
{
    let (b, after) = read_byte(bytes, at)?;
    match b {
        1 => Ok((RuleKind::And, after)),
        2 => Ok((RuleKind::Or, after)),
        3 => Ok((RuleKind::AtLeast, after)),
        _ => Err(CommandEnd::BadCommand { place: at }),
    }
}

/// Whether a threshold fits so many controls.
fn fits(kind: RuleKind, controls: usize, threshold: u16) -> bool
    ensures { result ≡ fits_threshold kind controls threshold }
{
    match kind {
        RuleKind::And => threshold == 0,
        RuleKind::Or => threshold == 0,
        RuleKind::AtLeast => 1 <= threshold && threshold as usize <= controls,
    }
}

/// Puts at the end how a rule is evaluated.
#[tactic(auto, unfolding(crate::specs::Spelling::rule_config_bytes))]
fn put_rule_config(out: &mut Vec<u8>, config: RuleConfig) -> Result<(), Memory>
    ensures { Adds out.old out.new (rule_config_bytes config) result }
{
    put_rule_kind(out, config.kind)?;
    put_u16(out, config.threshold)?;
    put_switch(out, config.inverted)
}

/// How a rule over so many controls is evaluated.
#[tactic(auto, unfolding(crate::specs::Reading::rule_config_at))]
fn read_rule_config(
    bytes: &[u8],
    at: usize,
    controls: usize,
) -> Result<(RuleConfig, usize), CommandEnd>
    ensures { Gives result (rule_config_at controls bytes.now at) }
{
    let (kind, threshold_at) = read_rule_kind(bytes, at)?;
    let (threshold, inverted_at) = read_u16(bytes, threshold_at)?;
    if !fits(kind, controls, threshold) {
        return Err(CommandEnd::BadCommand {
            place: threshold_at,
        });
    }
    let (inverted, after) = read_switch(bytes, inverted_at)?;
    let config = RuleConfig {
        kind,
        threshold,
        inverted,
    };
    Ok((config, after))
}

/// Puts the targets at the end, which only a gate has.
fn put_targets(out: &mut Vec<u8>, targets: &Option<List<ControlId>>) -> Result<(), Memory>
    requires { IfSome targets.now AreControls }
    ensures adds { Adds out.old out.new (targets_bytes targets.now) result }
    ensures typed { OnOk result (IfSome targets.now (AllByRecursion IsTypedControl)) }
{
    match targets {
        Some(targets) => put_list(out, targets),
        None => Ok(()),
    }
}

/// The targets, which only a gate has.
#[tactic(auto, unfolding(crate::specs::Reading::targets_at))]
fn read_targets(
    alloc: Global,
    bytes: &[u8],
    at: usize,
    gating: bool,
) -> Result<(Option<List<ControlId>>, usize), CommandEnd>
    ensures { Gives result (targets_at gating bytes.now at) }
{
    if !gating {
        return Ok((None, at));
    }
    let (targets, at) = read_list(alloc, bytes, at, 1, 32)?;
    Ok((Some(targets), at))
}

/// Puts at the end what a safety rule has behind its panel.
#[tactic(auto, unfolding(crate::specs::Spelling::rule_parts_bytes))]
fn put_rule_parts(out: &mut Vec<u8>, spec: &RuleSpec) -> Result<(), Memory>
    requires { IsRule spec.now }
    ensures adds { Adds out.old out.new (rule_parts_bytes spec.now) result }
    ensures controls { OnOk result (AllByRecursion IsTypedControl spec.now.controls) }
    ensures targets { OnOk result (IfSome spec.now.targets (AllByRecursion IsTypedControl)) }
{
    put_list(out, &spec.controls)?;
    put_targets(out, &spec.targets)?;
    put_rule_config(out, spec.config)?;
    put_u32(out, spec.wait_ms)
}

/// Puts a safety rule at the end.
#[tactic(auto, unfolding(crate::specs::Spelling::rule_spec_bytes))]
pub(crate) fn put_rule_spec(out: &mut Vec<u8>, spec: &RuleSpec) -> Result<(), Memory>
    requires { IsRule spec.now }
    ensures adds { Adds out.old out.new (rule_spec_bytes spec.now) result }
    ensures typed { OnOk result (IsTypedSpec spec.now) }
{
    put_gating(out, spec.targets.is_some())?;
    put_text(out, &spec.name)?;
    put_panel(out, spec.panel)?;
    put_rule_parts(out, spec)
}

/// A safety rule.
#[tactic(auto, unfolding(crate::specs::Reading::rule_spec_at))]
pub(crate) fn read_rule_spec(
    alloc: Global,
    bytes: &[u8],
    at: usize,
) -> Result<(RuleSpec, usize), CommandEnd>
    ensures { Gives result (rule_spec_at bytes.now at) }
{
    let (gating, at) = read_gating(bytes, at)?;
    let (name, at) = read_text(alloc, bytes, at, 1, 64)?;
    let (panel, at) = read_panel(bytes, at)?;
    let (controls, at) = read_list(alloc, bytes, at, 1, 32)?;
    let (targets, at) = read_targets(alloc, bytes, at, gating)?;
    let (config, at) = read_rule_config(bytes, at, controls.as_slice().len())?;
    let (wait_ms, at) = read_wait(bytes, at)?;
    let spec = RuleSpec {
        name,
        panel,
        controls,
        targets,
        config,
        wait_ms,
    };
    Ok((spec, at))
}

/// Puts the fields of a rule's update at the end.
pub(crate) fn put_update_safety_rule(
    out: &mut Vec<u8>,
    gating: bool,
    rule: RuleId,
    name: &Text,
    wait_ms: u32,
) -> Result<(), Memory>
    requires { IsName name.now }
    ensures adds { Adds out.old out.new
        (gating_bytes gating ++ rule_bytes rule ++ text_bytes name.now ++ long_bytes wait_ms) result }
    ensures typed { OnOk result (IsTypedRule rule × IsUtf8 name.now) }
{
    put_gating(out, gating)?;
    put_rule(out, rule)?;
    put_text(out, name)?;
    put_u32(out, wait_ms)
}

/// The fields of a rule's update.
#[tactic(auto, unfolding(crate::specs::Reading::update_safety_rule_at))]
pub(crate) fn read_update_safety_rule(
    alloc: Global,
    bytes: &[u8],
    at: usize,
) -> Result<(Op, usize), CommandEnd>
    ensures { Gives result (update_safety_rule_at bytes.now at) }
{
    let (gating, at) = read_gating(bytes, at)?;
    let (rule, at) = read_rule(bytes, at)?;
    let (name, at) = read_text(alloc, bytes, at, 1, 64)?;
    let (wait_ms, at) = read_wait(bytes, at)?;
    let op = Op::UpdateSafetyRule {
        gating,
        rule,
        name,
        wait_ms,
    };
    Ok((op, at))
}
