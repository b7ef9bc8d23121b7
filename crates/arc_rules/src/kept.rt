//! A rule as it is kept.
ghost use Rattle.std.specs.Prelude.{◌≡◌, map};
ghost use Rattle.arc_plain.specs.Rules.{is_among, names_control, watched_by, is_gate};
ghost use Rattle.std.specs.List.{list_any};
ghost use Rattle.arc_rules.specs.Kept.{noted};

use arc_data::{ControlId, RuleId, RuleSpec};

/// A rule, what it is made of, and when a control that it watches was last changed since it was made.
#[derive(Drop)]
pub struct Kept {
    pub rule: RuleId,
    pub spec: RuleSpec,
    pub last: Option<u64>,
}

/// Whether a control is among these.
pub fn is_among(controls: &[ControlId], control: ControlId) -> bool
    ensures { result ≡ is_among controls.now control }
{
    controls.iter().any(|c| c.0 == control.0)
}

/// Whether the rule is a gate.
pub fn is_gate(spec: &RuleSpec) -> bool
    ensures { result ≡ is_gate spec.now }
{
    spec.targets.is_some()
}

/// The asserted controls of an assertion, the targets of a gate.
pub fn watched_by(spec: &RuleSpec) -> &[ControlId]
    ensures { result.now ≡ watched_by spec.now }
{
    match &spec.targets {
        Some(targets) => targets.as_slice(),
        None => spec.controls.as_slice(),
    }
}

/// Whether the rule watches one of these controls.
pub fn watches_any(spec: &RuleSpec, changed: &[ControlId]) -> bool
    ensures { result ≡ list_any (is_among (watched_by spec.now)) changed.now }
{
    let watched = watched_by(spec);
    changed.iter().any(|c| is_among(watched, *c))
}

/// Whether the rule names a control at all.
pub fn names_control(spec: &RuleSpec, control: ControlId) -> bool
    ensures { result ≡ names_control spec.now control }
{
    if is_among(spec.controls.as_slice(), control) {
        return true;
    }
    match &spec.targets {
        Some(targets) => is_among(targets.as_slice(), control),
        None => false,
    }
}

/// Keeps `now` as the last change of each rule that watches one of these controls.
pub fn note_all(rules: &mut Vec<Kept>, changed: &[ControlId], now: u64)
    ensures { rules.new.items ≡ map (noted changed.now now) rules.old.items }
{
    for rule in rules.iter_mut() {
        note(rule, changed, now);
    }
}

fn note(rule: &mut Kept, changed: &[ControlId], now: u64)
    ensures { rule.new ≡ noted changed.now now rule.old }
{
    if watches_any(&rule.spec, changed) {
        rule.last = Some(now);
    }
}
