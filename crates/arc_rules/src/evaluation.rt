//! The value of a rule.
ghost use Rattle.std.specs.Prelude.{◌≡◌, count_by};
ghost use Rattle.std.specs.List.{list_all, list_any};
ghost use Rattle.arc_data.specs.States.{is_on};
ghost use Rattle.arc_plain.specs.Rules.{after, is_met, value_of};

use arc_data::{ControlId, Entry, RuleConfig, RuleKind, States};

/// Whether a rule over these controls is true: all of them are On, or some, or as many as the threshold; negated where
/// it is inverted.
pub fn value(config: &RuleConfig, controls: &[ControlId], states: &States) -> bool
    ensures { result ≡ value_of config.now controls.now (is_on states.now) }
{
    value_after(config, controls, &[], states)
}

/// The same after all entries of a batch were set.
pub(crate) fn value_after(
    config: &RuleConfig,
    controls: &[ControlId],
    entries: &[Entry],
    before: &States,
) -> bool
    ensures { result ≡ value_of config.now controls.now (after entries.now (is_on before.now)) }
{
    let met = is_met(config, controls, entries, before);
    if config.inverted { !met } else { met }
}

fn is_met(config: &RuleConfig, controls: &[ControlId], entries: &[Entry], before: &States) -> bool
    ensures { result ≡ is_met config.now.kind config.now.threshold controls.now (after entries.now (is_on before.now)) }
{
    match config.kind {
        RuleKind::And => all_on(controls, entries, before),
        RuleKind::Or => some_on(controls, entries, before),
        RuleKind::AtLeast => {
            usize::from(config.threshold) <= count_on(controls, entries, before)
        }
    }
}

fn all_on(controls: &[ControlId], entries: &[Entry], before: &States) -> bool
    ensures { result ≡ list_all (after entries.now (is_on before.now)) controls.now }
{
    controls.iter().all(|c| is_on_after(entries, before, *c))
}

fn some_on(controls: &[ControlId], entries: &[Entry], before: &States) -> bool
    ensures { result ≡ list_any (after entries.now (is_on before.now)) controls.now }
{
    controls.iter().any(|c| is_on_after(entries, before, *c))
}

fn count_on(controls: &[ControlId], entries: &[Entry], before: &States) -> usize
    ensures { result ≡ count_by (after entries.now (is_on before.now)) controls.now }
{
    controls
        .iter()
        .filter(|c| is_on_after(entries, before, **c))
        .count()
}

/// Whether a control is On after all entries of a batch were set.
pub(crate) fn is_on_after(entries: &[Entry], before: &States, control: ControlId) -> bool
    ensures { result ≡ after entries.now (is_on before.now) control }
{
    match entries.iter().find(|e| e.control.0 == control.0) {
        Some(entry) => entry.on,
        None => before.is_on(control),
    }
}
