//! Which rules forbid a batch.
ghost use Rattle.std.specs.Prelude.{◌≡◌, ◌+◌, ◌<◌, ◌≤◌, ◌^◌, IfOk, IfSome, All};
ghost use Rattle.std.specs.List.{filter_map, list_any};
ghost use Rattle.arc_data.specs.States.{is_on};
ghost use Rattle.arc_plain.specs.Rules.{after, cause_of, changed_by, forbids, overrides, value_cause, wait_cause};
ghost use Rattle.arc_rules.specs.Kept.{AreTimely, IsTimely, forbids_kept};

use crate::evaluation::{is_on_after, value, value_after};
use crate::kept::{Kept, is_gate, watches_any};
use arc_bytes::Memory;
use arc_data::{Batch, Cause, ControlId, Entry, Forbidden, MAX_MS, RuleId, RuleSpec, States};
use std::alloc::{AllocError, Global};

/// The rules that forbid a batch at a list time, with their causes, in order.
pub(crate) fn forbidding(
    alloc: Global,
    rules: &[Kept],
    batch: &Batch,
    before: &States,
    now: u64,
) -> Result<Vec<Forbidden>, Memory>
    requires { AreTimely rules.now }
    ensures { IfOk result (λ found. found.items ≡ filter_map (forbids_kept batch.now (is_on before.now) now) rules.now) }
{
    let changed = changed_by(alloc, batch.entries.as_slice(), before)?;
    let mut found = Vec::new(alloc);
    for rule in rules {
        if let Some(forbidden) = forbids(rule, batch, changed.as_slice(), before, now) {
            found.push(forbidden)?;
        }
    }
    Ok(found)
}

/// The controls of a batch whose new state differs from their present one.
pub fn changed_by(
    alloc: Global,
    entries: &[Entry],
    before: &States,
) -> Result<Vec<ControlId>, Memory>
    ensures { IfOk result (λ changed. changed.items ≡ changed_by entries.now (is_on before.now)) }
{
    Ok(
        entries
            .iter()
            .map(|e| e.control)
            .filter(|c| is_on_after(entries, before, *c) != before.is_on(*c))
            .collect(alloc)?,
    )
}

/// Whether a rule forbids a batch that changes these controls, and why.
fn forbids(
    rule: &Kept,
    batch: &Batch,
    changed: &[ControlId],
    before: &States,
    now: u64,
) -> Option<Forbidden>
    requires timely { IsTimely rule.now }
    requires changed { changed.now ≡ changed_by batch.now.entries (is_on before.now) }
    ensures { result ≡ forbids_kept batch.now (is_on before.now) now rule.now }
{
    if overrides(batch, rule.rule) {
        return None;
    }
    if !watches_any(&rule.spec, changed) {
        return None;
    }
    match cause_of(&rule.spec, rule.last, batch, before, now) {
        Some(cause) => Some(Forbidden {
            rule: rule.rule,
            cause,
        }),
        None => None,
    }
}

fn overrides(batch: &Batch, rule: RuleId) -> bool
    ensures { result ≡ overrides batch.now rule }
{
    batch.overrides.as_slice().iter().any(|r| r.0 == rule.0)
}

/// Why a rule that watches a batch forbids it: by its value, or else by its wait.
fn cause_of(
    spec: &RuleSpec,
    last: Option<u64>,
    batch: &Batch,
    before: &States,
    now: u64,
) -> Option<Cause>
    requires { IfSome last (λ time. time ≤ MAX_MS) }
    ensures { result ≡ cause_of spec.now last batch.now (is_on before.now) now }
{
    if let Some(cause) = value_cause(spec, batch.entries.as_slice(), before) {
        return Some(cause);
    }
    wait_cause(spec.wait_ms, now, last)
}

/// An assertion has to be true after the batch, a gate before it.
fn value_cause(spec: &RuleSpec, entries: &[Entry], before: &States) -> Option<Cause>
    ensures { result ≡ value_cause spec.now (is_on before.now) (after entries.now (is_on before.now)) }
{
    let controls = spec.controls.as_slice();
    if is_gate(spec) {
        if value(&spec.config, controls, before) {
            None
        } else {
            Some(Cause::GateClosed)
        }
    } else if value_after(&spec.config, controls, entries, before) {
        None
    } else {
        Some(Cause::AssertFalse)
    }
}

/// Further changes wait for some time after the last one.
fn wait_cause(wait_ms: u32, now: u64, last: Option<u64>) -> Option<Cause>
    requires { IfSome last (λ time. time ≤ MAX_MS) }
    ensures { result ≡ wait_cause wait_ms now last }
{
    let Some(last) = last else {
        return None;
    };
    let until = last + u64::from(wait_ms);
    if now < until {
        Some(Cause::Waiting { until })
    } else {
        None
    }
}
