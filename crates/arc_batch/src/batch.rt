//! Batches.
ghost use Rattle.std.specs.Prelude.{◌≡◌, ◌≤◌, IfOk, None, OnErr, find, not, option_copied};
ghost use Rattle.arc_plain.specs.Batch.{commit_batch};
ghost use Rattle.arc_plain.specs.Panels.{has_control, with_states};
ghost use Rattle.arc_plain.specs.Rules.{PlainRules};
ghost use Rattle.arc_rules.specs.Standing.{StandsFor};
ghost use Rattle.arc_batch.specs.Commit.{Commits};
ghost use Rattle.arc_batch.specs.Known.{is_unknown};

use arc_bytes::Memory;
use arc_data::{Batch, Body, ControlId, Entry, List, MAX_MS, Named, Refusal, Reply};
use arc_panel::Panels;
use arc_rules::{Rules, changed_by};
use std::alloc::Global;

/// Panels, controls and safety rules.
#[derive(Drop)]
pub struct Controls {
    pub panels: Panels,
    pub rules: Rules,
}

/// Makes all changes of a batch at a list time, or none. The first unknown control refuses it, then its first unknown
/// override, then all rules that forbid it. After want of memory nothing has changed.
pub fn commit(
    alloc: Global,
    controls: &mut Controls,
    batch: &Batch,
    now: u64,
) -> Result<Reply, Memory>
    requires { now ≤ MAX_MS }
    ensures commits { (plain : PlainRules) → StandsFor controls.old.rules plain → IfOk result (λ reply.
        Commits (commit_batch (record { panels = controls.old.panels; rules = plain }) batch.now now)
        controls.old reply controls.new) }
    ensures unchanged { OnErr result (controls.new ≡ controls.old) }
{
    let entries = batch.entries.as_slice();
    if let Some(entry) = first_unknown(&controls.panels, entries) {
        return Ok(not_found(Named::Control(entry.control)));
    }
    if let Some(rule) = controls.rules.first_unknown(batch.overrides.as_slice()) {
        return Ok(not_found(Named::Rule(rule)));
    }
    let rules = controls
        .rules
        .forbidding(alloc, batch, controls.panels.states(), now)?;
    if !rules.is_empty() {
        let rules = List::of(rules);
        return Ok(Reply::Refused(Refusal::Forbidden { rules }));
    }
    let changed = changed_by(alloc, entries, controls.panels.states())?;
    set_all(&mut controls.panels, entries);
    controls.rules.note(changed.as_slice(), now);
    Ok(Reply::Done(Body::Empty))
}

fn is_there(panels: &Panels, control: ControlId) -> bool
    ensures { result ≡ has_control panels.now control }
{
    panels.states().has(control)
}

/// The first entry whose control isn't there.
fn first_unknown<'a>(panels: &Panels, entries: &'a [Entry]) -> Option<&'a Entry>
    ensures { option_copied result ≡ find (is_unknown panels.now) entries.now }
{
    entries.iter().find(|e| is_unknown(panels, **e))
}

#[tactic(auto, unfolding(crate::specs::Known::is_unknown))]
fn is_unknown(panels: &Panels, entry: Entry) -> bool
    ensures { result ≡ is_unknown panels.now entry }
{
    !is_there(panels, entry.control)
}

/// Sets the control of each entry, from the last to the first; where two entries name one control, the first decides.
fn set_all(panels: &mut Panels, entries: &[Entry])
    requires { find (λ e. not (has_control panels.old e.control)) entries.now ≡ None }
    ensures { panels.new ≡ with_states panels.old entries.now }
{
    for i in (0..entries.len()).rev() {
        let entry = entries[i];
        panels.set(entry.control, entry.on);
    }
}

fn not_found(id: Named) -> Reply
    ensures { result ≡ Reply.Refused (Refusal.NotFound id) }
{
    Reply::Refused(Refusal::NotFound { id })
}
