//! The rules that are kept.
ghost use Rattle.std.specs.Prelude.{◌≡◌, ◌-◌, ◌<◌, ◌≤◌, ◌==◌, ◌^◌, IfOk, OnErr, filter, find, get_or, not, set, vec_len};
ghost use Rattle.arc_data.specs.States.{is_on};
ghost use Rattle.arc_plain.specs.Rules.{PlainRules, add_rule, forbidding, fresh_rules, has_rule, remove_rule, rules_in, update_rule, user_of, with_changes};
ghost use Rattle.arc_rules.specs.Kept.{renamed_kept};
ghost use Rattle.arc_rules.specs.Standing.{Does, StandsFor, drawn_of};

use crate::kept::{Kept, note_all};
use crate::{forbid, table};
use arc_bytes::Memory;
use arc_data::{
    Batch, ControlId, Forbidden, List, MAX_MS, Named, PanelId, PartEnd, Refusal, RuleId, RuleItem,
    RuleSpec, States, Text,
};
use std::alloc::{AllocError, Global};
use std::marker::Model;

/// Safety rules, in order of creation.
#[derive(Drop)]
pub struct Rules {
    rules: Vec<Kept>,
    drawn: u64,
}

impl Model for Rules {
    ghost use Rattle.arc_rules.specs.Kept.{AreKept, KeptRules};

    ghost Value = { KeptRules };

    ghost view = { λ r. record { rules = r.rules.items; drawn = r.drawn } };

    ghost invariant = { λ r. AreKept r.rules.items };
}

impl Rules {
    /// No rule.
    pub fn fresh(alloc: Global) -> Result<Rules, Memory>
        ensures { IfOk result (λ rules. StandsFor rules fresh_rules) }
    {
        Ok(Rules {
            rules: Vec::new(alloc),
            drawn: 0,
        })
    }

    /// Makes a rule with the next identifier. `Limit` comes where 64 rules are kept, then `NameTaken` where another rule
    /// of its panel has its name. Whatever is refused changes nothing.
    pub fn add(&mut self, alloc: Global, spec: &RuleSpec) -> Result<RuleId, PartEnd>
        requires { drawn_of self.old < 2 ^ 64 - 1 }
        ensures does { Does (λ plain. add_rule plain spec.now) self.old result self.new }
        ensures unchanged { OnErr result (self.new ≡ self.old) }
    {
        if self.rules.len() >= MOST_RULES {
            return Err(PartEnd::Refused(Refusal::Limit {
                count: self.rules.len() as u32,
            }));
        }
        if let Some(holder) = table::holder_of(self.rules.as_slice(), spec.panel, &spec.name) {
            return Err(name_taken(holder));
        }
        let rule = RuleId(self.drawn + 1);
        let spec = spec.copy(alloc)?;
        self.rules.push(Kept {
            rule,
            spec,
            last: None,
        })?;
        self.drawn = rule.0;
        Ok(rule)
    }

    /// Gives a rule another name and another wait. `NotFound` comes where there is no rule of that kind, then `NameTaken`
    /// where another rule of its panel has the name. Whatever is refused changes nothing.
    pub fn update(
        &mut self,
        alloc: Global,
        gating: bool,
        rule: RuleId,
        name: &Text,
        wait_ms: u32,
    ) -> Result<(), PartEnd>
        ensures does { Does (λ plain. update_rule plain gating rule name.now wait_ms) self.old result self.new }
        ensures unchanged { OnErr result (self.new ≡ self.old) }
    {
        let Some(place) = table::place_of(self.rules.as_slice(), gating, rule) else {
            return Err(not_found(rule));
        };
        let panel = self.rules[place].spec.panel;
        if let Some(holder) = table::other_holder_of(self.rules.as_slice(), rule, panel, name) {
            return Err(name_taken(holder));
        }
        let name = name.copy(alloc)?;
        rename(&mut self.rules, place, name, wait_ms);
        Ok(())
    }

    /// Removes a rule: it forbids nothing any more. `NotFound` comes where there is none, and changes nothing.
    pub fn remove(&mut self, rule: RuleId) -> Result<(), PartEnd>
        ensures does { Does (λ plain. remove_rule plain rule) self.old result self.new }
        ensures unchanged { OnErr result (self.new ≡ self.old) }
    {
        if !table::has(self.rules.as_slice(), rule) {
            return Err(not_found(rule));
        }
        drop_rule(&mut self.rules, rule);
        Ok(())
    }

    /// The rules of a panel, in order of creation.
    pub fn in_panel(&self, alloc: Global, panel: PanelId) -> Result<List<RuleItem>, Memory>
        ensures { (plain : PlainRules) → StandsFor self.now plain →
            IfOk result (λ items. items ≡ rules_in plain panel) }
    {
        Ok(List::of(table::items_in(alloc, self.rules.as_slice(), panel)?))
    }

    /// Keeps `now` as the time of the last change of each rule that asserts or targets one of these controls.
    pub fn note(&mut self, changed: &[ControlId], now: u64)
        requires { now ≤ MAX_MS }
        ensures { (plain : PlainRules) → StandsFor self.old plain →
            StandsFor self.new (with_changes plain changed.now now) }
    {
        note_all(&mut self.rules, changed, now);
    }

    /// The rules that forbid a batch at a list time, with their causes, in order of creation.
    pub fn forbidding(
        &self,
        alloc: Global,
        batch: &Batch,
        before: &States,
        now: u64,
    ) -> Result<Vec<Forbidden>, Memory>
        ensures { (plain : PlainRules) → StandsFor self.now plain →
            IfOk result (λ found. found.items ≡ forbidding plain batch.now (is_on before.now) now) }
    {
        forbid::forbidding(alloc, self.rules.as_slice(), batch, before, now)
    }

    /// Whether there is a rule.
    pub fn has(&self, rule: RuleId) -> bool
        ensures { (plain : PlainRules) → StandsFor self.now plain → result ≡ has_rule plain rule }
    {
        table::has(self.rules.as_slice(), rule)
    }

    /// The first of these rules that isn't there.
    pub fn first_unknown(&self, rules: &[RuleId]) -> Option<RuleId>
        ensures { (plain : PlainRules) → StandsFor self.now plain →
            result ≡ find (λ r. not (has_rule plain r)) rules.now }
    {
        table::first_unknown(self.rules.as_slice(), rules).copied()
    }

    /// The first rule, in order of creation, that names a control.
    pub fn user_of(&self, control: ControlId) -> Option<RuleId>
        ensures { (plain : PlainRules) → StandsFor self.now plain → result ≡ user_of plain control }
    {
        table::user_of(self.rules.as_slice(), control)
    }
}

/// The most rules that are kept.
const MOST_RULES: usize = 64;

fn rename(rules: &mut Vec<Kept>, place: usize, name: Text, wait_ms: u32)
    requires { place < vec_len rules.old }
    ensures { (d : Kept) → rules.new.items ≡ set rules.old.items place (renamed_kept name wait_ms (get_or rules.old.items place d)) }
{
    let spec = &mut rules[place].spec;
    spec.name = name;
    spec.wait_ms = wait_ms;
}

fn drop_rule(rules: &mut Vec<Kept>, rule: RuleId)
    ensures others { rules.new.items ≡ filter (λ r. not (r.rule.0 == rule.0)) rules.old.items }
    ensures no_more { vec_len rules.new ≤ vec_len rules.old }
{
    rules.retain(|r| r.rule.0 != rule.0);
}

fn not_found(rule: RuleId) -> PartEnd
    ensures { result ≡ PartEnd.Refused (Refusal.NotFound (Named.Rule rule)) }
{
    PartEnd::Refused(Refusal::NotFound {
        id: Named::Rule(rule),
    })
}

fn name_taken(holder: RuleId) -> PartEnd
    ensures { result ≡ PartEnd.Refused (Refusal.NameTaken (Named.Rule holder)) }
{
    PartEnd::Refused(Refusal::NameTaken {
        id: Named::Rule(holder),
    })
}
