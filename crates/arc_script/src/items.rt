//! Reading lists: items with commas between them.
ghost use Rattle.std.specs.Prelude.{◌≡◌, ◌≢◌, ℕ, List, Result, length, map, AllPairs, IfOk};
ghost use Rattle.arc_data.specs.Valid.{HasBetween};
ghost use Rattle.arc_script.specs.declared.step.ScriptCode.{ScriptCode};
ghost use Rattle.arc_script.specs.Lists.{control_of, rule_of, entry_of, each, list_of, is_doubled, has_double, once, number_of_control, number_of_entry};
ghost use Rattle.arc_script.specs.Reading.{Reads};

use crate::words::{cut, parts_of, read_long, read_state};
use crate::{LineEnd, ScriptCode};
use arc_data::{ControlId, Entry, List, RuleId};
use arc_json::Code;
use std::alloc::Global;

/// A value that is spelled as an item of a list.
pub(crate) trait Item: Copy + Drop {
    // What an item means.
    ghost meaning: { List ℕ → Result Self ScriptCode };

    /// Reads an item.
    fn read(item: &str) -> Result<Self, ScriptCode>
        ensures { result ≡ meaning item.now };
}

/// A value that has a number of its own.
pub(crate) trait Numbered: Copy + Drop {
    // The number.
    ghost number_of: { Self → ℕ };

    /// The number.
    fn number(&self) -> u64
        ensures { result ≡ number_of self.now };
}

impl Item for ControlId {
    ghost meaning = { control_of };

    #[tactic(auto, unfolding(crate::specs::Lists::control_of))]
    fn read(item: &str) -> Result<ControlId, ScriptCode> {
        Ok(ControlId(read_long(item)?))
    }
}

impl Item for RuleId {
    ghost meaning = { rule_of };

    #[tactic(auto, unfolding(crate::specs::Lists::rule_of))]
    fn read(item: &str) -> Result<RuleId, ScriptCode> {
        Ok(RuleId(read_long(item)?))
    }
}

impl Item for Entry {
    ghost meaning = { entry_of };

    #[tactic(auto, unfolding(crate::specs::Lists::entry_of))]
    fn read(item: &str) -> Result<Entry, ScriptCode> {
        let (control, state) = cut(item, '=');
        let control = ControlId::read(control)?;
        let on = read_state(state)?;
        Ok(Entry { control, on })
    }
}

impl Numbered for ControlId {
    ghost number_of = { number_of_control };

    fn number(&self) -> u64 {
        self.0
    }
}

impl Numbered for Entry {
    ghost number_of = { number_of_entry };

    fn number(&self) -> u64 {
        self.control.0
    }
}

/// The items of a list, in order.
fn read_items<T: Item>(alloc: Global, items: &[&str]) -> Result<List<T>, LineEnd>
    ensures exact { Reads result (each T.meaning (map (λ item. item.now) items.now)) }
    ensures all { IfOk result (λ list. length list ≡ length items.now) }
{
    let mut read = Vec::new(alloc);
    let mut rest = items;
    while let [item, others @ ..] = rest {
        let value = T::read(item)?;
        read.push(value)?;
        rest = others;
    }
    Ok(List::of(read))
}

/// At most so many items, with commas between them. They are counted before they are read.
#[tactic(auto, unfolding(crate::specs::Lists::list_of))]
pub(crate) fn read_list<T: Item>(alloc: Global, most: usize, list: &str) -> Result<List<T>, LineEnd>
    ensures exact { Reads result (list_of most T.meaning list.now) }
    ensures within { IfOk result (HasBetween 1 most) }
{
    let items = parts_of(alloc, list, ',')?;
    if items.len() > most {
        return Err(LineEnd::Bad(ScriptCode::Call(Code::TooManyEntries)));
    }
    read_items(alloc, items.as_slice())
}

/// Whether more than one item has this number.
#[tactic(auto, unfolding(crate::specs::Lists::is_doubled))]
fn is_doubled<T: Numbered>(items: &[T], number: u64) -> bool
    ensures { result ≡ is_doubled T.number_of items.now number }
{
    items.iter().filter(|item| item.number() == number).count() > 1
}

/// Whether some number stands twice.
fn has_double<T: Numbered>(items: &[T]) -> bool
    ensures { result ≡ has_double T.number_of items.now }
{
    items.iter().any(|item| is_doubled(items, item.number()))
}

/// The list, in which each number may stand once.
pub(crate) fn once<T: Numbered>(items: List<T>) -> Result<List<T>, ScriptCode>
    ensures exact { result ≡ once T.number_of items }
    ensures differ { IfOk result (AllPairs (λ a b. T.number_of a ≢ T.number_of b)) }
{
    if has_double(items.as_slice()) {
        return Err(ScriptCode::Call(Code::DoubledEntry));
    }
    Ok(items)
}
