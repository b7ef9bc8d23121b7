//! Reading the lines of calls.
ghost use Rattle.std.specs.Prelude.{◌≡◌, map, IfOk};
ghost use Rattle.arc_data.specs.Valid.{IsValid, AreControls, HasBetween, IsRule};
ghost use Rattle.arc_data.specs.declared.op.Op.{Op};
ghost use Rattle.arc_script.specs.Grammar.{call, head_of, new_line, get_line, set_line, batch_line, assertion_of, assert_line, gate_over, gate_of, gate_behind, gate_line, call_of, call_line};
ghost use Rattle.arc_script.specs.Lists.{controls_of, entries_of, overrides_of};
ghost use Rattle.arc_script.specs.Reading.{Reads};
ghost use Rattle.arc_script.specs.Steps.{AreChanges, IsValidStep};

use crate::config::read_config;
use crate::items::{once, read_list};
use crate::step::Head;
use crate::words::{cut, has_empty, read_long, read_name, read_node, read_number, read_state};
use crate::{LineEnd, ScriptCode, Step};
use arc_data::{Batch, ControlId, Entry, List, MAX_MS, Op, PanelId, RuleId, RuleSpec, Text};
use arc_json::{RequestEnd, read_op};
use std::alloc::Global;

/// The panel of the lines that name none.
const FIRST_PANEL: PanelId = PanelId(1);

/// The most controls in one list of a rule.
const MOST_CONTROLS: usize = 32;

/// The most changes of a batch, and the most rules that it bypasses.
const MOST_ENTRIES: usize = 16;

/// The longest wait of a rule, a week in milliseconds.
const MOST_WAIT: u64 = 604_800_000;

impl Head {
    /// The call that asks for this.
    fn call(self, op: Op) -> Step
        ensures { result ≡ call self op }
    {
        Step::Call {
            node: self.node,
            at_ms: self.at_ms,
            token: self.token,
            op,
        }
    }
}

/// Endpoint, time and token.
#[tactic(auto, unfolding(crate::specs::Grammar::head_of))]
fn read_head(endpoint: &str, time: &str, token: &str) -> Result<Head, ScriptCode>
    ensures exact { result ≡ head_of endpoint.now time.now token.now }
    ensures within { IfOk result (λ head. (op : Op) → IsValid op → IsValidStep (call head op)) }
{
    let node = read_node(endpoint)?;
    let at_ms = read_number(MAX_MS, time)?;
    let token = read_long(token)?;
    Ok(Head { node, at_ms, token })
}

/// `new E T K name`
#[tactic(auto, unfolding(crate::specs::Grammar::new_line))]
pub fn read_new(alloc: Global, fields: &[&str]) -> Result<Step, LineEnd>
    ensures exact { Reads result (new_line (map (λ field. field.now) fields.now)) }
    ensures valid { IfOk result IsValidStep }
{
    let &[endpoint, time, token, name] = fields else {
        return Err(LineEnd::Bad(ScriptCode::Shape));
    };
    let head = read_head(endpoint, time, token)?;
    let name = Text::of(alloc, read_name(name)?)?;
    Ok(head.call(Op::CreateRoutingControl {
        name,
        panel: FIRST_PANEL,
    }))
}

/// `get E T K c`
#[tactic(auto, unfolding(crate::specs::Grammar::get_line))]
pub fn read_get(fields: &[&str]) -> Result<Step, LineEnd>
    ensures exact { Reads result (get_line (map (λ field. field.now) fields.now)) }
    ensures valid { IfOk result IsValidStep }
{
    let &[endpoint, time, token, control] = fields else {
        return Err(LineEnd::Bad(ScriptCode::Shape));
    };
    let head = read_head(endpoint, time, token)?;
    let control = ControlId(read_long(control)?);
    Ok(head.call(Op::GetRoutingControlState { control }))
}

/// `set E T K c On` or `Off`
#[tactic(auto, unfolding(crate::specs::Grammar::set_line))]
pub fn read_set(alloc: Global, fields: &[&str]) -> Result<Step, LineEnd>
    ensures exact { Reads result (set_line (map (λ field. field.now) fields.now)) }
    ensures valid { IfOk result IsValidStep }
{
    let &[endpoint, time, token, control, state] = fields else {
        return Err(LineEnd::Bad(ScriptCode::Shape));
    };
    let head = read_head(endpoint, time, token)?;
    let control = ControlId(read_long(control)?);
    let on = read_state(state)?;
    let entries = List::of(vec![in alloc; Entry { control, on }]?);
    let overrides = List::of(Vec::new(alloc));
    let batch = Batch { entries, overrides };
    Ok(head.call(Op::UpdateRoutingControlState { batch }))
}

/// The changes of a batch, each of another control.
#[tactic(auto, unfolding(crate::specs::Lists::entries_of))]
fn read_entries(alloc: Global, list: &str) -> Result<List<Entry>, LineEnd>
    ensures exact { Reads result (entries_of list.now) }
    ensures valid { IfOk result AreChanges }
{
    let entries = read_list(alloc, MOST_ENTRIES, list)?;
    Ok(once(entries)?)
}

/// The rules that a batch bypasses: `-` stands for none.
#[tactic(auto, unfolding(crate::specs::Lists::overrides_of))]
fn read_overrides(alloc: Global, list: &str) -> Result<List<RuleId>, LineEnd>
    ensures exact { Reads result (overrides_of list.now) }
    ensures within { IfOk result (HasBetween 0 16) }
{
    if list == "-" {
        return Ok(List::of(Vec::new(alloc)));
    }
    read_list(alloc, MOST_ENTRIES, list)
}

/// `batch E T K entries overrides`
#[tactic(auto, unfolding(crate::specs::Grammar::batch_line))]
pub fn read_batch(alloc: Global, fields: &[&str]) -> Result<Step, LineEnd>
    ensures exact { Reads result (batch_line (map (λ field. field.now) fields.now)) }
    ensures valid { IfOk result IsValidStep }
{
    let &[endpoint, time, token, entries, overrides] = fields else {
        return Err(LineEnd::Bad(ScriptCode::Shape));
    };
    let head = read_head(endpoint, time, token)?;
    let entries = read_entries(alloc, entries)?;
    let overrides = read_overrides(alloc, overrides)?;
    let batch = Batch { entries, overrides };
    Ok(head.call(Op::UpdateRoutingControlStates { batch }))
}

/// The controls of a rule, each once.
#[tactic(auto, unfolding(crate::specs::Lists::controls_of))]
fn read_controls(alloc: Global, list: &str) -> Result<List<ControlId>, LineEnd>
    ensures exact { Reads result (controls_of list.now) }
    ensures valid { IfOk result AreControls }
{
    let controls = read_list(alloc, MOST_CONTROLS, list)?;
    Ok(once(controls)?)
}

/// What both kinds of rules have, as an assertion.
#[tactic(auto, unfolding(crate::specs::Grammar::assertion_of))]
fn read_assertion(
    alloc: Global,
    name: &str,
    config: &str,
    wait: &str,
    controls: &str,
) -> Result<RuleSpec, LineEnd>
    ensures exact { Reads result (assertion_of name.now config.now wait.now controls.now) }
    ensures valid { IfOk result IsRule }
{
    let name = read_name(name)?;
    let wait_ms = read_number(MOST_WAIT, wait)? as u32;
    let controls = read_controls(alloc, controls)?;
    let config = read_config(controls.as_slice().len() as u16, config)?;
    Ok(RuleSpec {
        name: Text::of(alloc, name)?,
        panel: FIRST_PANEL,
        controls,
        targets: None,
        config,
        wait_ms,
    })
}

/// The gate of the same controls over these targets.
fn gate_over(assertion: RuleSpec, targets: List<ControlId>) -> RuleSpec
    ensures { result ≡ gate_over assertion targets }
{
    RuleSpec {
        name: assertion.name,
        panel: assertion.panel,
        controls: assertion.controls,
        targets: Some(targets),
        config: assertion.config,
        wait_ms: assertion.wait_ms,
    }
}

/// `assert E T K name config W controls`
#[tactic(auto, unfolding(crate::specs::Grammar::assert_line))]
pub fn read_assert(alloc: Global, fields: &[&str]) -> Result<Step, LineEnd>
    ensures exact { Reads result (assert_line (map (λ field. field.now) fields.now)) }
    ensures valid { IfOk result IsValidStep }
{
    let &[endpoint, time, token, name, config, wait, controls] = fields else {
        return Err(LineEnd::Bad(ScriptCode::Shape));
    };
    let head = read_head(endpoint, time, token)?;
    let spec = read_assertion(alloc, name, config, wait, controls)?;
    Ok(head.call(Op::CreateSafetyRule { spec }))
}

/// A gate: its targets are read behind its configuration.
#[tactic(auto, unfolding(crate::specs::Grammar::gate_of))]
fn read_gate_of(
    alloc: Global,
    name: &str,
    config: &str,
    wait: &str,
    gating: &str,
    targets: &str,
) -> Result<RuleSpec, LineEnd>
    ensures exact { Reads result (gate_of name.now config.now wait.now gating.now targets.now) }
    ensures valid { IfOk result IsRule }
{
    let assertion = read_assertion(alloc, name, config, wait, gating)?;
    let targets = read_controls(alloc, targets)?;
    Ok(gate_over(assertion, targets))
}

/// A gate behind endpoint, time and token.
#[tactic(auto, unfolding(crate::specs::Grammar::gate_behind))]
fn read_gate_behind(
    alloc: Global,
    endpoint: &str,
    time: &str,
    token: &str,
    fields: &[&str],
) -> Result<Step, LineEnd>
    ensures exact { Reads result
        (gate_behind endpoint.now time.now token.now (map (λ field. field.now) fields.now)) }
    ensures valid { IfOk result IsValidStep }
{
    let &[name, config, wait, gating, targets] = fields else {
        return Err(LineEnd::Bad(ScriptCode::Shape));
    };
    let head = read_head(endpoint, time, token)?;
    let spec = read_gate_of(alloc, name, config, wait, gating, targets)?;
    Ok(head.call(Op::CreateSafetyRule { spec }))
}

/// `gate E T K name config W gating targets`
#[tactic(auto, unfolding(crate::specs::Grammar::gate_line))]
pub fn read_gate(alloc: Global, fields: &[&str]) -> Result<Step, LineEnd>
    ensures exact { Reads result (gate_line (map (λ field. field.now) fields.now)) }
    ensures valid { IfOk result IsValidStep }
{
    let [endpoint, time, token, rule @ ..] = fields else {
        return Err(LineEnd::Bad(ScriptCode::Shape));
    };
    read_gate_behind(alloc, endpoint, time, token, rule)
}

/// The call of any operation.
#[tactic(auto, unfolding(crate::specs::Grammar::call_of))]
fn read_call_of(
    alloc: Global,
    endpoint: &str,
    time: &str,
    token: &str,
    operation: &str,
    body: &str,
) -> Result<Step, LineEnd>
    ensures exact { Reads result
        (call_of endpoint.now time.now token.now operation.now body.now) }
    ensures valid { IfOk result IsValidStep }
{
    if has_empty(&[endpoint, time, token, operation]) {
        return Err(LineEnd::Bad(ScriptCode::Shape));
    }
    let head = read_head(endpoint, time, token)?;
    match read_op(alloc, operation.as_bytes(), body.as_bytes()) {
        Ok(op) => Ok(head.call(op)),
        Err(RequestEnd::BadRequest { code }) => Err(LineEnd::Bad(ScriptCode::Call(code))),
        Err(RequestEnd::Memory) => Err(LineEnd::Memory),
    }
}

/// `call E T K Operation body`, behind the first word: the body is the rest of the line.
#[tactic(auto, unfolding(crate::specs::Grammar::call_line))]
pub fn read_call(alloc: Global, words: &str) -> Result<Step, LineEnd>
    ensures exact { Reads result (call_line words.now) }
    ensures valid { IfOk result IsValidStep }
{
    let (endpoint, rest) = cut(words, ' ');
    let (time, rest) = cut(rest, ' ');
    let (token, rest) = cut(rest, ' ');
    let (operation, body) = cut(rest, ' ');
    read_call_of(alloc, endpoint, time, token, operation, body)
}
