//! Operations on safety rules, read from their members.
ghost use Rattle.std.specs.Prelude.{◌≡◌, ◌≤◌, IfOk, codes, false, length, true, ⊤};
ghost use Rattle.serde_json.specs.View.{view};
ghost use Rattle.arc_data.specs.Valid.{AreControls, IsThreshold, IsValid};
ghost use Rattle.arc_members.specs.declared.code.Code.TheVariants.{BadRule, BadThreshold};
ghost use Rattle.arc_members.specs.Members.{required};
ghost use Rattle.arc_members.specs.Reading.{Gives, between, kept};
ghost use Rattle.arc_members.specs.Values.{control_in};
ghost use Rattle.arc_json.specs.Rules.{assertion_in, assertion_members, config_in, config_members, controls_in, create_safety_rule, delete_safety_rule, gate_in, gate_members, list_safety_rules, one_of, same_id, threshold_for, told, update_in, update_members, update_safety_rule};

use arc_data::{ControlId, List, Op, PanelId, RuleConfig, RuleId, RuleKind, RuleSpec};
use arc_members::{
    Apart, Code, Kind, Name, RequestEnd, Truth, Wait, Whole, defaulted, given, object_in, required,
    set_in,
};
use serde_json::Value;
use std::alloc::Global;

/// A control of a rule.
struct Member;

impl Kind for Member {
    type Read = ControlId;

    ghost reading = { control_in };

    ghost Holds = { λ _. ⊤ };

    fn read(alloc: Global, value: &Value) -> Result<ControlId, RequestEnd> {
        ControlId::read(alloc, value)
    }
}

impl Apart for Member {
    ghost same = { same_id };

    fn is_same(a: &ControlId, b: &ControlId) -> bool {
        a.0 == b.0
    }
}

/// The controls of a rule: from 1 to 32, each once.
struct Controls;

impl Kind for Controls {
    type Read = List<ControlId>;

    ghost reading = { controls_in };

    ghost Holds = { AreControls };

    #[tactic(auto, using(crate::proofs::Apart::controls_apart), unfolding(crate::specs::Rules::controls_in))]
    fn read(alloc: Global, value: &Value) -> Result<List<ControlId>, RequestEnd> {
        set_in::<Member>(alloc, value, 1, 32)
    }
}

/// A threshold for so many controls. It counts for `AtLeast` alone.
#[tactic(auto, unfolding(crate::specs::Rules::threshold_for))]
fn threshold_for(kind: RuleKind, controls: usize, threshold: u64) -> Result<u16, RequestEnd>
    requires { controls ≤ 32 }
    ensures gives { Gives result (threshold_for kind controls threshold) }
    ensures within { IfOk result (λ t. IsThreshold kind t controls) }
{
    match kind {
        RuleKind::And => Ok(0),
        RuleKind::Or => Ok(0),
        RuleKind::AtLeast => at_least(controls, threshold),
    }
}

/// A threshold from 1 to the number of controls.
fn at_least(controls: usize, threshold: u64) -> Result<u16, RequestEnd>
    requires { controls ≤ 32 }
    ensures gives { Gives result (kept (between 1 controls) BadThreshold threshold) }
    ensures within { IfOk result (λ t. (1 ≤ t) × (t ≤ controls)) }
{
    if threshold < 1 || threshold > controls as u64 {
        return Err(RequestEnd::BadRequest {
            code: Code::BadThreshold,
        });
    }
    Ok(threshold as u16)
}

/// How a rule with so many controls is evaluated.
#[tactic(auto, unfolding(crate::specs::Rules::config_members))]
fn config_members(alloc: Global, object: &Value, controls: usize) -> Result<RuleConfig, RequestEnd>
    requires { controls ≤ 32 }
    ensures gives { Gives result (config_members controls (view object.now)) }
    ensures within { IfOk result (λ c. IsThreshold c.kind c.threshold controls) }
{
    let kind = required::<RuleKind>(alloc, object, "Type")?;
    let given = defaulted::<Whole>(alloc, object, "Threshold", 0)?;
    let threshold = threshold_for(kind, controls, given)?;
    let inverted = defaulted::<Truth>(alloc, object, "Inverted", false)?;
    Ok(RuleConfig {
        kind,
        threshold,
        inverted,
    })
}

/// The member that tells how a rule with so many controls is evaluated.
#[tactic(auto, unfolding(arc_members::specs::Members::required, crate::specs::Rules::config_in))]
fn config_of(
    alloc: Global,
    object: &Value,
    controls: &List<ControlId>,
) -> Result<RuleConfig, RequestEnd>
    requires { length controls.now ≤ 32 }
    ensures gives { Gives result (required (config_in (length controls.now)) (codes "RuleConfig") (view object.now)) }
    ensures within { IfOk result (λ c. IsThreshold c.kind c.threshold (length controls.now)) }
{
    let controls = controls.as_slice().len();
    match given(object, "RuleConfig") {
        Some(value) => config_members(alloc, object_in(value)?, controls),
        None => Err(RequestEnd::BadRequest {
            code: Code::MissingMember,
        }),
    }
}

/// An assertion.
#[tactic(auto, unfolding(crate::specs::Rules::assertion_members))]
fn assertion_members(alloc: Global, object: &Value) -> Result<Op, RequestEnd>
    ensures gives { Gives result (assertion_members (view object.now)) }
    ensures valid { IfOk result IsValid }
{
    let name = required::<Name>(alloc, object, "Name")?;
    let panel = required::<PanelId>(alloc, object, "ControlPanelArn")?;
    let controls = required::<Controls>(alloc, object, "AssertedControls")?;
    let config = config_of(alloc, object, &controls)?;
    let wait_ms = required::<Wait>(alloc, object, "WaitPeriodMs")?;
    Ok(Op::CreateSafetyRule {
        spec: RuleSpec {
            name,
            panel,
            controls,
            targets: None,
            config,
            wait_ms,
        },
    })
}

/// A gate.
#[tactic(auto, unfolding(crate::specs::Rules::gate_members))]
fn gate_members(alloc: Global, object: &Value) -> Result<Op, RequestEnd>
    ensures gives { Gives result (gate_members (view object.now)) }
    ensures valid { IfOk result IsValid }
{
    let name = required::<Name>(alloc, object, "Name")?;
    let panel = required::<PanelId>(alloc, object, "ControlPanelArn")?;
    let controls = required::<Controls>(alloc, object, "GatingControls")?;
    let targets = required::<Controls>(alloc, object, "TargetControls")?;
    let config = config_of(alloc, object, &controls)?;
    let wait_ms = required::<Wait>(alloc, object, "WaitPeriodMs")?;
    Ok(Op::CreateSafetyRule {
        spec: RuleSpec {
            name,
            panel,
            controls,
            targets: Some(targets),
            config,
            wait_ms,
        },
    })
}

/// That not exactly one of the two kinds of rules is given.
fn no_rule() -> RequestEnd
    ensures { result ≡ RequestEnd.BadRequest BadRule }
{
    RequestEnd::BadRequest {
        code: Code::BadRule,
    }
}

/// An assertion, as an object.
fn assertion_in(alloc: Global, value: &Value) -> Result<Op, RequestEnd>
    ensures gives { Gives result (assertion_in (view value.now)) }
    ensures valid { IfOk result IsValid }
{
    assertion_members(alloc, object_in(value)?)
}

/// A gate, as an object.
fn gate_in(alloc: Global, value: &Value) -> Result<Op, RequestEnd>
    ensures gives { Gives result (gate_in (view value.now)) }
    ensures valid { IfOk result IsValid }
{
    gate_members(alloc, object_in(value)?)
}

/// The rule of the one kind that is given.
fn rule_of(alloc: Global, assertion: Option<&Value>, gate: Option<&Value>) -> Result<Op, RequestEnd>
    ensures gives { Gives result (one_of assertion_in gate_in
        (told assertion.entry) (told gate.entry)) }
    ensures valid { IfOk result IsValid }
{
    match assertion {
        Some(assertion) => match gate {
            Some(_) => Err(no_rule()),
            None => assertion_in(alloc, assertion),
        },
        None => match gate {
            Some(gate) => gate_in(alloc, gate),
            None => Err(no_rule()),
        },
    }
}

/// Makes a safety rule of one of the two kinds.
#[tactic(auto, unfolding(crate::specs::Rules::create_safety_rule))]
pub(crate) fn create_safety_rule(alloc: Global, object: &Value) -> Result<Op, RequestEnd>
    ensures gives { Gives result (create_safety_rule (view object.now)) }
    ensures valid { IfOk result IsValid }
{
    let assertion = given(object, "AssertionRule");
    let gate = given(object, "GatingRule");
    rule_of(alloc, assertion, gate)
}

/// Another name and another wait for a rule of a kind.
#[tactic(auto, unfolding(crate::specs::Rules::update_members))]
fn update_members(alloc: Global, gating: bool, object: &Value) -> Result<Op, RequestEnd>
    ensures gives { Gives result (update_members gating (view object.now)) }
    ensures valid { IfOk result IsValid }
{
    let rule = required::<RuleId>(alloc, object, "SafetyRuleArn")?;
    let name = required::<Name>(alloc, object, "Name")?;
    let wait_ms = required::<Wait>(alloc, object, "WaitPeriodMs")?;
    Ok(Op::UpdateSafetyRule {
        gating,
        rule,
        name,
        wait_ms,
    })
}

/// Another name and another wait for a rule of a kind, as an object.
fn update_in(alloc: Global, gating: bool, value: &Value) -> Result<Op, RequestEnd>
    ensures gives { Gives result (update_in gating (view value.now)) }
    ensures valid { IfOk result IsValid }
{
    update_members(alloc, gating, object_in(value)?)
}

/// The update of the one kind that is given.
fn update_of(
    alloc: Global,
    assertion: Option<&Value>,
    gate: Option<&Value>,
) -> Result<Op, RequestEnd>
    ensures gives { Gives result (one_of (update_in false) (update_in true)
        (told assertion.entry) (told gate.entry)) }
    ensures valid { IfOk result IsValid }
{
    match assertion {
        Some(assertion) => match gate {
            Some(_) => Err(no_rule()),
            None => update_in(alloc, false, assertion),
        },
        None => match gate {
            Some(gate) => update_in(alloc, true, gate),
            None => Err(no_rule()),
        },
    }
}

/// Gives a rule of one of the two kinds another name and another wait.
#[tactic(auto, unfolding(crate::specs::Rules::update_safety_rule))]
pub(crate) fn update_safety_rule(alloc: Global, object: &Value) -> Result<Op, RequestEnd>
    ensures gives { Gives result (update_safety_rule (view object.now)) }
    ensures valid { IfOk result IsValid }
{
    let assertion = given(object, "AssertionRuleUpdate");
    let gate = given(object, "GatingRuleUpdate");
    update_of(alloc, assertion, gate)
}

/// Removes a safety rule.
#[tactic(auto, unfolding(crate::specs::Rules::delete_safety_rule))]
pub(crate) fn delete_safety_rule(alloc: Global, object: &Value) -> Result<Op, RequestEnd>
    ensures gives { Gives result (delete_safety_rule (view object.now)) }
    ensures valid { IfOk result IsValid }
{
    let rule = required::<RuleId>(alloc, object, "SafetyRuleArn")?;
    Ok(Op::DeleteSafetyRule { rule })
}

/// Lists the safety rules of a panel.
#[tactic(auto, unfolding(crate::specs::Rules::list_safety_rules))]
pub(crate) fn list_safety_rules(alloc: Global, object: &Value) -> Result<Op, RequestEnd>
    ensures gives { Gives result (list_safety_rules (view object.now)) }
    ensures valid { IfOk result IsValid }
{
    let panel = required::<PanelId>(alloc, object, "ControlPanelArn")?;
    Ok(Op::ListSafetyRules { panel })
}
