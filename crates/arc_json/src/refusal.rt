//! Why a command was refused, as JSON.
ghost use Rattle.std.specs.Prelude.{◌≡◌, IfOk, codes, string_bytes};
ghost use Rattle.serde_json.specs.Data.{member, no_members, object, put as with_member, string};
ghost use Rattle.serde_json.specs.View.{view};
ghost use Rattle.arc_json.specs.Refusal.{about, cause_value, forbidden_value, refusal_status, refusal_value};
ghost use Rattle.arc_json.specs.Words.{named_text};

use crate::members::{Shown, put_number, three_texts, two_texts, values};
use crate::words::{word_of_block, word_of_kind, word_of_status};
use arc_bytes::Memory;
use arc_data::{Cause, Forbidden, Named, Refusal};
use serde_json::{Map, Value, put};
use std::alloc::{AllocError, Global};

/// The type of a refusal for which something stands in the way.
const CONFLICT: &str = "ConflictException";

/// The type of a refusal for which something isn't there.
const MISSING: &str = "ResourceNotFoundException";

/// The type of a refusal for which something that was asked doesn't fit.
const INVALID: &str = "ValidationException";

/// The status of a refusal, in the numbers of HTTP.
pub fn http_status(refusal: &Refusal) -> u16
    ensures { result ≡ refusal_status refusal.now }
{
    match refusal {
        Refusal::TokenAhead { .. } => 409,
        Refusal::NotFound { .. } | Refusal::NotConfigured { .. } => 404,
        Refusal::Limit { .. } => 402,
        Refusal::WrongZone { .. } => 400,
        _ => 409,
    }
}

/// The JSON value of a refusal.
pub fn refusal_json(alloc: Global, refusal: &Refusal) -> Result<Value, Memory>
    ensures { IfOk result (λ v. view v ≡ refusal_value refusal.now) }
{
    match refusal {
        Refusal::TokenAhead { token, place } => token_ahead_json(alloc, *token, *place),
        Refusal::NotFound { id } => about_json(alloc, "NotFound", *id, MISSING),
        Refusal::Limit { count } => limit_json(alloc, *count),
        Refusal::NameTaken { id } => about_json(alloc, "NameTaken", *id, CONFLICT),
        Refusal::InUse { id } => about_json(alloc, "InUse", *id, CONFLICT),
        Refusal::Forbidden { rules } => forbidden_json(alloc, rules.as_slice()),
        Refusal::NotConfigured { resource } => {
            about_json(alloc, "NotConfigured", Named::Resource(*resource), MISSING)
        }
        Refusal::Configured { resource } => {
            about_json(alloc, "Configured", Named::Resource(*resource), CONFLICT)
        }
        Refusal::Enabled { resource } => {
            about_json(alloc, "Enabled", Named::Resource(*resource), CONFLICT)
        }
        Refusal::Started { zone } => about_json(alloc, "Started", Named::Zone(*zone), CONFLICT),
        Refusal::NotActive { status } => told_json(
            alloc,
            "NotActive",
            ("Status", word_of_status(*status)),
            CONFLICT,
        ),
        Refusal::Busy { by } => told_json(alloc, "Busy", ("By", word_of_kind(*by)), CONFLICT),
        Refusal::WrongZone { zone } => told_json(
            alloc,
            "WrongZone",
            ("AwayFrom", zone.as_str()),
            INVALID,
        ),
        Refusal::Blocked { cause } => told_json(
            alloc,
            "Blocked",
            ("Cause", word_of_block(*cause)),
            CONFLICT,
        ),
    }
}

/// A refusal that names one thing.
fn about_json(alloc: Global, reason: &str, id: Named, kind: &str) -> Result<Value, Memory>
    ensures { IfOk result (λ v. view v ≡ about reason.now (named_text id) kind.now) }
{
    let name = named(alloc, id)?;
    told_json(alloc, reason, ("Resource", name.as_str()), kind)
}

/// A refusal that tells one thing more, by its name.
fn told_json(alloc: Global, reason: &str, more: (&str, &str), kind: &str) -> Result<Value, Memory>
    ensures { IfOk result (λ v. view v ≡ object (with_member (codes "__type") (string kind.now)
        (with_member (codes "Reason") (string reason.now)
        (member more.entry.0.now (string more.entry.1.now) no_members)))) }
{
    three_texts(
        alloc,
        Map::new(alloc),
        more,
        ("Reason", reason),
        ("__type", kind),
    )
}

fn token_ahead_json(alloc: Global, token: u64, place: u64) -> Result<Value, Memory>
    ensures { IfOk result (λ v. view v ≡ refusal_value (Refusal.TokenAhead token place)) }
{
    let mut map = Map::new(alloc);
    put_number(&mut map, alloc, "Place", place)?;
    put_number(&mut map, alloc, "Token", token)?;
    two_texts(alloc, map, ("Reason", "TokenAhead"), ("__type", CONFLICT))
}

fn limit_json(alloc: Global, count: u32) -> Result<Value, Memory>
    ensures { IfOk result (λ v. view v ≡ refusal_value (Refusal.Limit count)) }
{
    let mut map = Map::new(alloc);
    put_number(&mut map, alloc, "Count", count as u64)?;
    two_texts(
        alloc,
        map,
        ("Reason", "Limit"),
        ("__type", "ServiceLimitExceededException"),
    )
}

fn forbidden_json(alloc: Global, rules: &[Forbidden]) -> Result<Value, Memory>
    ensures { IfOk result (λ v. view v ≡ refusal_value (Refusal.Forbidden rules.now)) }
{
    let rules = values(alloc, rules)?;
    let mut map = Map::new(alloc);
    put(&mut map, alloc, "Rules", Value::Array(rules))?;
    two_texts(alloc, map, ("Reason", "Forbidden"), ("__type", CONFLICT))
}

/// A rule that forbids a batch, with its cause.
impl Shown for Forbidden {
    ghost value = { forbidden_value };

    fn json(&self, alloc: Global) -> Result<Value, Memory> {
        let rule = self.rule.text(alloc)?;
        match self.cause {
            Cause::AssertFalse => cause_json(alloc, "AssertFalse", rule.as_str()),
            Cause::GateClosed => cause_json(alloc, "GateClosed", rule.as_str()),
            Cause::Waiting { until } => waiting_json(alloc, rule.as_str(), until),
        }
    }
}

fn cause_json(alloc: Global, cause: &str, rule: &str) -> Result<Value, Memory>
    ensures { IfOk result (λ v. view v ≡ object (
        member (codes "Cause") (string cause.now) (
        member (codes "SafetyRuleArn") (string rule.now) no_members))) }
{
    two_texts(
        alloc,
        Map::new(alloc),
        ("Cause", cause),
        ("SafetyRuleArn", rule),
    )
}

fn waiting_json(alloc: Global, rule: &str, until: u64) -> Result<Value, Memory>
    ensures { IfOk result (λ v. view v ≡ cause_value rule.now (Cause.Waiting until)) }
{
    let mut map = Map::new(alloc);
    put_number(&mut map, alloc, "Until", until)?;
    two_texts(alloc, map, ("Cause", "Waiting"), ("SafetyRuleArn", rule))
}

/// The text of the identifier that is named, or the name of the zone.
fn named(alloc: Global, id: Named) -> Result<String, Memory>
    ensures { IfOk result (λ text. string_bytes text ≡ named_text id) }
{
    match id {
        Named::Panel(panel) => panel.text(alloc),
        Named::Control(control) => control.text(alloc),
        Named::Rule(rule) => rule.text(alloc),
        Named::Resource(resource) => resource.text(alloc),
        Named::Shift(shift) => shift.text(alloc),
        Named::Zone(zone) => Ok(String::from_str(alloc, zone.as_str())?),
    }
}
