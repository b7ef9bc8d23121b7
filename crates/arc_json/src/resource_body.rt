//! Resources, shifts and practice runs that replies show, as JSON.
ghost use Rattle.std.specs.Prelude.{◌≡◌, IfOk, None, Some};
ghost use Rattle.serde_json.specs.Data.{object, string};
ghost use Rattle.serde_json.specs.View.{members_view, view};
ghost use Rattle.arc_data.specs.declared.reply.Body.TheVariants as done;
ghost use Rattle.arc_json.specs.Done.{applied_value, body_value, resource_value, shift_value, shift_with, times_of, with_texts_of};

use crate::members::{
    Shown, five_texts, one_text, put_number, put_text, three_texts, two_texts, values,
};
use crate::words::{word_of_autoshift, word_of_kind, word_of_outcome, word_of_status};
use arc_bytes::Memory;
use arc_data::{Kind, Outcome, ResourceId, ResourceItem, ShiftItem, Text, ZoneName};
use serde_json::{Map, Value, put};
use std::alloc::{AllocError, Global};

/// A new resource.
pub(crate) fn resource_json(alloc: Global, resource: ResourceId) -> Result<Value, Memory>
    ensures { IfOk result (λ v. view v ≡ body_value (done.Resource resource)) }
{
    let resource = resource.text(alloc)?;
    one_text(
        alloc,
        Map::new(alloc),
        ("resourceIdentifier", resource.as_str()),
    )
}

/// What is kept of a resource.
pub(crate) fn detail_json(
    alloc: Global,
    applied: Option<(Kind, ZoneName)>,
    zones: &[ZoneName],
    name: &Text,
    resource: ResourceId,
    autoshift: bool,
) -> Result<Value, Memory>
    ensures { IfOk result (λ v.
        view v ≡ body_value (done.ResourceDetail applied zones.now name.now resource autoshift)) }
{
    let applied = applied_json(alloc, applied)?;
    let zones = values(alloc, zones)?;
    let resource = resource.text(alloc)?;
    let mut map = Map::new(alloc);
    put(&mut map, alloc, "appliedShift", applied)?;
    put(&mut map, alloc, "availabilityZones", Value::Array(zones))?;
    three_texts(
        alloc,
        map,
        ("name", name.as_str()),
        ("resourceIdentifier", resource.as_str()),
        ("zonalAutoshiftStatus", word_of_autoshift(autoshift)),
    )
}

fn applied_json(alloc: Global, applied: Option<(Kind, ZoneName)>) -> Result<Value, Memory>
    ensures { IfOk result (λ v. view v ≡ applied_value applied) }
{
    match applied {
        None => Ok(Value::Null),
        Some((kind, zone)) => two_texts(
            alloc,
            Map::new(alloc),
            ("awayFrom", zone.as_str()),
            ("kind", word_of_kind(kind)),
        ),
    }
}

impl Shown for ZoneName {
    ghost value = { string };

    fn json(&self, alloc: Global) -> Result<Value, Memory> {
        let text = String::from_str(alloc, self.as_str())?;
        Ok(Value::String(text))
    }
}

impl Shown for ResourceItem {
    ghost value = { resource_value };

    fn json(&self, alloc: Global) -> Result<Value, Memory> {
        let resource = self.resource.text(alloc)?;
        two_texts(
            alloc,
            Map::new(alloc),
            ("name", self.name.as_str()),
            ("resourceIdentifier", resource.as_str()),
        )
    }
}

impl Shown for ShiftItem {
    ghost value = { shift_value };

    fn json(&self, alloc: Global) -> Result<Value, Memory> {
        match self.outcome {
            Some(outcome) => run_json(alloc, self, outcome),
            None => customer_shift_json(alloc, self),
        }
    }
}

fn customer_shift_json(alloc: Global, item: &ShiftItem) -> Result<Value, Memory>
    ensures { IfOk result (λ v. view v ≡ shift_with item.now None) }
{
    let map = times(alloc, item.start, item.expiry)?;
    shift_json(alloc, item, map)
}

/// A practice run with its outcome.
fn run_json(alloc: Global, item: &ShiftItem, outcome: Outcome) -> Result<Value, Memory>
    ensures { IfOk result (λ v. view v ≡ shift_with item.now (Some outcome)) }
{
    let mut map = times(alloc, item.start, item.expiry)?;
    put_text(
        &mut map,
        alloc,
        "practiceRunOutcome",
        word_of_outcome(outcome),
    )?;
    shift_json(alloc, item, map)
}

/// The members of a shift that are times.
fn times(alloc: Global, start: u64, expiry: u64) -> Result<Map<String, Value>, Memory>
    ensures { IfOk result (λ map. members_view map.entries ≡ times_of start expiry) }
{
    let mut map = Map::new(alloc);
    put_number(&mut map, alloc, "expiryTime", expiry)?;
    put_number(&mut map, alloc, "startTime", start)?;
    Ok(map)
}

/// The object that these members make with those of a shift that are texts.
fn shift_json(alloc: Global, item: &ShiftItem, map: Map<String, Value>) -> Result<Value, Memory>
    ensures { IfOk result (λ v. view v ≡ object (with_texts_of item.now (members_view map.entries))) }
{
    let resource = item.resource.text(alloc)?;
    let shift = item.id.text(alloc)?;
    five_texts(
        alloc,
        map,
        ("awayFrom", item.away_from.as_str()),
        ("comment", item.comment.as_str()),
        ("resourceIdentifier", resource.as_str()),
        ("status", word_of_status(item.status)),
        ("zonalShiftId", shift.as_str()),
    )
}

/// Whether zones in autoshift move a resource's traffic away.
pub(crate) fn autoshift_json(
    alloc: Global,
    resource: ResourceId,
    enabled: bool,
) -> Result<Value, Memory>
    ensures { IfOk result (λ v. view v ≡ body_value (done.Autoshift resource enabled)) }
{
    let resource = resource.text(alloc)?;
    two_texts(
        alloc,
        Map::new(alloc),
        ("resourceIdentifier", resource.as_str()),
        ("zonalAutoshiftStatus", word_of_autoshift(enabled)),
    )
}
