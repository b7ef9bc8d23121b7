//! What the operations on practice runs do to the parts that are kept.
ghost use Rattle.std.specs.Prelude.{◌≡◌, ◌<◌, ◌≤◌, All, IfOk, IsNone, IsSome, OnErr, option_map};
ghost use Rattle.arc_plain.specs.Part.{Does as Adds};
ghost use Rattle.arc_plain.specs.Practice.{config_of, pending_of, run_of};
ghost use Rattle.arc_plain.specs.PracticeRuns.{cancel_practice_run, new_run_item, run_item, start_practice_run};
ghost use Rattle.arc_practice.specs.Kept.{HaveStarted};
ghost use Rattle.arc_state.specs.Room.{run_added, starts_free};
ghost use Rattle.arc_state.specs.Standing.{AreReady, Does};

use crate::ends::{not_found, refused};
use crate::items::run_item;
use crate::parts::Parts;
use crate::practice::is_configured;
use crate::room::{forget, to_forget};
use crate::shifts::has_zone;
use crate::shown::applied_of;
use arc_bytes::Memory;
use arc_data::{
    Body, MAX_MS, Named, Outcome, PartEnd, Refusal, Reply, ResourceId, ShiftId, ShiftItem, Status,
    Text, ZoneName,
};
use arc_practice::{Practices, RUN_MS};
use arc_shift::Shifts;
use std::alloc::Global;

/// Starts a practice run of a configured resource away from one of its zones, where no other shift is applied to it and
/// nothing blocks the run.
#[tactic(auto, unfolding(arc_plain::specs::PracticeRuns::start_practice_run))]
pub(crate) fn start_practice_run(
    alloc: Global,
    parts: &mut Parts,
    resource: ResourceId,
    away_from: ZoneName,
    comment: &Text,
) -> Result<Reply, Memory>
    requires { AreReady parts.old }
    ensures does { IfOk result (λ reply.
        Does (λ plain. start_practice_run plain resource away_from comment.now) parts.old reply parts.new) }
    ensures unchanged { OnErr result (parts.new ≡ parts.old) }
{
    let Some(zones) = parts.resources.zones_of(resource) else {
        return Ok(not_found(Named::Resource(resource)));
    };
    if !is_configured(&parts.practices, resource) {
        return Ok(Reply::Refused(Refusal::NotConfigured { resource }));
    }
    if !has_zone(zones, away_from) {
        return Ok(Reply::Refused(Refusal::WrongZone { zone: away_from }));
    }
    if let Some((by, _)) = applied_of(parts, resource) {
        return Ok(Reply::Refused(Refusal::Busy { by }));
    }
    start_free(alloc, parts, resource, away_from, comment)
}

/// Cancels a pending run, which interrupts it.
#[tactic(auto, unfolding(arc_plain::specs::PracticeRuns::cancel_practice_run))]
pub(crate) fn cancel_practice_run(
    alloc: Global,
    parts: &mut Parts,
    shift: ShiftId,
) -> Result<Reply, Memory>
    requires { AreReady parts.old }
    ensures does { IfOk result (λ reply. Does (λ plain. cancel_practice_run plain shift) parts.old reply parts.new) }
    ensures unchanged { OnErr result (parts.new ≡ parts.old) }
{
    let Some(mut item) = item_of(alloc, &parts.practices, shift, parts.time)? else {
        return Ok(not_found(Named::Shift(shift)));
    };
    match parts.practices.cancel(shift, parts.time) {
        Ok(()) => {
            item.status = Status::Canceled;
            item.outcome = Some(Outcome::Interrupted);
            Ok(Reply::Done(Body::Shift { item }))
        }
        Err(end) => refused(end),
    }
}

/// Starts a run that only a block can refuse. What has to be forgotten is forgotten.
fn start_free(
    alloc: Global,
    parts: &mut Parts,
    resource: ResourceId,
    away_from: ZoneName,
    comment: &Text,
) -> Result<Reply, Memory>
    requires ready { AreReady parts.old }
    requires configured { IsSome (config_of parts.old.practices resource) }
    requires none_pending { IsNone (pending_of parts.old.practices.runs resource parts.old.time) }
    ensures does { IfOk result (λ reply. Does (λ plain. starts_free plain resource away_from comment.now) parts.old reply parts.new) }
    ensures unchanged { OnErr result (parts.new ≡ parts.old) }
{
    let text = comment.copy(alloc)?;
    let id = ShiftId(parts.shifts_drawn + 1);
    let now = parts.time;
    let item = new_item(id, resource, away_from, text, now);
    match add_run(
        alloc,
        &mut parts.shifts,
        &mut parts.practices,
        id,
        resource,
        away_from,
        comment,
        now,
    ) {
        Ok(()) => {
            parts.shifts_drawn = id.0;
            Ok(Reply::Done(Body::Shift { item }))
        }
        Err(end) => refused(end),
    }
}

/// Starts a run of a resource. What has to be forgotten is forgotten.
fn add_run(
    alloc: Global,
    shifts: &mut Shifts,
    practices: &mut Practices,
    id: ShiftId,
    resource: ResourceId,
    away_from: ZoneName,
    comment: &Text,
    now: u64,
) -> Result<(), PartEnd>
    requires configured { IsSome (config_of practices.old resource) }
    requires none_pending { IsNone (pending_of practices.old.runs resource now) }
    requires new_id { All (λ r. r.id.0 < id.0) practices.old.runs }
    requires after_all { HaveStarted practices.old.runs now }
    ensures { Adds (run_added shifts.old practices.old id resource away_from comment.now now)
        result (shifts.old, practices.old) (shifts.new, practices.new) }
{
    let forgotten = to_forget(shifts.list(), practices.list(), now);
    match practices.start(alloc, id, resource, away_from, comment, now) {
        Ok(()) => {
            forget(shifts, practices, forgotten);
            Ok(())
        }
        Err(end) => Err(end),
    }
}

/// A run that begins now, as replies show it.
fn new_item(
    id: ShiftId,
    resource: ResourceId,
    away_from: ZoneName,
    comment: Text,
    now: u64,
) -> ShiftItem
    requires { now ≤ MAX_MS }
    ensures { result ≡ new_run_item id resource away_from comment now }
{
    ShiftItem {
        id,
        resource,
        away_from,
        comment,
        start: now,
        expiry: now + RUN_MS,
        status: Status::Active,
        outcome: Some(Outcome::Pending),
    }
}

/// The run with this identifier, as replies show it.
#[tactic(auto, using(crate::proofs::Renewed::of_found))]
fn item_of(
    alloc: Global,
    practices: &Practices,
    id: ShiftId,
    now: u64,
) -> Result<Option<ShiftItem>, Memory>
    requires after_all { HaveStarted practices.now.runs now }
    requires in_time { now ≤ MAX_MS }
    ensures { IfOk result (λ item. item ≡ option_map (λ r. run_item r now) (run_of practices.now id)) }
{
    match practices.list().iter().find(|r| r.id.0 == id.0) {
        Some(run) => Ok(Some(run_item(alloc, run, now)?)),
        None => Ok(None),
    }
}
