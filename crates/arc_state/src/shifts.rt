//! What the operations on managed resources and on the customer's shifts do to the parts that are kept.
ghost use Rattle.std.specs.Prelude.{◌≡◌, ◌<◌, ◌≤◌, All, IfOk, OnErr};
ghost use Rattle.std.specs.List.{list_any};
ghost use Rattle.std.specs.Str.{bytes_eq};
ghost use Rattle.arc_plain.specs.Part.{Does as Adds};
ghost use Rattle.arc_plain.specs.Shifts.{HaveStarted, new_shift};
ghost use Rattle.arc_plain.specs.ZonalShifts.{register_managed_resource, shift_item, start_zonal_shift};
ghost use Rattle.arc_practice.specs.Kept.{HaveStarted as RunsHaveStarted};
ghost use Rattle.arc_state.specs.Room.{shift_added};
ghost use Rattle.arc_state.specs.Standing.{AreReady, Does};

use crate::ends::{not_found, refused};
use crate::parts::Parts;
use crate::room::{forget, to_forget};
use arc_bytes::Memory;
use arc_data::{
    Body, List, MAX_MS, Named, PartEnd, Refusal, Reply, ResourceId, ShiftId, ShiftItem, Status,
    Text, ZoneName,
};
use arc_practice::Practices;
use arc_shift::Shifts;
use std::alloc::Global;

/// Registers a resource.
#[tactic(auto, unfolding(arc_plain::specs::ZonalShifts::register_managed_resource))]
pub(crate) fn register_managed_resource(
    alloc: Global,
    parts: &mut Parts,
    name: &Text,
    zones: &List<ZoneName>,
) -> Result<Reply, Memory>
    requires { AreReady parts.old }
    ensures does { IfOk result (λ reply.
        Does (λ plain. register_managed_resource plain name.now zones.now) parts.old reply parts.new) }
    ensures unchanged { OnErr result (parts.new ≡ parts.old) }
{
    match parts.resources.register(alloc, name, zones) {
        Ok(resource) => Ok(Reply::Done(Body::Resource { resource })),
        Err(end) => refused(end),
    }
}

/// Starts a shift of the customer away from a zone of a resource, where none of its shifts is active.
#[tactic(auto, using(crate::proofs::Started::start_row), unfolding(arc_plain::specs::ZonalShifts::start_zonal_shift, crate::specs::Room::shift_added))]
pub(crate) fn start_zonal_shift(
    alloc: Global,
    parts: &mut Parts,
    resource: ResourceId,
    away_from: ZoneName,
    minutes: u32,
    comment: &Text,
) -> Result<Reply, Memory>
    requires { AreReady parts.old }
    ensures does { IfOk result (λ reply.
        Does (λ plain. start_zonal_shift plain resource away_from minutes comment.now) parts.old reply parts.new) }
    ensures unchanged { OnErr result (parts.new ≡ parts.old) }
{
    let Some(zones) = parts.resources.zones_of(resource) else {
        return Ok(not_found(Named::Resource(resource)));
    };
    if !has_zone(zones, away_from) {
        return Ok(Reply::Refused(Refusal::WrongZone { zone: away_from }));
    }
    let text = comment.copy(alloc)?;
    let id = ShiftId(parts.shifts_drawn + 1);
    let now = parts.time;
    let item = new_item(id, resource, away_from, minutes, text, now);
    match add_shift(
        alloc,
        &mut parts.shifts,
        &mut parts.practices,
        id,
        resource,
        away_from,
        minutes,
        comment,
        now,
    ) {
        Ok(()) => {
            parts.shifts_drawn = id.0;
            Ok(Reply::Done(Body::Shift { item }))
        }
        Err(end) => refused(end),
    }
}

/// Starts a shift of a resource. What has to be forgotten is forgotten, and the resource's pending practice run is
/// interrupted.
#[tactic(auto, using(crate::proofs::Rooms::new_stays, crate::proofs::Rooms::is_there, crate::proofs::Rooms::still_started, crate::proofs::Rooms::room_is), unfolding(crate::specs::Room::shift_added, arc_plain::specs::Shifts::started))]
fn add_shift(
    alloc: Global,
    shifts: &mut Shifts,
    practices: &mut Practices,
    id: ShiftId,
    resource: ResourceId,
    away_from: ZoneName,
    minutes: u32,
    comment: &Text,
    now: u64,
) -> Result<(), PartEnd>
    requires new_id { All (λ s. s.id.0 < id.0) shifts.old }
    requires after_all { HaveStarted shifts.old now }
    requires after_runs { RunsHaveStarted practices.old.runs now }
    requires in_time { now ≤ MAX_MS }
    ensures { Adds (shift_added shifts.old practices.old (new_shift id resource away_from minutes comment.now now) now)
        result (shifts.old, practices.old) (shifts.new, practices.new) }
{
    let forgotten = to_forget(shifts.list(), practices.list(), now);
    match shifts.start(alloc, id, resource, away_from, minutes, comment, now) {
        Ok(()) => {
            forget(shifts, practices, forgotten);
            practices.interrupt(resource, now);
            Ok(())
        }
        Err(end) => Err(end),
    }
}

/// A shift that begins now, as replies show it.
fn new_item(
    id: ShiftId,
    resource: ResourceId,
    away_from: ZoneName,
    minutes: u32,
    comment: Text,
    now: u64,
) -> ShiftItem
    requires { now ≤ MAX_MS }
    ensures { result ≡ shift_item (new_shift id resource away_from minutes comment now) now }
{
    let expiry = now + u64::from(minutes) * 60_000;
    ShiftItem {
        id,
        resource,
        away_from,
        comment,
        start: now,
        expiry,
        status: if expiry <= now {
            Status::Expired
        } else {
            Status::Active
        },
        outcome: None,
    }
}

/// Whether a zone is one of these.
pub(crate) fn has_zone(zones: &[ZoneName], zone: ZoneName) -> bool
    ensures { result ≡ list_any (λ z. bytes_eq z zone) zones.now }
{
    zones.iter().any(|z| z.as_str() == zone.as_str())
}
