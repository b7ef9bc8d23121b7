//! The customer's shifts, which contracts see as their list.
ghost use Rattle.std.specs.Prelude.{◌≡◌, ◌≤◌, ◌<◌, ◌==◌, ⊤, [], true, All, IfOk, IfErr, IsSome, ◌&&◌, Err, Some, is_some, position, option_map, slice_index_or};
ghost use Rattle.std.specs.List.{list_any};
ghost use Rattle.arc_data.specs.declared.shift.Shift.{Shift as PlainShift};
ghost use Rattle.arc_plain.specs.Part.{Does};
ghost use Rattle.arc_plain.specs.Shifts.{AreAlone, AreInOrder, AreKeptShifts, HaveStarted, active_of, canceled, changed, is_active, minutes_ms, renewed, shift_of, started, status_at, updated, without_shift};

use crate::progress::{is_active, status};
use arc_bytes::Memory;
use arc_data::{
    Kind, MAX_MS, Named, PartEnd, Refusal, ResourceId, Shift, ShiftId, Status, Text, ZoneName,
};
use std::alloc::Global;
use std::marker::Model;

/// Milliseconds of a minute.
const MINUTE_MS: u64 = 60_000;

/// The shifts that the customer started, by ascending identifier.
#[derive(Drop)]
pub struct Shifts {
    shifts: Vec<Shift>,
}

impl Model for Shifts {
    ghost use Rattle.std.specs.Prelude.{List};
    ghost use Rattle.arc_data.specs.declared.shift.Shift.{Shift as PlainShift};
    ghost use Rattle.arc_plain.specs.Shifts.{AreKeptShifts};

    ghost Value = { List PlainShift };

    ghost view = { λ s. s.shifts.items };

    ghost invariant = { λ s. AreKeptShifts s.shifts.items };
}

impl Shifts {
    /// No shift.
    pub fn fresh(alloc: Global) -> Result<Shifts, Memory>
        ensures { IfOk result (λ shifts. shifts ≡ []) }
    {
        Ok(Shifts {
            shifts: Vec::new(alloc),
        })
    }

    /// Starts a shift of a resource away from a zone, for so many minutes from `now` on. It is refused as `Busy` where a
    /// shift of the resource is active.
    pub fn start(
        &mut self,
        alloc: Global,
        id: ShiftId,
        resource: ResourceId,
        away_from: ZoneName,
        minutes: u32,
        comment: &Text,
        now: u64,
    ) -> Result<(), PartEnd>
        requires new_id { All (λ s. s.id.0 < id.0) self.old }
        requires after_all { HaveStarted self.old now }
        requires in_time { now ≤ MAX_MS }
        ensures { Does (started self.old id resource away_from minutes comment.now now) result self.old self.new }
    {
        start(
            alloc,
            &mut self.shifts,
            id,
            resource,
            away_from,
            minutes,
            comment,
            now,
        )
    }

    /// Sets what is given of an active shift's comment and minutes; the minutes are counted from `now` on. It is refused
    /// as `NotFound` where no such shift is kept, and as `NotActive` where it isn't active.
    pub fn update(
        &mut self,
        alloc: Global,
        shift: ShiftId,
        comment: Option<&Text>,
        minutes: Option<u32>,
        now: u64,
    ) -> Result<(), PartEnd>
        requires after_all { HaveStarted self.old now }
        requires in_time { now ≤ MAX_MS }
        ensures { Does (updated self.old shift (option_map (λ c. c.now) comment.entry) minutes now) result self.old self.new }
    {
        update(alloc, &mut self.shifts, shift, comment, minutes, now)
    }

    /// Cancels an active shift. It is refused as `NotFound` where no such shift is kept, and as `NotActive` where it isn't
    /// active.
    pub fn cancel(&mut self, shift: ShiftId, now: u64) -> Result<(), PartEnd>
        requires after_all { HaveStarted self.old now }
        ensures { Does (canceled self.old shift now) result self.old self.new }
    {
        cancel(&mut self.shifts, shift, now)
    }

    /// Forgets a shift that is kept.
    #[tactic(auto, using(arc_plain::proofs::Shifts::kept_after_forget))]
    pub fn forget(&mut self, shift: ShiftId)
        requires { IsSome (shift_of self.old shift) }
        ensures { self.new ≡ without_shift self.old shift }
    {
        self.shifts.retain(|kept| kept.id.0 != shift.0);
    }

    /// The shifts that are kept. At most one of a resource is active at a moment that isn't before the start of any.
    #[tactic(auto, using(arc_plain::proofs::Shifts::alone))]
    pub fn list(&self) -> &[Shift]
        ensures all { result.now ≡ self.now }
        ensures in_order { AreInOrder self.now }
        ensures alone { AreAlone self.now }
    {
        self.shifts.as_slice()
    }
}

/// Starts a shift where none of the resource is active.
#[tactic(auto, using(arc_plain::proofs::Shifts::kept_after_start, crate::proofs::Searches::searches), unfolding(arc_plain::specs::Shifts::started))]
fn start(
    alloc: Global,
    shifts: &mut Vec<Shift>,
    id: ShiftId,
    resource: ResourceId,
    away_from: ZoneName,
    minutes: u32,
    comment: &Text,
    now: u64,
) -> Result<(), PartEnd>
    requires kept { AreKeptShifts shifts.old.items }
    requires new_id { All (λ s. s.id.0 < id.0) shifts.old.items }
    requires after_all { HaveStarted shifts.old.items now }
    requires in_time { now ≤ MAX_MS }
    ensures kept { AreKeptShifts shifts.new.items }
    ensures does { Does (started shifts.old.items id resource away_from minutes comment.now now) result shifts.old.items shifts.new.items }
{
    if has_active(shifts.as_slice(), resource, now) {
        return Err(PartEnd::Refused(Refusal::Busy { by: Kind::Customer }));
    }
    let comment = comment.copy(alloc)?;
    shifts.push(Shift {
        id,
        resource,
        away_from,
        comment,
        start: now,
        expiry: now + minutes_ms(minutes),
        canceled: None,
    })?;
    Ok(())
}

/// Whether a shift of the resource is active.
fn has_active(shifts: &[Shift], resource: ResourceId, now: u64) -> bool
    ensures { result ≡ list_any (λ s. (s.resource.0 == resource.0) && is_active (status_at s now)) shifts.now }
{
    shifts.iter().any(|s| is_active_of(s, resource, now))
}

/// Whether a shift is one of the resource and active.
fn is_active_of(shift: &Shift, resource: ResourceId, now: u64) -> bool
    ensures { result ≡ ((shift.now.resource.0 == resource.0) && is_active (status_at shift.now now)) }
{
    shift.resource.0 == resource.0 && is_active(shift, now)
}

/// Minutes in milliseconds.
fn minutes_ms(minutes: u32) -> u64
    ensures { result ≡ minutes_ms minutes }
{
    u64::from(minutes) * MINUTE_MS
}

/// Sets what is given of an active shift.
#[tactic(auto, unfolding(arc_plain::specs::Shifts::updated))]
fn update(
    alloc: Global,
    shifts: &mut Vec<Shift>,
    id: ShiftId,
    comment: Option<&Text>,
    minutes: Option<u32>,
    now: u64,
) -> Result<(), PartEnd>
    requires kept { AreKeptShifts shifts.old.items }
    requires after_all { HaveStarted shifts.old.items now }
    requires in_time { now ≤ MAX_MS }
    ensures kept { AreKeptShifts shifts.new.items }
    ensures does { Does (updated shifts.old.items id (option_map (λ c. c.now) comment.entry) minutes now) result shifts.old.items shifts.new.items }
{
    let place = match active_place(shifts.as_slice(), id, now) {
        Ok(place) => place,
        Err(end) => return Err(end),
    };
    let comment = copy_given(alloc, comment)?;
    renew(&mut shifts[place], comment, minutes, now);
    Ok(())
}

/// A copy of what is given.
fn copy_given(alloc: Global, text: Option<&Text>) -> Result<Option<Text>, Memory>
    ensures { IfOk result (λ copied. copied ≡ option_map (λ t. t.now) text.entry) }
{
    match text {
        Some(text) => Ok(Some(text.copy(alloc)?)),
        None => Ok(None),
    }
}

/// Sets what is given of a shift's comment and minutes.
fn renew(shift: &mut Shift, comment: Option<Text>, minutes: Option<u32>, now: u64)
    requires { now ≤ MAX_MS }
    ensures { shift.new ≡ renewed comment minutes now shift.old }
{
    if let Some(comment) = comment {
        shift.comment = comment;
    }
    if let Some(minutes) = minutes {
        shift.expiry = now + minutes_ms(minutes);
    }
}

/// Cancels an active shift.
#[tactic(auto, unfolding(arc_plain::specs::Shifts::canceled))]
fn cancel(shifts: &mut Vec<Shift>, id: ShiftId, now: u64) -> Result<(), PartEnd>
    requires kept { AreKeptShifts shifts.old.items }
    requires after_all { HaveStarted shifts.old.items now }
    ensures kept { AreKeptShifts shifts.new.items }
    ensures does { Does (canceled shifts.old.items id now) result shifts.old.items shifts.new.items }
{
    let place = match active_place(shifts.as_slice(), id, now) {
        Ok(place) => place,
        Err(end) => return Err(end),
    };
    shifts[place].canceled = Some(now);
    Ok(())
}

/// The place of a shift.
fn place_of(shifts: &[Shift], id: ShiftId) -> Option<usize>
    ensures { result ≡ position (λ s. s.id.0 == id.0) shifts.now }
{
    shifts.iter().position(|s| s.id.0 == id.0)
}

/// The place of an active shift. Where it isn't there or isn't active, this says why no change of it is made.
#[tactic(auto, using(arc_plain::proofs::Found::find_nowhere, arc_plain::proofs::Found::find_there))]
fn active_place(shifts: &[Shift], id: ShiftId, now: u64) -> Result<usize, PartEnd>
    ensures place { IfOk result (λ i. position (λ s. s.id.0 == id.0) shifts.now ≡ Some i) }
    ensures active { IfOk result (λ i. (d : PlainShift) → is_active (status_at (slice_index_or shifts.now i d) now) ≡ true) }
    ensures refused { IfErr result (λ end. (change : PlainShift → PlainShift) →
        Does {A = ⊤} (changed change shifts.now id now (shift_of shifts.now id)) (Err end) shifts.now shifts.now) }
{
    let Some(place) = place_of(shifts, id) else {
        return Err(PartEnd::Refused(Refusal::NotFound {
            id: Named::Shift(id),
        }));
    };
    match status(&shifts[place], now) {
        Status::Active => Ok(place),
        status => Err(PartEnd::Refused(Refusal::NotActive { status })),
    }
}
