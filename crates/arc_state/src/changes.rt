//! What the operations on a kept shift of the customer do to the parts that are kept.
ghost use Rattle.std.specs.Prelude.{◌≡◌, IfOk, OnErr, option_copied, option_map, unwrap_or};
ghost use Rattle.arc_plain.specs.Shifts.{shift_of};
ghost use Rattle.arc_plain.specs.ZonalShifts.{cancel_zonal_shift, update_zonal_shift};
ghost use Rattle.arc_state.specs.Standing.{AreReady, Does};
ghost use Rattle.arc_state.specs.Told.{told_of};

use crate::ends::{not_found, refused};
use crate::parts::Parts;
use arc_bytes::Memory;
use arc_data::{Body, Named, Reply, Shift, ShiftId, ShiftItem, Text};
use arc_shift::status;
use std::alloc::Global;

/// Sets what is given of an active shift of the customer.
#[tactic(auto, unfolding(arc_plain::specs::ZonalShifts::update_zonal_shift))]
pub(crate) fn update_zonal_shift(
    alloc: Global,
    parts: &mut Parts,
    shift: ShiftId,
    comment: &Option<Text>,
    minutes: Option<u32>,
) -> Result<Reply, Memory>
    requires { AreReady parts.old }
    ensures does { IfOk result (λ reply.
        Does (λ plain. update_zonal_shift plain shift comment.now minutes) parts.old reply parts.new) }
    ensures unchanged { OnErr result (parts.new ≡ parts.old) }
{
    let Some(text) = comment_after(alloc, parts.shifts.list(), shift, comment)? else {
        return Ok(not_found(Named::Shift(shift)));
    };
    match parts
        .shifts
        .update(alloc, shift, comment.as_ref(), minutes, parts.time)
    {
        Ok(()) => Ok(told(parts.shifts.list(), shift, text, parts.time)),
        Err(end) => refused(end),
    }
}

/// Cancels an active shift of the customer.
#[tactic(auto, unfolding(arc_plain::specs::ZonalShifts::cancel_zonal_shift))]
pub(crate) fn cancel_zonal_shift(
    alloc: Global,
    parts: &mut Parts,
    shift: ShiftId,
) -> Result<Reply, Memory>
    requires { AreReady parts.old }
    ensures does { IfOk result (λ reply. Does (λ plain. cancel_zonal_shift plain shift) parts.old reply parts.new) }
    ensures unchanged { OnErr result (parts.new ≡ parts.old) }
{
    let Some(text) = comment_after(alloc, parts.shifts.list(), shift, &None)? else {
        return Ok(not_found(Named::Shift(shift)));
    };
    match parts.shifts.cancel(shift, parts.time) {
        Ok(()) => Ok(told(parts.shifts.list(), shift, text, parts.time)),
        Err(end) => refused(end),
    }
}

/// A copy of the comment that a shift has after a change: what is given, or its own.
fn comment_after(
    alloc: Global,
    shifts: &[Shift],
    id: ShiftId,
    given: &Option<Text>,
) -> Result<Option<Text>, Memory>
    ensures { IfOk result (λ text. text ≡ option_map (λ s. unwrap_or given.now s.comment) (shift_of shifts.now id)) }
{
    let Some(found) = shift_with(shifts, id) else {
        return Ok(None);
    };
    match given {
        Some(text) => Ok(Some(text.copy(alloc)?)),
        None => Ok(Some(found.comment.copy(alloc)?)),
    }
}

/// A shift as replies show it, with this comment.
fn told(shifts: &[Shift], id: ShiftId, comment: Text, now: u64) -> Reply
    ensures { result ≡ told_of (shift_of shifts.now id) id comment now }
{
    match shift_with(shifts, id) {
        Some(shift) => Reply::Done(Body::Shift {
            item: ShiftItem {
                id: shift.id,
                resource: shift.resource,
                away_from: shift.away_from,
                comment,
                start: shift.start,
                expiry: shift.expiry,
                status: status(shift, now),
                outcome: None,
            },
        }),
        None => not_found(Named::Shift(id)),
    }
}

/// The shift with this identifier.
fn shift_with(shifts: &[Shift], id: ShiftId) -> Option<&Shift>
    ensures { option_copied result ≡ shift_of shifts.now id }
{
    shifts.iter().find(|s| s.id.0 == id.0)
}
