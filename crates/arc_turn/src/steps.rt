//! The steps on the table of a turn. A seat that has its turn has the slot, and nobody else reads or writes it.
ghost use Rattle.std.specs.Prelude.{◌≡◌, ℕ, ◌+◌, ◌^◌, ◌<◌, [], ◌∷◌, length, MatchBool, Some, None};
ghost use mathlib.Core.List.{IsPrefix};
ghost use Rattle.arc_turn.specs.declared.view.Stage.TheVariants.{Idle, Waits, Serves};
ghost use Rattle.arc_turn.specs.Steps.{IsSame, IsTurn, copy, joined, view_at, waiting};

use crate::historied::Historied;
use crate::plays::{Copied, Count, Draw, Joined, Look, Serve};
use crate::rule::{LENGTH, NEXT, Place, SERVING, SLOT, Top};
use crossbeam_utils::Backoff;
use std::sync::Wait;

/// Draws this ticket if it is the next one, and says whether it was.
pub(crate) fn try_draw<T: Historied>(top: &Top<T>, place: &mut Place<T>, ticket: u64) -> bool
    requires own { (place.old.table_id ≡ top.now.table_id) × (top.now.table_id.words ≡ 3) }
    requires idle { (place.old.me.0.stage ≡ Idle) × (ticket + 1 < 2 ^ 64) }
    ensures same { IsSame place.old place.new }
    ensures drew { MatchBool result (place.new.me ≡ (waiting place.old.me.0 ticket, place.old.me.1))
        (place.new.me ≡ place.old.me) }
{
    top.compare_exchange::<Draw>(place, NEXT, ticket, ticket + 1) == ticket
}

/// Draws the next ticket. When they are used up, it tries for ever.
pub(crate) fn draw<T: Historied, R: Wait>(rt: &R, top: &Top<T>, place: &mut Place<T>) -> u64
    requires own { (place.old.table_id ≡ top.now.table_id) × (top.now.table_id.words ≡ 3) }
    requires idle { place.old.me.0.stage ≡ Idle }
    ensures same { IsSame place.old place.new }
    ensures drew { place.new.me ≡ (waiting place.old.me.0 result, place.old.me.1) }
{
    for _ in rt.forever() {
        let ticket = top.peek(NEXT);
        if ticket < u64::MAX && try_draw(top, place, ticket) {
            return ticket;
        }
    }
    unreachable!()
}

/// Waits until the ticket is served. The slot is then out with the seat.
pub(crate) fn await_turn<T: Historied, R: Wait>(
    rt: &R,
    top: &Top<T>,
    place: &mut Place<T>,
    ticket: u64,
)
    requires own { (place.old.table_id ≡ top.now.table_id) × (top.now.table_id.words ≡ 3) }
    requires waits { place.old.me.0.stage ≡ Waits ticket }
    ensures same { IsSame place.old place.new }
    ensures turn { IsTurn T.history T.name ticket place.old.me place.new.me }
{
    let backoff = Backoff::new();
    for _ in rt.forever() {
        let serving = top.load::<Look>(place, SERVING);
        if serving == ticket {
            return;
        }
        if backoff.is_completed() {
            top.park(rt, SERVING, (serving % (1 << 32)) as u32);
        } else {
            backoff.snooze();
        }
    }
    unreachable!()
}

/// Takes the value out of the slot.
pub(crate) fn take_out<T: Historied>(top: &Top<T>, place: &mut Place<T>) -> T
    requires own { place.old.table_id ≡ top.now.table_id }
    requires slot { (x : T) × (place.old.me.1 ≡ (0, Some x) ∷ []) }
    ensures same { IsSame place.old place.new }
    ensures value { place.old.me.1 ≡ (0, Some result) ∷ [] }
    ensures slot { place.new.me ≡ (place.old.me.0, (0, None) ∷ []) }
{
    top.exchange(place, SLOT, None).unwrap()
}

/// Puts a value into the slot, which was left empty.
pub(crate) fn put_in<T: Historied>(top: &Top<T>, place: &mut Place<T>, value: T)
    requires own { place.old.table_id ≡ top.now.table_id }
    requires slot { place.old.me.1 ≡ (0, None) ∷ [] }
    ensures same { IsSame place.old place.new }
    ensures slot { place.new.me ≡ (place.old.me.0, (0, Some value) ∷ []) }
{
    let left = top.exchange(place, SLOT, Some(value));
    let None = left else { unreachable!() };
}

/// Counts the history of the value in the slot, which has so many entries.
pub(crate) fn count<T: Historied>(top: &Top<T>, place: &mut Place<T>, entries: u64)
    requires own { (place.old.table_id ≡ top.now.table_id) × (top.now.table_id.words ≡ 3) }
    requires turn { (t : ℕ) × (place.old.me.0.stage ≡ Serves t) }
    requires slot { (x : T) × (place.old.me.1 ≡ (0, Some x) ∷ []) × IsPrefix place.old.me.0.seen (T.history x)
        × (entries ≡ length (T.history x)) }
    ensures same { IsSame place.old place.new }
    ensures seen { (x : T) → place.old.me.1 ≡ (0, Some x) ∷ []
        → place.new.me ≡ (view_at place.old.me.0.stage (T.history x) place.old.me.0.name, place.old.me.1) }
{
    top.swap::<Count>(place, LENGTH, entries);
}

/// Serves the next ticket, and wakes those that wait, if any ticket is drawn. The slot is then at home.
pub(crate) fn serve<T: Historied>(top: &Top<T>, place: &mut Place<T>)
    requires own { (place.old.table_id ≡ top.now.table_id) × (top.now.table_id.words ≡ 3) }
    requires turn { (t : ℕ) × (place.old.me.0.stage ≡ Serves t) }
    requires slot { (x : T) × (place.old.me.1 ≡ (0, Some x) ∷ []) × (place.old.me.0.seen ≡ T.history x)
        × (T.name x ≡ place.old.me.0.name) }
    ensures same { IsSame place.old place.new }
    ensures idle { place.new.me ≡ (view_at Idle place.old.me.0.seen place.old.me.0.name, []) }
{
    let served = top.fetch_add::<Serve>(place, SERVING, 1);
    if top.peek(NEXT) != served.wrapping_add(1) {
        top.wake_all(SERVING);
    }
}

/// A new seat that has seen what this one has.
pub(crate) fn split<T: Historied>(top: &Top<T>, place: &mut Place<T>) -> Place<T>
    requires own { (place.old.table_id ≡ top.now.table_id) × (top.now.table_id.words ≡ 3) }
    requires idle { place.old.me.0.stage ≡ Idle }
    ensures same { IsSame place.old place.new × (place.new.me ≡ place.old.me) }
    ensures copy { (result.table_id ≡ place.old.table_id) × (result.me ≡ (copy place.old.me.0, [])) }
{
    top.split_seat::<Copied>(place)
}

/// Takes in what another seat has seen, and looks: both histories begin what is seen now, and the names are one.
pub(crate) fn learn<T: Historied>(top: &Top<T>, place: &mut Place<T>, other: Place<T>)
    requires own { (place.old.table_id ≡ top.now.table_id) × (top.now.table_id.words ≡ 3) }
    requires other { (other.table_id ≡ top.now.table_id) × (other.me.1 ≡ []) }
    requires idle { (place.old.me.0.stage ≡ Idle) × (other.me.0.stage ≡ Idle) }
    ensures same { IsSame place.old place.new }
    ensures joined { place.new.me ≡ (joined place.old.me.0 other.me.0, place.old.me.1) }
    ensures seen { IsPrefix place.old.me.0.seen place.new.me.0.seen × IsPrefix other.me.0.seen place.new.me.0.seen }
    ensures name { other.me.0.name ≡ place.old.me.0.name }
{
    top.join_seat::<Joined>(place, other);
    let _compared = top.load::<Look>(place, SERVING);
}
