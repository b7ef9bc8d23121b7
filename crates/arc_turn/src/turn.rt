//! The turn.
ghost use Rattle.std.specs.Prelude.{◌≡◌, true, false, IfOk, IsOk};
ghost use mathlib.Core.List.{IsPrefix};
ghost use Rattle.arc_turn.specs.History.{longer};
ghost use Rattle.arc_turn.specs.Known.{IsFree, TookIt, taker};

use crate::held::Held;
use crate::historied::Historied;
use crate::pass::Pass;
use crate::rule::{Board, Place};
use crate::steps;
use arc_bytes::Memory;
use atomic_table::Table;
use std::alloc::Global;
use std::marker::{Model, PhantomData};
use std::snapshot::Snapshot;
use std::sync::Wait;

/// A ticket lock for a value whose history only grows. To a contract it is which turn it is.
#[derive(Drop)]
pub struct Turn<T: Historied> {
    board: Board<T>,
}

impl<T: Historied> Model for Turn<T> {
    ghost use Rattle.std.specs.Prelude.{◌≡◌};
    ghost use Rattle.atomic_table.specs.Seated.{TableId, table_id_coded};

    ghost Value = { TableId };

    ghost coded = { table_id_coded };

    ghost view = { λ t. t.board.shared.table_id };

    ghost invariant = { λ t. t.board.shared.table_id.words ≡ 3 };
}

impl<T: Historied> Turn<T> {
    /// A turn of this value, and its first pass, which has seen the history whole.
    pub fn new(alloc: Global, value: T) -> Result<(Turn<T>, Pass), Memory>
    where
        T: Drop,
        ensures turn { IfOk result (λ t. IsFree t.0 t.1) }
        ensures seen { IfOk result (λ t. (t.1.seen ≡ T.history value) × (t.1.name ≡ T.name value)) }
    {
        let words = [0, 0, value.length()];
        let first = Snapshot::of(&value);
        let mut slots = Vec::with_capacity(alloc, 1)?;
        slots.push(Some(value))?;
        match Table::new(alloc, &words, slots, &first) {
            Ok((board, place)) => Ok((Turn { board }, Pass::of(place.into_badge()))),
            Err(_) => Err(Memory),
        }
    }

    /// Waits for the turn. The pass then holds it, and the history of the value that it finds begins with all that the
    /// pass has seen.
    pub fn take<'a, R: Wait>(&'a self, rt: &R, pass: &mut Pass) -> Held<'a, T>
        requires { IsFree self.now pass.old }
        ensures holds { pass.new.holds ≡ true }
        ensures took { TookIt pass.old result }
        ensures found { (T.history result.value ≡ result.history) × (T.name result.value ≡ result.name) }
        ensures later { IsPrefix pass.old.seen result.history }
    {
        let top = &self.board.shared;
        let mut place: Place<T> = pass.lend().into_seat();
        let ticket = steps::draw(rt, top, &mut place);
        steps::await_turn(rt, top, &mut place, ticket);
        let value = steps::take_out(top, &mut place);
        Held {
            place,
            value,
            turn: PhantomData,
        }
    }

    /// Gives the turn to the next. The pass has then seen the whole history of the value.
    pub fn put<'a>(&'a self, held: Held<'a, T>, pass: &mut Pass)
        requires holds { (pass.old.holds ≡ true) × (held.turn ≡ self.now) }
        requires grown { IsPrefix held.history (T.history held.value) }
        requires named { T.name held.value ≡ held.name }
        ensures { pass.new ≡ taker held.entry (T.history held.entry.value) }
    {
        let top = &self.board.shared;
        let Held {
            mut place,
            value,
            turn: _,
        } = held;
        let entries = value.length();
        steps::put_in(top, &mut place, value);
        steps::count(top, &mut place, entries);
        steps::serve(top, &mut place);
        pass.regain(place.into_badge());
    }

    /// Another pass, which has seen what this one has. It takes no memory, and waits for nobody.
    pub fn split(&self, pass: &mut Pass) -> Result<Pass, Memory>
        requires { IsFree self.now pass.old }
        ensures pass { pass.new ≡ pass.old }
        ensures other { IfOk result (λ p. p ≡ record pass.old { number = p.number }) }
        ensures memory { IsOk result }
    {
        let mut place: Place<T> = pass.lend().into_seat();
        let other = steps::split(&self.board.shared, &mut place);
        pass.regain(place.into_badge());
        Ok(Pass::of(other.into_badge()))
    }

    /// Ends the other pass. This one has then seen what both had.
    pub fn join(&self, pass: &mut Pass, mut other: Pass)
        requires pass { IsFree self.now pass.old }
        requires other { IsFree self.now other }
        ensures pass { pass.new ≡ record pass.old { seen = longer pass.old.seen other.seen } }
        ensures seen { IsPrefix pass.old.seen pass.new.seen × IsPrefix other.seen pass.new.seen }
        ensures name { other.name ≡ pass.old.name }
    {
        let mut place: Place<T> = pass.lend().into_seat();
        steps::learn(&self.board.shared, &mut place, other.lend().into_seat());
        pass.regain(place.into_badge());
    }

    /// This pass has then seen what both had. The other stays as it is.
    pub fn meet(&self, pass: &mut Pass, other: &mut Pass) -> Result<(), Memory>
        requires pass { IsFree self.now pass.old }
        requires other { IsFree self.now other.old }
        ensures pass { pass.new ≡ record pass.old { seen = longer pass.old.seen other.old.seen } }
        ensures seen { IsPrefix pass.old.seen pass.new.seen × IsPrefix other.old.seen pass.new.seen }
        ensures name { other.old.name ≡ pass.old.name }
        ensures other { other.new ≡ other.old }
        ensures memory { IsOk result }
    {
        let copy = self.split(other)?;
        self.join(pass, copy);
        Ok(())
    }
}
