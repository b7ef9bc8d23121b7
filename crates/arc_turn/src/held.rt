//! A value while a pass holds the turn.
ghost use Rattle.std.specs.Prelude.{◌≡◌, []};
ghost use Rattle.std.specs.Borrow.{Lends, sem};
ghost use mir.Syntax.{named};
ghost use Rattle.arc_turn.specs.contracts.held.Held.{the_row};

use crate::historied::Historied;
use crate::rule::Place;
use std::marker::{Model, PhantomData};

/// The value of a turn, with the seat of the pass that took it. `Turn::put` spends it: it can't be dropped.
pub struct Held<'a, T: Historied> {
    pub(crate) place: Place<T>,
    pub(crate) value: T,
    pub(crate) turn: PhantomData<&'a T>,
}

impl<'a, T: Historied> Model for Held<'a, T> {
    ghost use Rattle.arc_turn.specs.Known.{Taken};

    ghost Value = { Taken T };

    ghost use Rattle.arc_turn.specs.Holding.{taken, HasSlot};

    ghost view = { taken };

    ghost invariant = { HasSlot };
}

impl<'a, T: Historied> Held<'a, T> {
    /// Lends the value.
    pub fn value(&mut self) -> &mut T
        ensures* writes_back { sem 𝓛 (Lends (the_row (record { mir = named 1; lft = [] }) T.row T.Historied) T.row
            self.entry result (λ w. record self.old { value = w })) }
        ensures value { result.now ≡ self.old.value }
    {
        &mut self.value
    }
}
