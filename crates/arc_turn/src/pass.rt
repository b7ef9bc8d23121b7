//! What a thread carries of a turn.
ghost use Rattle.std.specs.Prelude.{◌≡◌, true, false};
ghost use Rattle.arc_turn.specs.Known.{IsSeated, known_of};

use crate::view::View;
use atomic_table::Badge;
use std::marker::Model;
use std::mem;

/// A pass of a turn. It has seen the history as far as some place, and takes the turn. It has no bytes.
#[derive(Drop)]
pub struct Pass {
    badge: Badge<View>,
}

impl Model for Pass {
    ghost use Rattle.arc_turn.specs.Known.{Known};

    ghost Value = { Known };

    ghost use Rattle.arc_turn.specs.Passes.{known, HasSeat};

    ghost view = { known };

    ghost invariant = { HasSeat };
}

impl Pass {
    /// A pass with this seat.
    pub(crate) fn of(badge: Badge<View>) -> Pass
        requires { IsSeated badge }
        ensures { result ≡ known_of badge }
    {
        Pass { badge }
    }

    /// Lends the seat. From now on the pass holds the turn, until the seat comes back.
    pub(crate) fn lend(&mut self) -> Badge<View>
        requires { self.old.holds ≡ false }
        ensures pass { self.new.holds ≡ true }
        ensures seat { IsSeated result × (known_of result ≡ self.old) }
    {
        mem::replace(&mut self.badge, Badge::blank())
    }

    /// Takes the seat back.
    pub(crate) fn regain(&mut self, badge: Badge<View>)
        requires { IsSeated badge }
        ensures { self.new ≡ known_of badge }
    {
        self.badge = badge;
    }
}
