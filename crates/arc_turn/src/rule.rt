//! The table under a turn.
use crate::historied::Historied;
use crate::view::View;
use atomic_table::{Seat, Shared, Table, TableRule};
use std::alloc::Global;
use std::snapshot::Snapshot;

/// The word that has the next ticket to draw.
pub(crate) const NEXT: usize = 0;

/// The word that has the ticket whose turn it is.
pub(crate) const SERVING: usize = 1;

/// The word that has the length of the history.
pub(crate) const LENGTH: usize = 2;

/// The slot that has the value.
pub(crate) const SLOT: usize = 0;

/// The rule of the turn: who has which ticket, where the value is, and that there is one history.
pub struct Ticketed;

impl<T: Historied> TableRule<Option<T>, View, Snapshot<T>> for Ticketed {
    ghost use Rattle.arc_turn.specs.Rule.{IsKept};
    ghost use Rattle.arc_turn.specs.Steps.{newcomer};

    ghost holds = { λ _. IsKept T.history T.name };

    ghost first = { λ key. newcomer (T.history key.value) (T.name key.value) };
}

pub(crate) type Board<T> = Table<Option<T>, View, Snapshot<T>, Ticketed, Global>;

pub(crate) type Top<T> = Shared<Option<T>, View, Snapshot<T>, Ticketed>;

pub(crate) type Place<T> = Seat<Option<T>, View>;
