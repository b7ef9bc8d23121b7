//! What each kind of step tells its caller.
use crate::historied::Historied;
use crate::view::View;
use atomic_table::{Join, Play, Split};

/// Draws a ticket.
pub(crate) struct Draw;

impl<T> Play<Option<T>, View> for Draw {
    ghost use Rattle.arc_turn.specs.Steps.{Drew};

    ghost then = { Drew };
}

/// Looks at the ticket whose turn it is.
pub(crate) struct Look;

impl<T: Historied> Play<Option<T>, View> for Look {
    ghost use Rattle.arc_turn.specs.Steps.{Looked};

    ghost then = { Looked T.history T.name };
}

/// Counts the history of the value in the slot.
pub(crate) struct Count;

impl<T: Historied> Play<Option<T>, View> for Count {
    ghost use Rattle.arc_turn.specs.Steps.{Counted};

    ghost then = { Counted T.history };
}

/// Serves the next ticket.
pub(crate) struct Serve;

impl<T> Play<Option<T>, View> for Serve {
    ghost use Rattle.arc_turn.specs.Steps.{Served};

    ghost then = { Served };
}

/// Copies what a seat has seen.
pub(crate) struct Copied;

impl Split<View> for Copied {
    ghost use Rattle.arc_turn.specs.Steps.{copy};

    ghost left = { λ v. v };

    ghost right = { copy };
}

/// Puts together what two seats have seen.
pub(crate) struct Joined;

impl Join<View> for Joined {
    ghost use Rattle.arc_turn.specs.Steps.{joined, spent};

    ghost both = { joined };

    ghost spent = { spent };
}
