//! The turn: a ticket lock for a value whose history only grows. What a thread saw of the value, it knows for ever:
//! whatever it finds later begins with that.
//!
//! It stands on `atomic_table` and `crossbeam_utils`, and on nothing of ours but `Memory`. No server stands on it yet.
//!
//! A thread carries a [`Pass`]. `take` draws a ticket, waits until that ticket is served and takes the value out of its
//! slot. `put` puts the value back and serves the next ticket. A pass that was split from another, or that meets it,
//! knows at least what the other knew.
//!
//! ```text
//!   next 7      the next ticket to draw            pass of ticket 5     its turn: the value is with it
//!   serving 5   the ticket whose turn it is        pass of ticket 6     waits: it looks at `serving`
//!   length 41   how many entries the history has   pass with no ticket  has seen entries 0 to 30, say
//!   slot  ..    the value, or empty while it is out
//! ```
//!
//! Here tickets 5 and 6 are drawn and not yet past. When 5 puts the value back with two entries more, `length` is 43,
//! the slot has the value, and then, last of all, `serving` is 6.
//!
//! The rule that every step keeps, whatever other threads do between two steps:
//! - No two passes have one ticket. The tickets from `serving` up to `next` are each some pass's, and no other is.
//! - The value is in its slot, or it is with the one pass whose ticket is `serving`.
//! - There is one history, of `length` entries, and one name. The value in the slot has them. Each pass has seen a
//!   beginning of that history and tells that name, and some pass has seen it whole.
//!
//! What is proved: the rule, and from it the clauses of `take`, `put`, `split`, `join` and `meet`. The history that
//! `take` finds begins with all that the pass has seen. `put` asks that it only grew, and then the pass has seen it
//! whole. After `meet` a pass has seen the longer of two histories, and both begin it, since all that passes of one turn
//! have seen are beginnings of one history. `Held` can't be dropped, so that a turn that was taken is put back.
//!
//! What isn't: that anybody is ever served, that tickets are served soon or fairly, how long anything takes. `take` may
//! wait for ever, as after the 2^64 - 1 tickets are drawn. Between passes that never met there is no order in time.
//!
//! What the caller owes: a pass of this turn that doesn't hold it; at `put`, a history that begins with the one that was
//! taken, and the same name.
#![tactic(auto)]

mod held;
mod historied;
mod pass;
mod plays;
mod rule;
mod steps;
mod turn;
mod view;

pub use arc_bytes::Memory;
pub use held::Held;
pub use historied::Historied;
pub use pass::Pass;
pub use turn::Turn;
