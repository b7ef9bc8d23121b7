//! One plain cluster as it runs: commands are done one after another, in memory.
//!
//! It stands on `arc_batch` with panels and rules, on `arc_shift`, `arc_practice` and `arc_precedence`, and on `arc_plain`,
//! whose definitions its contracts cite. The drill stands on it. `Parts` are what is kept; each operation is one function
//! over them, by theme: `controls`, `rules`, `shifts`, `practice`, and what is only told in `read`, `shown` and `listing`.
//! `perform` says which operation is which, and `state` what a command does.
//!
//! The law that it keeps: in every plain state that the value stands for, `apply` gives the plain cluster's answer and
//! leaves a value that stands for its next state. There is always such a plain state, one in which the laws of `arc_plain`
//! hold. After want of memory nothing has changed. `answer_read` gives the answer at the present list time.
//!
//! What the caller owes: valid operations at times of at most `MAX_MS`, and fewer than 2^64 - 1 commands in all.
#![tactic(auto)]

mod autoshifts;
mod changes;
mod controls;
mod ends;
mod items;
mod listing;
mod parts;
mod perform;
mod practice;
mod read;
mod room;
mod rules;
mod runs;
mod shifts;
mod shown;
mod state;

pub use read::ReadOp;
pub use state::State;
