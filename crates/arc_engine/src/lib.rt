//! Five nodes and the state that their list makes: each call is answered at its place.
//!
//! A call comes in at one of the five nodes, its endpoint, which draws a command for it and attempts to give that the next slot of
//! the list. An attempt is disturbed where fewer than three nodes, the endpoint among them, went through all of its exchanges;
//! its tally has the digits of those that did. What a caller may rely on, by what a call answers:
//!
//! - `Unavailable { tallies }`: eight attempts were disturbed, and nobody knows yet what becomes of the command. It may be
//!   finished later by another call, once, under its own identifier; a retry is a second command. The tallies are those of
//!   its attempts, in order. A node that is up at the end and that x of them lack met trouble at least x times in the call.
//! - `Answered { slot, reply, token }`: the command stands at `slot`, behind all that stood in the list before the call; `reply`
//!   is what one cluster that never fails answers after the commands before it, and `token` is `slot + 1`.
//! - `NodeDown { node }`: the endpoint's node isn't up. It wasn't before, and then no command was drawn; or its disk failed or
//!   its journal is full, and then the command may be finished later, as after `Unavailable`.
//! - `ListFull { length }`: the endpoint's list has as many commands as it takes, and the call's isn't among them. Either no
//!   command was drawn, or its attempts found those of others.
//! - `Memory`: there was none left. The command may have its place already, or be finished later. The state may be behind the
//!   list; the next call that is answered makes that good first.
//!
//! It stands on `arc_cluster` for the list and on `arc_state` for what a list makes. The law that it keeps after every call: the
//! cluster is in order, and the state is that after the first commands of the longest list that a node keeps, as many as it
//! has done. It asks of disks just what the cluster asks. Over a courier that lets each exchange happen, a call at a node that is up
//! isn't refused for want of nodes while three are up, no disk fails or is set to, and no journal is full
//! (`direct_calls_are_not_refused`).
#![tactic(auto)]

mod attempting;
mod call_end;
mod calling;
mod catching_up;
mod engine;
mod laws;
mod starting;

pub use call_end::{CallEnd, MOST_DISTURBED};
pub use engine::Engine;
pub use laws::direct_calls_are_not_refused;
