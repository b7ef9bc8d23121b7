//! What the report of a drill over five nodes tells, in definitions and laws: no disk, no courier, no cluster.
//!
//! `View` has five nodes as plain data, with what lies behind their exchanges. `Moves` says what each kind of step makes of a view, and
//! which line tells it; `Run` is a chain of moves. `Noted` is what is known of a node at entry and by the lines so far, `Parts` what is
//! told, one definition a theme, `Told` all of it. `Obeying` says what safety rules do in any list of commands.
//!
//! It stands on `arc_plain` for what a command is answered and on `arc_voting` for what five journals say; the drill stands on it.
//!
//! The promise that it carries: of every run all of it is told (`run_is_told`). Each part has a law of its own. The laws are functions
//! without a body, and they are its only code.
//!
//! What the drill owes once it runs five nodes, and doesn't yet: each step is the row of its kind, the view at the start is one with which
//! a drill starts (`IsStart`), and the journals at the end are behind the last view (`IsBeforeEnd`, `EndsBy`).
#![tactic(auto)]

mod laws;

pub use laws::{
    created_nodes_start, deliveries_are_told, done_run_is_told, down_is_told, end_is_told,
    full_is_told, history_is_told, idle_calls_go, journals_only_grow, lists_are_told,
    origin_is_told, placed_calls_are_all, places_are_told, run_is_told, runs_go_on,
    silence_is_told, starts_are_told, unavailable_is_told,
};
