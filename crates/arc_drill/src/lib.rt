//! The drill: a script of calls in, a line of report a step out.
//!
//! It stands on `arc_script` for the steps, on `arc_node` for the node that keeps the list on its disk, on `arc_state` for
//! what the list makes, on `arc_json` for what the replies are in text, and on `arc_bytes` and `arc_disk` for where the
//! bytes come from and go to. The program stands on it.
//!
//! The promise that it carries is the drill's theorem: the contract of `drill`, whose words stand in `specs/`. `Telling`
//! says what a report tells of a script, by place; `Drilled` says what went out, by the status.
//!
//! What the caller owes: five empty disks.
#![tactic(auto)]

mod learning;
mod lines;
mod report;
mod starting;
mod status;
mod step;
mod top;

pub use status::Status;
pub use top::drill;
