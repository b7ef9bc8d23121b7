//! Practice runs: their configurations, the runs that are kept, and the alarms that are red.
//!
//! It stands on `arc_data` for the words, on `arc_window` for what blocks a moment, and on `arc_plain` for what each call
//! does. `arc_precedence` and `arc_state` stand on it. It knows no protocol and no clock: the moment is handed in.
//!
//! The law that it keeps: at most one run of a resource is pending at a moment that isn't before the start of any kept
//! one. The first event that comes before a run's 30 minutes are over decides what becomes of it; whatever comes later
//! changes nothing. A run keeps the outcome alarms with which it started.
//!
//! What the caller owes: a moment that isn't before the start of any kept run; for a new run an identifier above every
//! kept one, and a resource that has a configuration and no pending run; and that a configuration that is removed and a run
//! that is forgotten are kept. After a refusal and after want of memory nothing has changed.
#![tactic(auto)]

mod alarms;
mod configs;
mod practices;
mod progress;
mod runs;

pub use arc_data::{BlockCause, Ending, Outcome, PracticeChange, PracticeConfig, Run};
pub use practices::Practices;
pub use progress::{RUN_MS, is_pending, outcome, status_of};
