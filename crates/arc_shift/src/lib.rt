//! Managed resources with the zones in autoshift, and the customer's zonal shifts.
//!
//! It stands on `arc_data` for the words and on `arc_plain` for what each call does. `arc_precedence` and `arc_state`
//! stand on it. It knows no protocol and no clock: the moment is handed in.
//!
//! The law that it keeps: at most one shift of a resource is active at a moment that isn't before the start of any kept
//! one. A shift that is over stays as it ended, until it is forgotten.
//!
//! What the caller owes: a moment of at most `MAX_MS` that isn't before the start of any kept shift; for a new shift an
//! identifier above every kept one; that a shift that is forgotten is kept; and fewer than 2^64 - 1 resources drawn. After
//! a refusal and after want of memory nothing has changed.
#![tactic(auto)]

mod progress;
mod resources;
mod shifts;

pub use arc_data::{Shift, Status};
pub use progress::status;
pub use resources::Resources;
pub use shifts::Shifts;
