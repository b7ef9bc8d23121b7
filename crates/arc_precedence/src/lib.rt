//! Which shift moves a resource's traffic away.
//!
//! It stands on `arc_shift` and `arc_practice` for the shifts, the resources and the practice runs. `arc_state` stands on
//! it. It knows no protocol and no clock: the moment is handed in, and no call takes memory.
//!
//! The law that it keeps: the customer's active shift comes first; then, where autoshift is enabled for the resource, the
//! zone in autoshift that was started first and that the resource has; then the pending practice run.
//!
//! What the caller owes: nothing. The same rule holds at every moment.
#![tactic(auto)]

mod applied;
mod autoshift;
mod found;

pub use applied::{Applied, ShiftsView, applied_shift};
pub use arc_data::{Kind, ZoneName};
pub use autoshift::autoshift_at;
pub use found::{active_of, pending_of};
