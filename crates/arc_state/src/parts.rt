//! The parts of a plain cluster as they are kept.

use arc_batch::Controls;
use arc_practice::Practices;
use arc_shift::{Resources, Shifts};

/// All that is kept. The list of accepted changes isn't: each rule has the time of its own last change.
#[derive(Drop)]
pub struct Parts {
    /// List time, in milliseconds.
    pub time: u64,
    /// How many commands there were.
    pub count: u64,
    pub controls: Controls,
    pub resources: Resources,
    pub shifts: Shifts,
    pub practices: Practices,
    /// How many identifiers of shifts and practice runs were drawn.
    pub shifts_drawn: u64,
}
