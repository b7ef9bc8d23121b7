//! What one plain cluster does: the meaning of every command, in definitions.
//!
//! A plain cluster is one list of commands that are done one after another. It knows no node, no ballot, no disk and no
//! index. `specs/` says what it holds (`State`), what each operation does, and what a command answers and leaves
//! (`Cluster`). The operations stand by theme: panels and controls (`Controls`), safety rules (`SafetyRules`), resources
//! and the customer's shifts (`ZonalShifts`), practice runs, autoshifts and alarms (`PracticeRuns`), and what only tells
//! (`Reads`). They are made of the parts, which stand by themselves: panels and their controls (`Panels`), rules with the
//! list of accepted changes (`Rules`), what a batch does (`Batch`), resources with the zones in autoshift (`Resources`),
//! the customer's shifts (`Shifts`), practice runs (`Practice`), and which of all these is applied to a resource
//! (`Precedence`). How a row is written is said in `Rows`, what a call of a part does in `Part`. The crates of
//! panels, rules and shifts, `arc_state` and the drill cite these definitions: that its nodes behave as one plain cluster
//! is what the product is there to promise.
//!
//! It stands on `arc_data` for the words. Its only code is laws: functions without a body, whose contracts say what
//! holds of the definitions.
#![tactic(auto)]

mod laws;

pub use laws::{
    identifiers_are_drawn_once, limit_holds, list_goes_on, names_differ, places_count,
    refusals_change_nothing, time_does_not_fall,
};
