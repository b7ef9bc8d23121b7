//! Generated scripts: long ones, stated whole, to drill and to measure with.
//!
//! It stands on `arc_script`, whose grammar the lines are written in.
//!
//! The law that it keeps: the text is exactly the stated one, `script_text` of `specs/`. Eight controls and two safety rules
//! come first. Then a number is drawn for each line, each from the one before it, and says what the line asks for: a state is
//! set or read by way of one of five endpoints, or what is sent to a node next comes late. Two lines at the end ask what came
//! of it. So a size names one script, the same on every machine.
//!
//! What the caller owes: a size from 1 to 4,000.
#![tactic(auto)]

mod lines;
mod script;

pub use script::script_of;
