//! Scripts: the text of a drill, read into steps.
//!
//! It stands on `arc_data` for what a call asks for, on `arc_json` for the bodies of calls and the codes of their tests, and
//! on `memchr` for the ends of lines. The drill stands on it.
//!
//! The law that it keeps: a text is read exactly by its grammar, which `specs/` states apart from this code. What is in
//! the grammar is read as the steps that it spells, and what isn't is refused with its first bad line and the code of
//! the first test that this line fails.
//!
//! A script is a list of lines that end in LF; the last may lack it. A CR just before that end is dropped. A line that is
//! empty or begins with `#` is no step. Words are separated by one space.
#![tactic(auto)]

mod calls;
mod config;
mod end;
mod items;
mod laws;
mod lines;
mod script;
mod step;
mod words;

use end::LineEnd;
pub use laws::{numbers_have_one_spelling, spelled_lines_are_read};
pub use script::read_script;
pub use step::{MAX_SCRIPT, ScriptCode, ScriptEnd, Step};
