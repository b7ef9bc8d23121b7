//! Tests of what no line of a script can say: commands and entries in bytes, bodies that no line holds, and where a script
//! ends.
//!
//! What a script can say is told by the stories. These tests stand apart so that the libraries that they test are proved
//! once: a crate with tests is proved again with them. A module is named for the crate that it tests.
//!
//! It stands on the crates that it tests, `arc_command`, `arc_json` and `arc_script`, alone. It exports nothing, and no
//! promise rests on it.
#![tactic(auto)]

#[cfg(test)]
mod command;
#[cfg(test)]
mod json;
#[cfg(test)]
mod script;
