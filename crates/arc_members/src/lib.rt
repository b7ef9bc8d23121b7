//! What stands in the JSON of a request: members of objects, lists, and the kinds of values that members have.
//!
//! It stands on `serde_json` for JSON, on `arc_ids` for the texts of identifiers, on `arc_window` for dates and windows,
//! and on `arc_data` for what values are read as. `arc_json` stands on it and has the operations.
//!
//! The law that it keeps: a value is read test by test in a stated order, and the first test that fails gives the code.
//! Want of memory is an answer of its own.
#![tactic(auto)]

mod code;
mod id;
mod kind;
mod list;
mod text;
mod time;
mod word;

pub use code::{Code, RequestEnd};
pub use kind::{Kind, defaulted, given, optional, required};
pub use list::{Apart, list_in, set_in};
pub use text::{Comment, Name, Truth, Wait, Whole, Zone, object_in};
pub use time::{Day, Minutes};
pub use word::{Enabled, Red, State};
