//! The identifiers of everything that a command can name, and the texts that replies show for them.
//!
//! It stands on `hex` for the digits, on `uuid` for the texts of shifts and on `arc_bytes` for `Memory`. Every crate that
//! speaks of commands stands on it.
//!
//! The law that it keeps: an identifier is written as a fixed front and sixteen lower-case hexadecimal digits. A text is
//! read exactly where it is the front and sixteen digits, each of either case, as the number that these digits are. The
//! text of a shift is a UUID, read in each form that a UUID has, and what is written is read again.
#![tactic(auto)]

mod command_id;
mod digits;
mod named_id;
mod shift_text;

pub use command_id::CommandId;
pub use named_id::{BadId, ControlId, PanelId, ResourceId, RuleId, ShiftId};
pub use shift_text::shifts_are_read_again;
