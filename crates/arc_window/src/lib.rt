//! Times at which practice runs may not start: blocked dates and weekly windows.
//!
//! It stands on `jiff` for the calendar, and on nothing of ours. `arc_data` stands on it for the windows that a
//! command holds, and `arc_practice` asks it before a run starts.
//!
//! The law that it keeps: a date and a window have one spelling, and whatever is spelled otherwise is refused. The
//! calendar is that of ISO 8601, in UTC; a week begins on Monday at 00:00, and 1970-01-01 was a Thursday.
//!
//! What the caller owes: a moment in milliseconds since 1970-01-01. No call takes memory.
#![tactic(auto)]

mod blocking;
mod date;
mod weekly;

pub use blocking::{BlockedBy, blocked, weeks_follow_the_calendar};
pub use date::{DateEnd, read_date};
pub use weekly::{BadWindow, Window, read_window};
