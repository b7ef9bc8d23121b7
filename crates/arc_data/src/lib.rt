//! What can be said to the cluster, and what it answers: commands, operations, replies, refusals, messages and entries of
//! journals, as plain data.
//!
//! It stands on `arc_ids` for identifiers, on `arc_window` for weekly windows, and on `arc_bytes` for `Memory`.
//! Everything that knows a command stands on it; `arc_command` has the bytes of commands and of entries.
//!
//! The law that it keeps: contracts see a text as its bytes and a list as its items, so that plain data is compared as
//! a whole. A copy equals its original, `Equals` tells exactly whether two values are one, and `is_valid` tells exactly
//! whether an operation is within its limits.
//!
//! What the caller owes: an operation in a command is valid, and so are the command's identifier and time.
#![tactic(auto)]

mod batch;
mod command;
mod copies;
mod entries;
mod equality;
mod limits;
mod list;
mod message;
mod op;
mod op_copy;
mod op_equality;
mod part_end;
mod practice;
mod record;
mod reply;
mod resource;
mod rule;
mod shift;
mod states;
mod text;
mod valid;
mod zone;

pub use arc_ids::{CommandId, ControlId, PanelId, ResourceId, RuleId, ShiftId};
pub use arc_window::Window;
pub use batch::{Batch, Entry};
pub use command::{Command, MAX_MS};
pub use entries::{closed_len, promise, top_vote};
pub use equality::Equals;
pub use list::List;
pub use message::{Answer, Message};
pub use op::Op;
pub use part_end::PartEnd;
pub use practice::{BlockCause, Configured, Ending, PracticeChange, PracticeConfig, Run};
pub use record::Record;
pub use reply::{Body, ControlItem, Named, Refusal, Reply};
pub use resource::{Resource, ResourceItem};
pub use rule::{Cause, Forbidden, RuleConfig, RuleItem, RuleKind, RuleSpec};
pub use shift::{Kind, Outcome, Shift, ShiftItem, Status};
pub use states::States;
pub use text::Text;
pub use valid::is_valid;
pub use zone::ZoneName;
