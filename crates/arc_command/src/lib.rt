//! The bytes of commands and of entries of journals.
//!
//! It stands on `arc_data` for commands and entries as plain data, which it names again, and on `arc_bytes` for numbers in
//! bytes. A node's journal stands on it.
//!
//! The law that it keeps: each command and each entry has one spelling. What is spelled is read again, a command
//! also where more follows it, and nothing else is read.
//!
//! The bytes: a command is the version 1, its identifier (1, 4 and 4 bytes), its time and its token (8 each), the number
//! of its operation (1) and the operation's fields; an entry is the number of its kind (1) and its parts. Numbers stand
//! with the highest byte first.
//!
//! What the caller owes: an operation in a command is valid, that is within its limits, and so are the command's
//! identifier and time.
#![tactic(auto)]

mod bytes;
mod codec;
mod command_bytes;
mod control_bytes;
mod field;
mod fields;
mod laws;
mod op_bytes;
mod practice_bytes;
mod record_bytes;
mod rule_bytes;
mod shift_bytes;
mod zones;

pub use arc_data::{
    Answer, Batch, BlockCause, Body, Cause, Command, CommandId, Configured, ControlId, ControlItem,
    Ending, Entry, Equals, Forbidden, Kind, List, MAX_MS, Message, Named, Op, Outcome, PanelId,
    PartEnd, PracticeChange, PracticeConfig, Record, Refusal, Reply, Resource, ResourceId,
    ResourceItem, RuleConfig, RuleId, RuleItem, RuleKind, RuleSpec, Run, Shift, ShiftId, ShiftItem,
    States, Status, Text, Window, ZoneName, closed_len, is_valid, promise, top_vote,
};
pub use bytes::CommandEnd;
pub use codec::{decode, decode_record, encode, encode_record};
pub use laws::{
    commands_have_one_spelling, entries_have_one_spelling, spelled_commands_are_read,
    spelled_entries_are_read,
};
