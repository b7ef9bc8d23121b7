//! Safety rules: which are kept, what their values are, and which of them forbid a batch.
//!
//! It stands on `arc_plain`, whose definitions its contracts cite, and `arc_batch` stands on it. It knows no panel and no
//! protocol.
//!
//! The law that it keeps: in every plain state that a kept value stands for, `forbidding` names just the rules that
//! forbid a batch, with their causes, and every call leaves a value that stands for the next plain state. The plain state
//! has the list of all accepted changes; what is kept has the time of each rule's last change alone.
//!
//! What the caller owes: times of at most `MAX_MS`, and fewer than 2^64 - 1 identifiers drawn.
#![tactic(auto)]

mod evaluation;
mod forbid;
mod kept;
mod rules;
mod table;

pub use arc_data::{Cause, Forbidden};
pub use evaluation::value;
pub use forbid::changed_by;
pub use rules::Rules;
