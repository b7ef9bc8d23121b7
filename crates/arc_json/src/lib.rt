//! The JSON of requests and of replies: what an operation's members ask for, and the texts of what the cluster answers.
//!
//! It stands on `arc_data` for operations and replies, on `arc_members` for the members of a request, on `arc_ids` for
//! the texts of identifiers, and on `serde_json` for JSON. Scripts stand on it, and the drill, since a line of its report
//! ends in the text of a reply.
//!
//! The laws that it keeps: a request asks for one valid operation, or the first test that fails gives its code; a reply
//! has one text, the compact JSON of its value, members in ascending byte order of their names, and one status of three
//! digits.
#![tactic(auto)]

mod batch_ops;
mod body;
mod members;
mod operation;
mod refusal;
mod reply;
mod request;
mod resource_body;
mod routing_body;
mod rule_ops;
mod shift_ops;
mod words;

pub use arc_members::{Code, RequestEnd};
pub use reply::reply_text;
pub use request::read_op;
