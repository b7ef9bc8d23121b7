//! Replies as JSON.
ghost use Rattle.std.specs.Prelude.{◌≡◌, IfOk};
ghost use Rattle.serde_json.specs.View.{view};
ghost use Rattle.arc_json.specs.Reply.{status_of, text_of, value_of};

use crate::body::body_json;
use crate::refusal::{http_status, refusal_json};
use arc_bytes::Memory;
use arc_data::Reply;
use serde_json::Value;
use std::alloc::Global;

/// The status of a reply and its text, compact JSON.
#[tactic(auto, using(crate::proofs::Floats::reply_whole), unfolding(crate::specs::Reply::text_of))]
pub fn reply_text(alloc: Global, reply: &Reply) -> Result<(u16, Vec<u8>), Memory>
    ensures status { IfOk result (λ r. r.0 ≡ status_of reply.now) }
    ensures text { IfOk result (λ r. r.1.items ≡ text_of reply.now) }
{
    let text = reply_json(alloc, reply)?.to_vec(alloc)?;
    Ok((reply_status(reply), text))
}

fn reply_status(reply: &Reply) -> u16
    ensures { result ≡ status_of reply.now }
{
    match reply {
        Reply::Done(_) => 200,
        Reply::Refused(refusal) => http_status(refusal),
    }
}

fn reply_json(alloc: Global, reply: &Reply) -> Result<Value, Memory>
    ensures { IfOk result (λ v. view v ≡ value_of reply.now) }
{
    match reply {
        Reply::Done(body) => body_json(alloc, body),
        Reply::Refused(refusal) => refusal_json(alloc, refusal),
    }
}
