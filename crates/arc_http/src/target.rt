//! The operation that a target names.
ghost use Rattle.std.specs.Prelude.{◌≡◌, codes, map};
ghost use Rattle.httparse.specs.Borrowed.{header_parts};
ghost use Rattle.arc_http.specs.Asked.{after_dot, named_op, op_in};
ghost use Rattle.arc_http.specs.Fields.{values_of};
ghost use Rattle.arc_http.specs.Seen.{Gives};

use crate::HeadEnd;
use crate::fields::next_value;
use httparse::Header;
use memchr::memrchr;

/// The part of a value after its last dot, all of it without a dot.
#[tactic(auto, using(crate::proofs::Texts::without_dot))]
fn after_dot(value: &[u8]) -> &[u8]
    ensures { result.now ≡ after_dot value.now }
{
    match memrchr(b'.', value) {
        Some(dot) => &value[dot + 1..],
        None => value,
    }
}

/// The operation that the one `X-Amz-Target` names.
#[tactic(auto, unfolding(crate::specs::Asked::named_op))]
fn named_op<'a>(headers: &[Header<'a>]) -> Result<&'a [u8], HeadEnd>
    ensures { Gives (λ op. op.now) result
        (named_op (values_of (codes "x-amz-target") (map header_parts headers.now))) }
{
    let Some((value, others)) = next_value(headers, "x-amz-target") else {
        return Err(HeadEnd::BadTarget);
    };
    if next_value(others, "x-amz-target").is_some() {
        return Err(HeadEnd::BadTarget);
    }
    Ok(after_dot(value))
}

/// The operation that a target names, by itself or by a header.
#[tactic(auto, unfolding(crate::specs::Asked::op_in))]
pub fn read_op<'a>(target: &'a str, headers: &[Header<'a>]) -> Result<&'a [u8], HeadEnd>
    ensures { Gives (λ op. op.now) result
        (op_in target.now (values_of (codes "x-amz-target") (map header_parts headers.now))) }
{
    match target.as_bytes() {
        b"/" => named_op(headers),
        [b'/', op @ ..] => Ok(op),
        _ => Err(HeadEnd::BadTarget),
    }
}
