//! The tests of a head, in their order.
ghost use Rattle.std.specs.Prelude.{◌≡◌, ◌≤◌, ◌&&◌, not, codes, map, Ok, IfOk};
ghost use Rattle.std.specs.List.{list_all};
ghost use Rattle.httparse.specs.Borrowed.{header_parts};
ghost use Rattle.arc_token.specs.Digits.{number_in};
ghost use Rattle.arc_http.specs.Asked.{is_spelling, uncoded, length_in, told_token, closes, most_body, op_in, asked_in};
ghost use Rattle.arc_http.specs.Fields.{is_named, values_of};
ghost use Rattle.arc_http.specs.Seen.{Gives, asked_of};

use crate::HeadEnd;
use crate::fields::{has_value, has_word, is_named, next_value};
use crate::target::read_op;
use arc_token::{Token, number_of};
use httparse::Header;

/// The most bytes of a body.
const MAX_BODY: u64 = 65_536;

/// A head that passed its tests: what it asks for.
#[derive(Clone, Copy)]
pub struct HeadView<'a> {
    pub op: &'a [u8],
    pub token: u64,
    pub body_length: usize,
    pub close: bool,
    pub local: bool,
}

/// Refuses a request with a transfer coding.
fn refuse_coding(headers: &[Header<'_>]) -> Result<(), HeadEnd>
    ensures { result ≡ uncoded (values_of (codes "transfer-encoding") (map header_parts headers.now)) }
{
    match next_value(headers, "transfer-encoding") {
        None => Ok(()),
        Some(_) => Err(HeadEnd::TransferCoding),
    }
}

/// Whether a header is a length other than this one.
fn disagrees(header: &Header<'_>, length: u64) -> bool
    ensures { result ≡ (is_named (codes "content-length") (header_parts header.now)
        && not (is_spelling length (number_in header.now.value.now))) }
{
    if !is_named(header, "content-length") {
        return false;
    }
    match number_of(header.value) {
        Some(number) => number != length,
        None => true,
    }
}

/// Whether all headers of a length tell this one.
fn agree(headers: &[Header<'_>], length: u64) -> bool
    ensures { result ≡ list_all (λ digits. is_spelling length (number_in digits))
        (values_of (codes "content-length") (map header_parts headers.now)) }
{
    let mut rest = headers;
    while let [header, others @ ..] = rest {
        if disagrees(header, length) {
            return false;
        }
        rest = others;
    }
    true
}

/// The length that all headers of it tell.
#[tactic(auto, unfolding(crate::specs::Asked::length_in))]
fn read_length(headers: &[Header<'_>]) -> Result<u64, HeadEnd>
    ensures { result ≡ length_in (values_of (codes "content-length") (map header_parts headers.now)) }
{
    let Some((digits, others)) = next_value(headers, "content-length") else {
        return Err(HeadEnd::NoLength);
    };
    let Some(length) = number_of(digits) else {
        return Err(HeadEnd::BadLength);
    };
    if !agree(others, length) {
        return Err(HeadEnd::BadLength);
    }
    Ok(length)
}

/// The token of the one header of it, 0 without one.
#[tactic(auto, unfolding(crate::specs::Asked::told_token))]
fn read_token(headers: &[Header<'_>]) -> Result<u64, HeadEnd>
    ensures { result ≡ told_token (values_of (codes "x-arc-token") (map header_parts headers.now)) }
{
    let Some((digits, others)) = next_value(headers, "x-arc-token") else {
        return Ok(0);
    };
    if next_value(others, "x-arc-token").is_some() {
        return Err(HeadEnd::BadToken);
    }
    match Token::of_digits(digits) {
        Ok(token) => Ok(token.0),
        Err(_) => Err(HeadEnd::BadToken),
    }
}

/// Whether the connection ends after the answer.
fn closes(minor: u8, headers: &[Header<'_>]) -> bool
    ensures { result ≡ closes minor (map header_parts headers.now) }
{
    if minor == 0 {
        return true;
    }
    has_word(headers, "connection", b"close")
}

/// What a head asks for, or the first test that it fails.
#[tactic(auto, unfolding(crate::specs::Asked::asked_in))]
pub fn read_head<'a>(
    method: &str,
    target: &'a str,
    minor: u8,
    headers: &[Header<'a>],
) -> Result<HeadView<'a>, HeadEnd>
    ensures exact { Gives asked_of result
        (asked_in method.now target.now minor (map header_parts headers.now)) }
    ensures within { IfOk result (λ head. head.body_length ≤ most_body) }
    ensures op { IfOk result (λ head. op_in target.now
        (values_of (codes "x-amz-target") (map header_parts headers.now)) ≡ Ok head.op.now) }
{
    if method != "POST" {
        return Err(HeadEnd::BadMethod);
    }
    let op = read_op(target, headers)?;
    refuse_coding(headers)?;
    let length = read_length(headers)?;
    if length > MAX_BODY {
        return Err(HeadEnd::BodyTooLong { length });
    }
    let token = read_token(headers)?;
    Ok(HeadView {
        op,
        token,
        body_length: length as usize,
        close: closes(minor, headers),
        local: has_value(headers, "x-arc-read", b"snapshot"),
    })
}
