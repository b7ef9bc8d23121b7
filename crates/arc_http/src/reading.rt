//! Reading a request from the bytes so far.
ghost use Rattle.std.specs.Prelude.{◌≡◌, ◌+◌, ◌<◌, ◌≤◌, ℕ, List, length, Ok, MatchOption};
ghost use Rattle.arc_http.specs.Asked.{most_body};
ghost use Rattle.arc_http.specs.Reading.{answer_in, answer_of, front_of, is_newline, lines_in, most_head, IsRange, GivesRanges, IsReadAs};
ghost use Rattle.arc_http.specs.Seen.{asked_of, waiting};

use crate::asked::{HeadView, read_head};
use crate::{HeadEnd, RequestView};
use httparse::{EMPTY_HEADER, Request, Status};

/// The most bytes of a head.
const MAX_HEAD: usize = 8_192;

/// The most header fields.
pub(crate) const MAX_FIELDS: usize = 64;

/// The bytes in which a head has to end.
#[tactic(auto, using(crate::proofs::Texts::all_in_front))]
pub(crate) fn front_of(buf: &[u8]) -> &[u8]
    ensures { result.now ≡ front_of buf.now }
{
    if buf.len() <= MAX_HEAD {
        return buf;
    }
    &buf[..MAX_HEAD]
}

/// Whether a byte is CR or LF.
fn is_newline(byte: u8) -> bool
    ensures { result ≡ is_newline byte }
{
    byte == b'\r' || byte == b'\n'
}

/// How many lines end behind the empty lines at the front.
fn lines_in(front: &[u8]) -> usize
    ensures { result ≡ lines_in front.now }
{
    front
        .iter()
        .skip_while(|byte| is_newline(**byte))
        .filter(|byte| **byte == b'\n')
        .count()
}

/// Waits for more of a head that isn't whole, as long as one may still come.
#[tactic(auto, unfolding(crate::specs::Seen::waiting))]
fn wait_for_head<'a>(front: &[u8]) -> Result<Option<(RequestView<'a>, usize)>, HeadEnd>
    ensures exact { answer_of result ≡ waiting front.now }
    ensures ranges { (bytes : List ℕ) → front.now ≡ front_of bytes → GivesRanges bytes result }
{
    // `httparse` refuses a line too many by itself. Its contract leaves that open, so the lines are counted here too.
    if lines_in(front) > MAX_FIELDS + 1 {
        return Err(HeadEnd::BadHead);
    }
    if front.len() >= MAX_HEAD {
        return Err(HeadEnd::HeadTooLong { limit: MAX_HEAD });
    }
    Ok(None)
}

/// The request of a head of so many bytes, once its body is there.
fn with_body<'a>(
    buf: &'a [u8],
    start: usize,
    head: HeadView<'a>,
) -> Option<(RequestView<'a>, usize)>
    requires small_head { start ≤ most_head }
    requires small_body { head.body_length ≤ most_body }
    ensures exact { answer_of (Ok result) ≡ answer_in buf.now start (Ok (asked_of head.entry)) }
    ensures ranges { MatchOption result (length buf.now < most_head + most_body)
        (λ found. IsRange buf.now start found.1 found.0.body.now
        × (found.0.op.now ≡ head.entry.op.now)) }
{
    let end = start + head.body_length;
    if end > buf.len() {
        return None;
    }
    let request = RequestView {
        op: head.op,
        token: head.token,
        body: &buf[start..end],
        close: head.close,
        local: head.local,
    };
    Some((request, end))
}

/// Reads the request at the front of the bytes so far, and tells how many bytes it takes. `None` where more bytes are
/// wanted.
pub fn read_request<'a>(buf: &'a [u8]) -> Result<Option<(RequestView<'a>, usize)>, HeadEnd>
    ensures exact { IsReadAs buf.now (answer_of result) }
    ensures ranges { GivesRanges buf.now result }
{
    let front = front_of(buf);
    let mut headers = [EMPTY_HEADER; MAX_FIELDS];
    let mut head = Request::new(&mut headers);
    match head.parse(front) {
        Ok(Status::Complete(length)) => {
            // It gives no more than there was room for. Its contract leaves that open too.
            if head.headers.len() > MAX_FIELDS {
                return Err(HeadEnd::BadHead);
            }
            let method = head.method.unwrap();
            let target = head.path.unwrap();
            let minor = head.version.unwrap();
            let passed = read_head(method, target, minor, head.headers)?;
            Ok(with_body(buf, length, passed))
        }
        Ok(Status::Partial) => wait_for_head(front),
        Err(_) => Err(HeadEnd::BadHead),
    }
}
