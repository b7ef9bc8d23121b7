//! Requests that come in pieces, one behind another, and up to their limits.
use arc_http::{HeadEnd, RequestView, read_request};
use std::alloc::{AllocError, Global};
use std::process::Abort;
use std::test::Fail;

/// The worked session's request.
const REQUEST: &[u8] =
    b"POST /GetRoutingControlState HTTP/1.1\r\nHost: a\r\nContent-Length: 56\r\n\r\n{\"RoutingControlArn\":\"arn:arc:control/0000000000000001\"}";

/// What it is read as.
const VIEW: RequestView<'static> = RequestView {
    op: b"GetRoutingControlState",
    token: 0,
    body: b"{\"RoutingControlArn\":\"arn:arc:control/0000000000000001\"}",
    close: false,
    local: false,
};

#[test]
fn a_request_is_read_once_its_last_byte_is_there_whatever_follows(
    rt: HostRuntime,
) -> Result<(), Fail> {
    for end in 0..REQUEST.len() {
        assert_eq!(rt; read_request(&REQUEST[..end]), Ok(None), "{end} bytes");
    }
    let mut bytes = REQUEST.to_vec(rt.alloc())?;
    for more in [b"".as_slice(), b"\r\nGET".as_slice(), REQUEST] {
        bytes.truncate(REQUEST.len());
        bytes.extend_from_slice(more)?;
        let read = read_request(&bytes);
        assert_eq!(rt; read, Ok(Some((VIEW, REQUEST.len()))));
    }
    Ok(())
}

/// A front, a piece, how many times the piece stands behind the front, what ends the bytes, and what they are refused for,
/// where they want no more.
type Row = (
    &'static str,
    &'static str,
    u32,
    &'static str,
    Option<HeadEnd>,
);

const FIELDS: &str = "POST /Op HTTP/1.1\r\nContent-Length: 0\r\n";

const LONG: Option<HeadEnd> = Some(HeadEnd::HeadTooLong { limit: 8_192 });

const ROWS: [Row; 6] = [
    ("", "\r\n", 3, "GET", None),
    // A 65th field is refused once its line is whole.
    (FIELDS, "a: b\r\n", 63, "", None),
    (FIELDS, "a: b\r\n", 63, "a: b", None),
    (FIELDS, "a: b\r\n", 64, "", Some(HeadEnd::BadHead)),
    // A head that doesn't end is refused at its limit.
    ("POST /", "a", 8_185, "", None),
    ("POST /", "a", 8_186, "", LONG),
];

/// The front, so many pieces, and the end.
fn joined(alloc: Global, row: &Row) -> Result<String, AllocError> {
    let (front, piece, count, end, _) = row;
    let mut text = String::from_str(alloc, front)?;
    for _ in 0..*count {
        text.push_str(piece)?;
    }
    text.push_str(end)?;
    Ok(text)
}

fn check_all(rt: &(impl Abort + AllocGlobal), rows: &[Row]) -> Result<(), Fail> {
    for row in rows {
        let text = joined(rt.alloc(), row)?;
        let wanted = match row.4 {
            Some(end) => Err(end),
            None => Ok(None),
        };
        assert_eq!(rt; read_request(text.as_bytes()), wanted);
    }
    Ok(())
}

#[test]
fn a_head_is_refused_at_its_limits(rt: HostRuntime) -> Result<(), Fail> {
    check_all(&rt, &ROWS)
}
