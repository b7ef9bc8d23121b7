//! Heads, and what each is read as: a request, or the first test that it fails.
use arc_http::{HeadEnd, RequestView, read_request};
use std::process::Abort;

/// The bytes of a whole request, or of a head that no bytes can mend, and what they are read as.
type Row = (&'static [u8], Result<RequestView<'static>, HeadEnd>);

/// A request for this operation with no token and no body, on a connection that stays.
const OP: RequestView<'static> = RequestView {
    op: b"Op",
    token: 0,
    body: b"",
    close: false,
    local: false,
};

const READ: [Row; 6] = [
    (
        b"POST /Op HTTP/1.0\ncontent-LENGTH:2\n\n{}",
        Ok(RequestView {
            op: b"Op",
            token: 0,
            body: b"{}",
            close: true,
            local: false,
        }),
    ),
    (
        b"\r\n\nPOST /a/b HTTP/1.1\r\nContent-Length: 0005\r\nContent-Length: 5\r\n\r\n12345",
        Ok(RequestView {
            op: b"a/b",
            token: 0,
            body: b"12345",
            close: false,
            local: false,
        }),
    ),
    (
        b"POST / HTTP/1.1\r\nX-AMZ-Target: v1.Arc.ListOps\r\nContent-Length: 0\r\n\r\n",
        Ok(RequestView {
            op: b"ListOps",
            token: 0,
            body: b"",
            close: false,
            local: false,
        }),
    ),
    (
        b"POST / HTTP/1.1\r\nx-amz-target: Op\r\nContent-Length: 0\r\nX-Arc-Token: 07\r\n\r\n",
        Ok(RequestView {
            op: b"Op",
            token: 7,
            body: b"",
            close: false,
            local: false,
        }),
    ),
    (
        b"POST /Op HTTP/1.1\r\nContent-Length: 0\r\nX-Arc-Read: snapshot\r\nConnection: CLOSE\r\n\r\n",
        Ok(RequestView {
            op: b"Op",
            token: 0,
            body: b"",
            close: true,
            local: true,
        }),
    ),
    (
        b"POST /Op HTTP/1.1\r\nContent-Length: 0\r\nx-arc-read: Snapshot\r\nConnection: close, x\r\n\r\n",
        Ok(OP),
    ),
];

const REFUSED: [Row; 19] = [
    (b"POST /Op HTTP/2.0", Err(HeadEnd::BadHead)),
    (b"POST /Op HTTP/1.1\r\nHost : a", Err(HeadEnd::BadHead)),
    (
        b"GET / HTTP/1.1\r\nHost: a\r\n\r\n",
        Err(HeadEnd::BadMethod),
    ),
    (b"post /Op HTTP/1.1\r\n\r\n", Err(HeadEnd::BadMethod)),
    (b"POST * HTTP/1.1\r\n\r\n", Err(HeadEnd::BadTarget)),
    (b"POST / HTTP/1.1\r\n\r\n", Err(HeadEnd::BadTarget)),
    (
        b"POST / HTTP/1.1\r\nX-Amz-Target: a.b\r\nX-Amz-Target: a.b\r\n\r\n",
        Err(HeadEnd::BadTarget),
    ),
    (
        b"POST /Op HTTP/1.1\r\nTransfer-Encoding: chunked\r\n\r\n",
        Err(HeadEnd::TransferCoding),
    ),
    (b"POST /Op HTTP/1.1\r\n\r\n", Err(HeadEnd::NoLength)),
    (
        b"POST /Op HTTP/1.1\r\nContent-Length: 18446744073709551616\r\n\r\n",
        Err(HeadEnd::BadLength),
    ),
    (
        b"POST /Op HTTP/1.1\r\nContent-Length: 5\r\nContent-Length: 6\r\n\r\n",
        Err(HeadEnd::BadLength),
    ),
    (
        b"POST /Op HTTP/1.1\r\nContent-Length: 5\r\nContent-Length: x\r\n\r\n",
        Err(HeadEnd::BadLength),
    ),
    (
        b"POST /Op HTTP/1.1\r\nContent-Length: +5\r\n\r\n",
        Err(HeadEnd::BadLength),
    ),
    (
        b"POST /Op HTTP/1.1\r\nContent-Length: 65537\r\n\r\n",
        Err(HeadEnd::BodyTooLong { length: 65_537 }),
    ),
    (
        b"POST /Op HTTP/1.1\r\nx-arc-token: x\r\nContent-Length: 65537\r\n\r\n",
        Err(HeadEnd::BodyTooLong { length: 65_537 }),
    ),
    (
        b"POST /Op HTTP/1.1\r\nContent-Length: 0\r\nx-arc-token: x\r\n\r\n",
        Err(HeadEnd::BadToken),
    ),
    (
        b"POST /Op HTTP/1.1\r\nContent-Length: 0\r\nx-arc-token: 000000000000000000001\r\n\r\n",
        Err(HeadEnd::BadToken),
    ),
    (
        b"POST /Op HTTP/1.1\r\nContent-Length: 0\r\nx-arc-token: 1\r\nx-arc-token: 1\r\n\r\n",
        Err(HeadEnd::BadToken),
    ),
    // one more than the highest token
    (
        b"POST /Op HTTP/1.1\r\nContent-Length: 0\r\nx-arc-token: 18446744073709551616\r\n\r\n",
        Err(HeadEnd::BadToken),
    ),
];

fn check_all(rt: &impl Abort, rows: &[Row]) {
    for (bytes, wanted) in rows {
        let wanted = wanted.map(|view| Some((view, bytes.len())));
        assert_eq!(rt; read_request(bytes), wanted);
    }
}

#[test]
fn a_head_is_read_or_refused_by_the_first_test_that_it_fails(rt: HostRuntime) {
    check_all(&rt, &READ);
    check_all(&rt, &REFUSED);
}
