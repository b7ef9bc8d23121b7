//! The bytes of responses.
use arc_http::response;
use arc_token::Token;
use std::test::Fail;

#[test]
fn a_response_has_its_headers_in_order(rt: HostRuntime) -> Result<(), Fail> {
    let text = response(rt.alloc(), 404, Some(Token(1)), false, b"{}")?;
    assert_eq!(rt;
        text.as_slice(),
        b"HTTP/1.1 404 Not Found\r\nContent-Type: application/json\r\nContent-Length: 2\r\nx-arc-token: 1\r\n\r\n{}".as_slice()
    );
    let text = response(rt.alloc(), 503, Some(Token(u64::MAX)), true, b"")?;
    assert_eq!(rt;
        text.as_slice(),
        b"HTTP/1.1 503 Service Unavailable\r\nContent-Type: application/json\r\nContent-Length: 0\r\nx-arc-token: 18446744073709551615\r\nConnection: close\r\n\r\n".as_slice()
    );
    let text = response(rt.alloc(), 200, None, false, b"")?;
    assert_eq!(rt;
        text.as_slice(),
        b"HTTP/1.1 200 OK\r\nContent-Type: application/json\r\nContent-Length: 0\r\n\r\n".as_slice()
    );
    Ok(())
}
