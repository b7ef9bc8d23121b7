//! Requests of the worked session's size: `read_request` beside `httparse` alone on the same bytes.
use arc_http::read_request;
use httparse::{EMPTY_HEADER, Request, Status};
use std::alloc::Global;

/// One request of the worked session.
const REQUEST: &[u8] =
    b"POST /GetRoutingControlState HTTP/1.1\r\nHost: a\r\nContent-Length: 56\r\n\r\n{\"RoutingControlArn\":\"arn:arc:control/0000000000000001\"}";

/// How long it is, in bytes.
const SIZE: usize = 126;

/// How many requests stand in the buffer, back to back, and how often it is read.
const REQUESTS: usize = 1_000;

const ROUNDS: u32 = 100;

/// Reads 100,000 requests, and adds up their lengths.
pub fn read(alloc: Global) -> usize {
    let Ok(bytes) = REQUEST.repeat(alloc, REQUESTS) else {
        return 0;
    };
    let mut total: usize = 0;
    for _ in 0..ROUNDS {
        total = total.wrapping_add(read_each(&bytes));
    }
    total
}

/// Reads each request, and adds up their lengths.
fn read_each(bytes: &[u8]) -> usize {
    let mut total: usize = 0;
    for request in bytes.chunks(SIZE) {
        if let Ok(Some((_, size))) = read_request(request) {
            total = total.wrapping_add(size);
        }
    }
    total
}

/// Parses 100,000 heads alone, and adds up their lengths.
pub fn parse(alloc: Global) -> usize {
    let Ok(bytes) = REQUEST.repeat(alloc, REQUESTS) else {
        return 0;
    };
    let mut total: usize = 0;
    for _ in 0..ROUNDS {
        total = total.wrapping_add(parse_each(&bytes));
    }
    total
}

/// Parses each head alone, and adds up their lengths.
fn parse_each(bytes: &[u8]) -> usize {
    let mut total: usize = 0;
    for request in bytes.chunks(SIZE) {
        let mut headers = [EMPTY_HEADER; 64];
        let mut head = Request::new(&mut headers);
        if let Ok(Status::Complete(size)) = head.parse(request) {
            total = total.wrapping_add(size);
        }
    }
    total
}
