//! Bodies of requests: `read_op` beside `serde_json` alone on the same bytes.
use arc_json::{RequestEnd, read_op};
use serde_json::Value;
use std::alloc::Global;

/// How often a body is read.
const ROUNDS: usize = 10_000;

/// Reads a body as this operation, which is gone then.
fn read_once(alloc: Global, name: &str, body: &[u8]) -> Result<(), RequestEnd> {
    let op = read_op(alloc, name.as_bytes(), body)?;
    drop(op);
    Ok(())
}

/// Reads a body again and again as this operation, and tells how often it was one.
pub fn read(alloc: Global, name: &str, body: &[u8]) -> usize {
    let mut read: usize = 0;
    for _ in 0..ROUNDS {
        if read_once(alloc, name, body).is_ok() {
            read = read.wrapping_add(1);
        }
    }
    read
}

/// Reads a body again and again as JSON, and tells how often it was.
pub fn parse(alloc: Global, body: &[u8]) -> usize {
    let mut read: usize = 0;
    for _ in 0..ROUNDS {
        if Value::from_slice(alloc, body).is_ok() {
            read = read.wrapping_add(1);
        }
    }
    read
}
