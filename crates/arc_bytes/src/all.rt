//! A whole input, and a whole piece of output.
ghost use Rattle.std.specs.Prelude.{◌≡◌, ◌≢◌, ◌<◌, ◌≤◌, length, Err, IfOk, IfSome, IsErrOf};
ghost use Rattle.arc_bytes.specs.Counts.{HasCause, HasRisen};
ghost use Rattle.arc_bytes.specs.All.{ReadsAll, WritesAll};

use crate::{Failed, Sink, Source};
use std::alloc::Global;

/// How reading to the end of an input went wrong.
#[derive(Clone, Copy, Debug, PartialEq, Eq)]
pub enum ReadEnd {
    /// The source failed: its count of faults rose.
    Failed,
    /// More bytes were given than this limit.
    TooLong {
        /// The most bytes that the caller takes.
        limit: usize,
    },
    /// There was no memory left for the bytes.
    Memory,
}

/// How many bytes are asked for at once.
const PIECE: usize = 16 * 1024;

/// Reads to the end of the input, which may have at most `limit` bytes. What came before an error is lost.
pub fn read_all<S: Source>(alloc: Global, src: &mut S, limit: usize) -> Result<Vec<u8>, ReadEnd>
    ensures reads { ReadsAll (S.left src.old) (S.left src.new) limit result }
    // The same, where the source tells what is left: all of it, or it is longer than the limit.
    ensures whole { IfOk result (λ bytes. IfSome (S.left src.old) (λ left. bytes.items ≡ left)) }
    ensures long { IsErrOf result (ReadEnd.TooLong limit) →
        IfSome (S.left src.old) (λ left. limit < length left) }
    ensures later { S.faults src.old ≤ S.faults src.new }
    ensures failed { IsErrOf result ReadEnd.Failed →
        HasRisen (S.faults src.old) (S.faults src.new) }
    // No other answer covers a fault.
    ensures stays { result ≢ Err ReadEnd.Failed → S.faults src.new ≡ S.faults src.old }
{
    let mut bytes = Vec::new(alloc);
    let mut piece = [0; PIECE];
    loop {
        let n = match src.read(&mut piece) {
            Ok(0) => return Ok(bytes),
            Ok(n) => n,
            Err(Failed) => return Err(ReadEnd::Failed),
        };
        if n > limit - bytes.len() {
            return Err(ReadEnd::TooLong { limit });
        }
        if bytes.extend_from_slice(&piece[..n]).is_err() {
            return Err(ReadEnd::Memory);
        }
    }
}

/// Writes all of these bytes. After `Failed` a prefix of them went out, which may be empty.
pub fn write_all<K: Sink>(out: &mut K, bytes: &[u8]) -> Result<(), Failed>
    ensures writes { WritesAll (K.taken out.old) (K.taken out.new) result bytes.now }
    ensures cause { HasCause (K.faults out.old) (K.faults out.new) result }
{
    let mut done = 0;
    while done < bytes.len() {
        match out.write(&bytes[done..]) {
            Ok(0) => return Err(Failed),
            Ok(n) => done += n,
            Err(Failed) => return Err(Failed),
        }
    }
    Ok(())
}
