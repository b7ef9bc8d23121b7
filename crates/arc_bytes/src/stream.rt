//! Readers and writers of the standard library as a source and a sink: the trusted edge. As sources and sinks they tell no
//! content. What the reader or the writer itself tells of its bytes stands in a clause of each call.
ghost use Rattle.std.specs.Prelude.{◌≡◌, ◌≢◌, ◌<◌, ◌≤◌, [], ℕ, None, Ok, length, IfOk, OnOk};
ghost use Rattle.std.specs.Io.KnownBytes.{ReadConsumes};
ghost use Rattle.arc_bytes.specs.Counts.{HasCause, HasRisen};
ghost use Rattle.arc_bytes.specs.Stream.{WritesKnown, faults_after_read, faults_after_write};

use crate::counts::next_count;
use crate::{Failed, Sink, Source};
use std::io::{Read, Write};
use std::marker::Model;

/// A source over any reader. Clauses see the reader and the count of faults.
#[derive(Drop)]
pub struct StreamSource<R> {
    reader: R,
    faults: u64,
}

impl<R> Model for StreamSource<R> {
    ghost use Rattle.arc_bytes.specs.Stream.{Stream};

    ghost Value = { Stream R };

    ghost view = { λ s. record { inner = s.reader; faults = s.faults } };
}

impl<R: Read> StreamSource<R> {
    /// A source that reads from here.
    pub fn new(reader: R) -> StreamSource<R>
        ensures { result ≡ record { inner = reader; faults = 0 } }
    {
        StreamSource { reader, faults: 0 }
    }

    /// How many reads have failed, up to 2^64 - 1.
    pub fn faults(&self) -> u64
        ensures { result ≡ self.now.faults }
    {
        self.faults
    }
}

impl<R: Read> Source for StreamSource<R> {
    ghost left = { λ _. None };

    ghost faults = { λ s. s.faults };

    fn read(&mut self, buf: &mut [u8]) -> Result<usize, Failed>
        requires { 0 < length buf.old }
        ensures within { IfOk result (λ n. n ≤ length buf.old) }
        ensures cause { HasCause self.old.faults self.new.faults result }
        ensures stays { OnOk result (self.new.faults ≡ self.old.faults) }
        ensures count { self.new.faults ≡ faults_after_read self.old.faults result }
        // What the reader tells of the bytes that it has left.
        ensures known { ReadConsumes (R.remaining self.old.inner) (R.remaining self.new.inner) result buf.new }
    {
        match self.reader.read(buf) {
            Ok(n) => Ok(n),
            Err(_) => {
                self.faults = next_count(self.faults);
                Err(Failed)
            }
        }
    }
}

/// A sink over any writer. Clauses see the writer and the count of faults.
#[derive(Drop)]
pub struct StreamSink<W> {
    writer: W,
    faults: u64,
}

impl<W> Model for StreamSink<W> {
    ghost use Rattle.arc_bytes.specs.Stream.{Stream};

    ghost Value = { Stream W };

    ghost view = { λ s. record { inner = s.writer; faults = s.faults } };
}

impl<W: Write> StreamSink<W> {
    /// A sink that writes to here.
    pub fn new(writer: W) -> StreamSink<W>
        ensures { result ≡ record { inner = writer; faults = 0 } }
    {
        StreamSink { writer, faults: 0 }
    }

    /// How many writes have failed or took nothing of a piece, up to 2^64 - 1.
    pub fn faults(&self) -> u64
        ensures { result ≡ self.now.faults }
    {
        self.faults
    }
}

impl<W: Write> Sink for StreamSink<W> {
    ghost taken = { λ _. None };

    ghost faults = { λ s. s.faults };

    /// What it took has left the writer's buffer too, since the answer tells others that it is out.
    fn write(&mut self, bytes: &[u8]) -> Result<usize, Failed>
        ensures within { IfOk result (λ n. n ≤ length bytes.now) }
        ensures nothing_taken { result ≡ Ok 0 → bytes.now ≢ [] → HasRisen self.old.faults self.new.faults }
        ensures cause { HasCause self.old.faults self.new.faults result }
        ensures count { self.new.faults ≡ faults_after_write self.old.faults result bytes.now }
        // What the writer tells of the bytes that it holds.
        ensures known { WritesKnown (W.contents self.old.inner) (W.contents self.new.inner) result bytes.now }
    {
        match write_through(&mut self.writer, bytes) {
            Ok(n) => {
                if n == 0 && !bytes.is_empty() {
                    self.faults = next_count(self.faults);
                }
                Ok(n)
            }
            Err(Failed) => {
                self.faults = next_count(self.faults);
                Err(Failed)
            }
        }
    }
}

/// One write, and a flush behind it.
fn write_through<W: Write>(writer: &mut W, bytes: &[u8]) -> Result<usize, Failed>
    ensures within { IfOk result (λ n. n ≤ length bytes.now) }
    ensures known { WritesKnown (W.contents writer.old) (W.contents writer.new) result bytes.now }
{
    let Ok(n) = writer.write(bytes) else {
        return Err(Failed);
    };
    match writer.flush() {
        Ok(()) => Ok(n),
        Err(_) => Err(Failed),
    }
}
