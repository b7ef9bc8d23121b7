//! A sink in memory, whose failures are chosen.
ghost use Rattle.std.specs.Prelude.{◌≡◌, ◌≢◌, ◌+◌, ◌<◌, ◌≤◌, [], Some, Ok, length, Contains, IfOk, IsErr, OnErr, OnOk};
ghost use Rattle.arc_bytes.specs.Counts.{HasCause, HasRisen};
ghost use Rattle.arc_bytes.specs.InMemory.{after_write};
ghost use Rattle.arc_bytes.specs.Sink.{Writes};

use crate::counts::next_count;
use crate::{Failed, Memory, Sink};
use std::alloc::Global;
use std::marker::Model;

/// A sink that keeps in memory what it takes, and of which chosen calls fail. It tells everything.
#[derive(Drop)]
pub struct MemorySink {
    bytes: Vec<u8>,
    failing: Vec<u64>,
    calls: u64,
    faults: u64,
}

impl Model for MemorySink {
    ghost use Rattle.std.specs.Prelude.{vec_capacity};
    ghost use Rattle.arc_bytes.specs.InMemory.{Output};

    ghost Value = { Output };

    ghost view = { λ s. record {
      taken = s.bytes.items;
      capacity = vec_capacity s.bytes;
      failing = s.failing.items;
      calls = s.calls;
      faults = s.faults;
    } };
}

impl MemorySink {
    /// A sink that has taken nothing. The calls of `write` with these numbers, counted from 0, fail.
    pub fn new(alloc: Global, failing: Vec<u64>) -> MemorySink
        ensures { result ≡ record {
          taken = [];
          capacity = 0;
          failing = failing.items;
          calls = 0;
          faults = 0;
        } }
    {
        MemorySink {
            bytes: Vec::new(alloc),
            failing,
            calls: 0,
            faults: 0,
        }
    }

    /// Makes room for this many bytes more, so that a write within it fails only where it was chosen.
    pub fn reserve(&mut self, more: usize) -> Result<(), Memory>
        ensures room { OnOk result (length self.old.taken + more ≤ self.new.capacity) }
        ensures short { OnErr result (self.old.capacity < length self.old.taken + more) }
        ensures others { self.new ≡ record self.old { capacity = self.new.capacity } }
        ensures kept { self.old.capacity ≤ self.new.capacity }
    {
        self.bytes.reserve(more)?;
        Ok(())
    }

    /// The bytes that it has taken.
    pub fn bytes(&self) -> &[u8]
        ensures { result.now ≡ self.now.taken }
    {
        self.bytes.as_slice()
    }

    /// How many writes have failed, up to 2^64 - 1.
    pub fn faults(&self) -> u64
        ensures { result ≡ self.now.faults }
    {
        self.faults
    }
}

impl Sink for MemorySink {
    ghost taken = { λ s. Some s.taken };

    ghost faults = { λ s. s.faults };

    fn write(&mut self, bytes: &[u8]) -> Result<usize, Failed>
        ensures within { IfOk result (λ n. n ≤ length bytes.now) }
        ensures writes { Writes (Some self.old.taken) (Some self.new.taken) result bytes.now }
        ensures nothing_taken { result ≡ Ok 0 → bytes.now ≢ [] → HasRisen self.old.faults self.new.faults }
        ensures cause { HasCause self.old.faults self.new.faults result }
        // It fails at the chosen calls, and elsewhere only where it has no memory for the piece.
        ensures chosen { Contains self.old.failing self.old.calls → IsErr result }
        ensures room { length self.old.taken + length bytes.now ≤ self.old.capacity → IsErr result →
            Contains self.old.failing self.old.calls }
        // A write that doesn't fail takes the whole piece, and one that fails takes nothing.
        ensures whole { IfOk result (λ n. n ≡ length bytes.now) }
        ensures after { self.new ≡ after_write self.old result bytes.now self.new.capacity }
        ensures kept { self.old.capacity ≤ self.new.capacity }
    {
        let call = self.calls;
        self.calls = next_count(call);
        if self.failing.contains(&call) {
            self.faults = next_count(self.faults);
            return Err(Failed);
        }
        if self.bytes.extend_from_slice(bytes).is_err() {
            self.faults = next_count(self.faults);
            return Err(Failed);
        }
        Ok(bytes.len())
    }
}
