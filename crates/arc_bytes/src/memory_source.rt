//! A source in memory, whose failures are chosen.
ghost use Rattle.std.specs.Prelude.{◌≡◌, ◌<◌, ◌≤◌, ◌↔◌, ◌++◌, drop, take, Some, length, min, Contains, IfOk, IsErr, OnOk};
ghost use Rattle.arc_bytes.specs.Counts.{HasCause};
ghost use Rattle.arc_bytes.specs.InMemory.{after_read};
ghost use Rattle.arc_bytes.specs.Source.{Reads};

use crate::counts::next_count;
use crate::{Failed, Source};
use std::marker::Model;

/// A source over bytes in memory, of which chosen calls fail. It tells everything.
#[derive(Drop)]
pub struct MemorySource {
    bytes: Vec<u8>,
    at: usize,
    failing: Vec<u64>,
    calls: u64,
    faults: u64,
}

impl Model for MemorySource {
    ghost use Rattle.std.specs.Prelude.{◌≤◌, drop, length};
    ghost use Rattle.arc_bytes.specs.InMemory.{Input};

    ghost Value = { Input };

    ghost view = { λ s. record {
      left = drop s.at s.bytes.items;
      failing = s.failing.items;
      calls = s.calls;
      faults = s.faults;
    } };

    ghost invariant = { λ s. s.at ≤ length s.bytes.items };
}

impl MemorySource {
    /// A source that gives these bytes. The calls of `read` with these numbers, counted from 0, fail.
    pub fn new(bytes: Vec<u8>, failing: Vec<u64>) -> MemorySource
        ensures { result ≡ record {
          left = bytes.items;
          failing = failing.items;
          calls = 0;
          faults = 0;
        } }
    {
        MemorySource {
            bytes,
            at: 0,
            failing,
            calls: 0,
            faults: 0,
        }
    }

    /// How many reads have failed, up to 2^64 - 1.
    pub fn faults(&self) -> u64
        ensures { result ≡ self.now.faults }
    {
        self.faults
    }
}

impl Source for MemorySource {
    ghost left = { λ s. Some s.left };

    ghost faults = { λ s. s.faults };

    fn read(&mut self, buf: &mut [u8]) -> Result<usize, Failed>
        requires { 0 < length buf.old }
        ensures within { IfOk result (λ n. n ≤ length buf.old) }
        ensures reads { Reads (Some self.old.left) (Some self.new.left) result buf.new }
        ensures cause { HasCause self.old.faults self.new.faults result }
        ensures stays { OnOk result (self.new.faults ≡ self.old.faults) }
        // It fails exactly at the chosen calls, and otherwise gives as much as there is room for.
        ensures fails { IsErr result ↔ Contains self.old.failing self.old.calls }
        ensures gives { IfOk result (λ n. n ≡ min (length buf.old) (length self.old.left)) }
        ensures after { self.new ≡ after_read self.old result }
    {
        let call = self.calls;
        self.calls = next_count(call);
        if self.failing.contains(&call) {
            self.faults = next_count(self.faults);
            return Err(Failed);
        }
        let n = copy_front(&self.bytes[self.at..], buf);
        self.at += n;
        Ok(n)
    }
}

/// Copies as many bytes as both have, and answers how many.
fn copy_front(from: &[u8], to: &mut [u8]) -> usize
    ensures count { result ≡ min (length from.now) (length to.old) }
    ensures copied { to.new ≡ take result from.now ++ drop result to.old }
{
    let n = from.len().min(to.len());
    to[..n].copy_from_slice(&from[..n]);
    n
}
