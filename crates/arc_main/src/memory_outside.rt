//! An outside in memory, whose failures are chosen.
ghost use Rattle.std.specs.Prelude.{◌≡◌, ◌≢◌, ◌≤◌, ◌↔◌, ◌⊎◌, ℕ, List, Option, Some, Contains, is_ok, IfOk, IfSome, IsErr, IsSome};
ghost use Rattle.std.specs.Option.{option_copied};
ghost use Rattle.arc_bytes.specs.Counts.{HasCause, HasRisen, next_count};
ghost use Rattle.arc_main.specs.InMemory.{after_done, after_script, named_in, opens_in, source_of};

use crate::outside::Outside;
use arc_bytes::{Failed, MemorySource};
use std::marker::Model;
use std::mem;

/// An outside with standard input in memory, of which chosen calls fail. It tells everything.
#[derive(Drop)]
pub struct MemoryOutside {
    input: Vec<u8>,
    failing: Vec<u64>,
    failing_reads: Vec<u64>,
    calls: u64,
    faults: u64,
}

impl Model for MemoryOutside {
    ghost use Rattle.arc_main.specs.InMemory.{Held};

    ghost Value = { Held };

    ghost view = { λ s. record {
      input = s.input.items;
      failing = s.failing.items;
      failing_reads = s.failing_reads.items;
      calls = s.calls;
      faults = s.faults;
    } };
}

impl MemoryOutside {
    /// An outside with these bytes on standard input. The calls of `script` with the numbers `failing` fail, and of the
    /// source that it gives the reads with the numbers `failing_reads`; both are counted from 0.
    pub fn new(input: Vec<u8>, failing: Vec<u64>, failing_reads: Vec<u64>) -> MemoryOutside
        ensures { result ≡ record {
          input = input.items;
          failing = failing.items;
          failing_reads = failing_reads.items;
          calls = 0;
          faults = 0;
        } }
    {
        MemoryOutside {
            input,
            failing,
            failing_reads,
            calls: 0,
            faults: 0,
        }
    }

    /// How often a script couldn't be opened or read, up to 2^64 - 1.
    pub fn faults(&self) -> u64
        ensures { result ≡ self.now.faults }
    {
        self.faults
    }

    /// Counts a fault.
    fn fail(&mut self) -> Failed
        ensures counts { self.new ≡ record self.old { faults = next_count self.old.faults } }
        ensures later { self.old.faults ≤ self.new.faults }
    {
        self.faults = self.faults.saturating_add(1);
        Failed
    }
}

impl Outside for MemoryOutside {
    type Src = MemorySource;

    ghost named = { named_in };

    ghost opens = { opens_in };

    ghost faults = { λ s. s.faults };

    /// Takes standard input out, which is empty from then on. There are no files, so a path fails.
    fn script(&mut self, path: Option<&str>) -> Result<MemorySource, Failed>
        ensures opened { IfOk result (λ src.
            IfSome (named_in self.old (option_copied path.entry)) (λ bytes. Some src.left ≡ Some bytes)) }
        ensures unfailed { IfOk result (λ src. src.faults ≡ 0) }
        ensures told { IfSome (opens_in self.old (option_copied path.entry)) (λ can. is_ok result ≡ can) }
        ensures others { (other : Option (List ℕ)) → other ≢ option_copied path.entry →
            named_in self.new other ≡ named_in self.old other }
        ensures cause { HasCause self.old.faults self.new.faults result }
        // It fails exactly at the chosen calls and at a path.
        ensures fails { IsErr result ↔ (Contains self.old.failing self.old.calls ⊎ IsSome path.entry) }
        ensures gives { IfOk result (λ src. src ≡ source_of self.old) }
        ensures after { self.new ≡ after_script self.old result }
    {
        let call = self.calls;
        self.calls = call.saturating_add(1);
        if path.is_some() {
            return Err(self.fail());
        }
        if self.failing.contains(&call) {
            return Err(self.fail());
        }
        let alloc = *self.input.allocator();
        let input = mem::replace(&mut self.input, Vec::new(alloc));
        let failing_reads = mem::replace(&mut self.failing_reads, Vec::new(alloc));
        Ok(MemorySource::new(input, failing_reads))
    }

    fn done(&mut self, src: MemorySource)
        ensures same { (path : Option (List ℕ)) → named_in self.new path ≡ named_in self.old path }
        ensures later { self.old.faults ≤ self.new.faults }
        ensures unfailed { src.faults ≡ 0 → self.new.faults ≡ self.old.faults }
        ensures failed { src.faults ≢ 0 → HasRisen self.old.faults self.new.faults }
        ensures after { self.new ≡ after_done self.old src }
    {
        if src.faults() != 0 {
            let _ = self.fail();
        }
    }
}
