//! The real outside: standard input. It tells no content.
ghost use Rattle.std.specs.Prelude.{◌≡◌, ◌≢◌, ◌≤◌, ℕ, Option, List, None, IfOk};
ghost use Rattle.arc_bytes.specs.Counts.{HasCause, HasRisen};

use crate::outside::Outside;
use arc_bytes::{Failed, StreamSource};
use std::env;
use std::io::{self, ErrorKind, Stdin};
use std::marker::Model;

/// Standard input as the one place that a script comes from. Clauses see its count of faults.
#[derive(Drop)]
pub struct Standard {
    input: Stdin,
    faults: u64,
}

impl Model for Standard {
    ghost use Rattle.std.specs.Prelude.{ℕ};

    ghost Value = { ℕ };

    ghost view = { λ s. s.faults };
}

impl Standard {
    /// The outside of a program with this standard input.
    pub fn new(input: Stdin) -> Standard
        ensures { result ≡ 0 }
    {
        Standard { input, faults: 0 }
    }
}

impl Outside for Standard {
    type Src = StreamSource<Stdin>;

    ghost named = { λ _ _. None };

    ghost opens = { λ _ _. None };

    ghost faults = { λ s. s };

    /// Scripts in files aren't built: a path fails.
    fn script(&mut self, path: Option<&str>) -> Result<StreamSource<Stdin>, Failed> {
        if path.is_some() {
            self.faults = self.faults.saturating_add(1);
            return Err(Failed);
        }
        Ok(StreamSource::new(self.input))
    }

    fn done(&mut self, src: StreamSource<Stdin>) {
        if src.faults() != 0 {
            self.faults = self.faults.saturating_add(1);
        }
    }
}

/// The words after the program's name. Words that aren't text are no task, so they count as none.
pub fn words_of(rt: &(impl env::Env + AllocGlobal)) -> io::Result<Vec<String>> {
    let words = match env::args(rt) {
        Ok(words) => words,
        Err(error) if error.kind() == ErrorKind::OutOfMemory => return Err(error),
        Err(_) => return Ok(Vec::new(rt.alloc())),
    };
    let mut kept = Vec::new(rt.alloc());
    for word in words.skip(1) {
        kept.push(word)?;
    }
    Ok(kept)
}
