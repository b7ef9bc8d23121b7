//! Why a story file can't be run.

use std::alloc::{AllocError, AllocFailed};
use std::fmt;

/// Why a file can't be run.
#[derive(Clone, Copy)]
pub enum Fault {
    /// The file isn't of the form.
    Malformed {
        /// The number of the line at which this shows.
        line: u64,
        /// What is wrong with it.
        wrong: Wrong,
    },
    /// There was no memory left.
    Memory,
}

/// What is wrong with a line.
#[derive(Clone, Copy)]
pub enum Wrong {
    /// No case stands in the file.
    NoCase,
    /// It stands before the first case, isn't empty and doesn't begin with `#`.
    NoProse,
    /// An earlier case has this title.
    SameTitle,
    /// The case has no separator.
    NoSeparator,
    /// It begins like a separator and isn't one.
    BadSeparator,
    /// It begins like a loop and isn't one.
    BadLoop,
    /// The loop before it isn't ended.
    LoopInLoop,
    /// Nothing ends this loop.
    LoopWithoutEnd,
    /// It ends no loop.
    EndWithoutLoop,
}

impl Wrong {
    /// That the line with this number is wrong so.
    pub fn at(self, line: u64) -> Fault {
        Fault::Malformed { line, wrong: self }
    }

    fn text(self) -> &'static str {
        match self {
            Wrong::NoCase => "no line begins a case, as `== TITLE` does",
            Wrong::NoProse => "a line before the first case begins with `#`, or is empty",
            Wrong::SameTitle => "an earlier case has this title",
            Wrong::NoSeparator => "this case has no line `----`",
            Wrong::BadSeparator =>
                "this is neither `----` nor `---- status N`, with N from 1 to 255",
            Wrong::BadLoop => "this is no `loop NAME FROM TO`",
            Wrong::LoopInLoop => "this loop stands in another",
            Wrong::LoopWithoutEnd => "this loop has no `endloop`",
            Wrong::EndWithoutLoop => "this `endloop` has no loop",
        }
    }
}

impl fmt::Display for Wrong {
    fn fmt<W: fmt::Write>(&self, f: &mut fmt::Formatter<W>) -> fmt::Result {
        f.write_str(self.text())
    }
}

impl From<AllocError> for Fault {
    fn from(_: AllocError) -> Fault {
        Fault::Memory
    }
}

impl<T: Drop> From<AllocFailed<T>> for Fault {
    fn from(_: AllocFailed<T>) -> Fault {
        Fault::Memory
    }
}
