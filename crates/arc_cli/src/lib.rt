//! The words of the command line, read into the task that they ask for.
//!
//! It stands on `clap` for the positional words of a command, and on nothing of ours.
//!
//! The law that it keeps: a list of words is read exactly by the forms that `specs/` states: `drill`, `drill FILE` and
//! `gen N`, where N is from 1 to 4,000 and spelled as numbers in scripts are, and no word after the first begins with `-`.
//! Every other list is refused as `Usage`, and no memory is asked for before that is known.
#![tactic(auto)]

mod forms;
mod read;
mod task;

pub use read::read_words;
pub use task::{Task, WordsEnd};
