//! The program `arc_stories` runs story files: small cases, each a script and the report that a drill of it is to give.
//!
//! `arc_stories FILE..` prints a line a file, what differs, and the sum; `arc_stories --rewrite FILE..` also puts what was
//! got into the files, for somebody who then reads each changed line. It ends with 0 where nothing differs, with 1 where
//! something does, with 2 where the words are no task, a file can't be read or written or isn't of the form, or the
//! output fails, and with 5 for want of memory.
//!
//! It stands on `arc_drill`: what it runs is the proved drill, over a source, a sink and five disks in memory.
//!
//! No promise rests on it. It is proved to be safe and to return.
#![tactic(auto)]

mod diff;
mod fault;
mod file;
mod line;
mod run;
mod story;
mod unroll;

use crate::file::{Counts, run_file};
use std::env::{self, Env};
use std::io::{self, ErrorKind};
use std::process::ExitCode;
use std::rt::Files;

fn main(rt: HostRuntime) -> ExitCode {
    match run_words(&rt) {
        Ok(status) => ExitCode::from(status),
        Err(error) if error.kind() == ErrorKind::OutOfMemory => ExitCode::from(5),
        Err(error) => {
            let _ = eprintln!(rt; "arc_stories: {error}");
            ExitCode::from(2)
        }
    }
}

/// Does what the program's words ask for, and answers the exit status.
fn run_words(rt: &(impl Env + Files + Print + Eprint + AllocGlobal)) -> io::Result<u8> {
    let words = env::args(rt)?.skip(1).collect::<Vec<String>>(rt.alloc())?;
    let (rewrites, paths) = match words.as_slice() {
        [word, paths @ ..] if word.as_str() == "--rewrite" => (true, paths),
        paths => (false, paths),
    };
    if paths.is_empty() || paths.iter().any(|path| path.as_str().starts_with('-')) {
        eprintln!(rt; "usage: arc_stories [--rewrite] FILE..")?;
        return Ok(2);
    }
    let mut counts = Counts::default();
    for path in paths {
        run_file(rt, path.as_str(), rewrites, &mut counts)?;
    }
    tell_sum(rt, counts)
}

/// Prints the last line, and answers the exit status.
fn tell_sum(rt: &impl Print, counts: Counts) -> io::Result<u8> {
    let Counts {
        cases,
        differ,
        files,
    } = counts;
    if files != 0 {
        println!(rt; "{cases} cases, {differ} differ, files not run: {files}")?;
        return Ok(2);
    }
    println!(rt; "{cases} cases, {differ} differ")?;
    Ok(if differ == 0 { 0 } else { 1 })
}
