//! One story file: its cases are run, and what differs is told.

use crate::diff::{agrees, tell};
use crate::fault::Fault;
use crate::line::{Line, lines_of};
use crate::run::{Ended, run};
use crate::story::{Case, Story, read_story};
use arc_bytes::Memory;
use std::alloc::{AllocError, Global};
use std::fs;
use std::io::{self, ErrorKind, Write};
use std::rt::Files;

/// What became of the cases of some files.
#[derive(Clone, Copy, Default)]
pub struct Counts {
    /// How many cases were run.
    pub cases: u64,
    /// How many of these differ.
    pub differ: u64,
    /// How many files couldn't be run.
    pub files: u64,
}

/// Runs the cases of the file at this path, and prints its lines. Where it `rewrites`, the cases that differ then stand in
/// the file as they ended.
pub fn run_file(
    rt: &(impl Files + Print + AllocGlobal),
    path: &str,
    rewrites: bool,
    counts: &mut Counts,
) -> io::Result<()> {
    let bytes = match fs::read(rt, path) {
        Ok(bytes) => bytes,
        Err(error) if error.kind() == ErrorKind::OutOfMemory => return Err(error),
        Err(error) => {
            counts.files = counts.files.saturating_add(1);
            return println!(rt; "{path}: {error}");
        }
    };
    let lines = lines_of(rt.alloc(), &bytes)?;
    let story = match read_story(rt.alloc(), &lines) {
        Ok(story) => story,
        Err(Fault::Memory) => return Err(no_memory(Memory)),
        Err(Fault::Malformed { line, wrong }) => {
            counts.files = counts.files.saturating_add(1);
            return println!(rt; "{path}:{line}: {wrong}");
        }
    };
    let before = counts.differ;
    let ran = run_story(rt.alloc(), path, &story, counts)?;
    io::writer(rt).write_all(&ran.told)?;
    if rewrites && counts.differ != before {
        fs::write(rt, path, ran.rewritten)?;
    }
    Ok(())
}

/// What the cases of a file came to.
#[derive(Drop)]
struct Ran {
    /// What is told of them.
    told: Vec<u8>,
    /// The file, with the cases that differ as they ended.
    rewritten: Vec<u8>,
}

fn run_story(alloc: Global, path: &str, story: &Story<'_>, counts: &mut Counts) -> io::Result<Ran> {
    let mut told = Vec::new(alloc);
    let mut rewritten = Vec::new(alloc);
    let cases = story.cases.len();
    writeln!(told, "{path}: {cases} cases")?;
    add(&mut rewritten, story.prose)?;
    for case in story.cases.iter() {
        let ended = run(alloc, &case.input.bytes).map_err(no_memory)?;
        counts.cases = counts.cases.saturating_add(1);
        if agrees(case, &ended) {
            add_case(&mut rewritten, case)?;
        } else {
            counts.differ = counts.differ.saturating_add(1);
            tell(&mut told, path, case, &ended)?;
            add_ended(&mut rewritten, case, &ended)?;
        }
    }
    Ok(Ran { told, rewritten })
}

/// Adds lines as they stand.
fn add(bytes: &mut Vec<u8>, lines: &[Line<'_>]) -> Result<(), AllocError> {
    for line in lines {
        bytes.extend_from_slice(line.whole)?;
    }
    Ok(())
}

/// Adds a case as it stands.
fn add_case(bytes: &mut Vec<u8>, case: &Case<'_>) -> Result<(), AllocError> {
    bytes.extend_from_slice(case.title.whole)?;
    add(bytes, case.script)?;
    bytes.extend_from_slice(case.separator.whole)?;
    add(bytes, case.report)?;
    add(bytes, case.behind)
}

/// Adds a case with the status and the report that it ended with.
fn add_ended(bytes: &mut Vec<u8>, case: &Case<'_>, ended: &Ended) -> io::Result<()> {
    bytes.extend_from_slice(case.title.whole)?;
    add(bytes, case.script)?;
    match ended.status {
        0 => writeln!(bytes, "----")?,
        status => writeln!(bytes, "---- status {status}")?,
    }
    bytes.extend_from_slice(ended.report())?;
    add(bytes, case.behind)?;
    Ok(())
}

fn no_memory(_: Memory) -> io::Error {
    io::Error::from(ErrorKind::OutOfMemory)
}
