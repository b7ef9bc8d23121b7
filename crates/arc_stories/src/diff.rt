//! Where what a case got differs from what it wants.

use crate::line::{Line, lines_of};
use crate::run::Ended;
use crate::story::Case;
use std::alloc::Global;
use std::io::{self, Write};

/// Whether a case ended just as it wants.
pub fn agrees(case: &Case<'_>, ended: &Ended) -> bool {
    case.status == ended.status && case.wanted.bytes.as_slice() == ended.report()
}

/// Tells where a case of this file differs: a line with its title; one with both statuses where these differ; and the
/// lines of the reports that differ, `-` before those that were wanted and `+` before those that were got. Each begins with
/// the file and the number of the line that is wanted there, or behind which something was got.
pub fn tell(told: &mut Vec<u8>, file: &str, case: &Case<'_>, ended: &Ended) -> io::Result<()> {
    let alloc = *told.allocator();
    tell_line(told, file, case.title.number, b"", case.title_text())?;
    if case.status != ended.status {
        let (wanted, got) = (case.status, ended.status);
        let number = case.separator.number;
        writeln!(
            told,
            "{file}:{number}: status {got}, and {wanted} is wanted"
        )?;
    }
    let wanted = case.wanted.lines(alloc)?;
    let got = lines_of(alloc, ended.report())?;
    tell_lines(told, file, case.separator.number, &wanted, &got)
}

/// Tells which lines differ between the first and the last that do. `at` is the number of the line before the wanted ones.
fn tell_lines(
    told: &mut Vec<u8>,
    file: &str,
    at: u64,
    wanted: &[Line<'_>],
    got: &[Line<'_>],
) -> io::Result<()> {
    let front = same_front(wanted, got);
    let (same, wanted) = cut(wanted, front);
    let (_, got) = cut(got, front);
    let end = same_end(wanted, got);
    let (wanted, _) = cut(wanted, wanted.len().saturating_sub(end));
    let (got, _) = cut(got, got.len().saturating_sub(end));
    let mut at = same.last().map_or(at, |line| line.number);
    for k in 0..wanted.len().max(got.len()) {
        let pair = (wanted.get(k), got.get(k));
        at = pair.0.map_or(at, |line| line.number);
        tell_pair(told, file, at, pair)?;
    }
    Ok(())
}

/// With how many lines that are the same both begin.
fn same_front(wanted: &[Line<'_>], got: &[Line<'_>]) -> usize {
    for (count, (a, b)) in wanted.iter().zip(got.iter()).enumerate() {
        if a.whole != b.whole {
            return count;
        }
    }
    wanted.len().min(got.len())
}

/// With how many lines that are the same both end.
fn same_end(wanted: &[Line<'_>], got: &[Line<'_>]) -> usize {
    for (count, (a, b)) in wanted.iter().rev().zip(got.iter().rev()).enumerate() {
        if a.whole != b.whole {
            return count;
        }
    }
    wanted.len().min(got.len())
}

/// The first lines, so many of them as there are, and the others.
fn cut<'a>(lines: &'a [Line<'a>], many: usize) -> (&'a [Line<'a>], &'a [Line<'a>]) {
    lines.split_at(many.min(lines.len()))
}

/// Tells the lines that were wanted and got in one place, unless they are the same.
fn tell_pair(
    told: &mut Vec<u8>,
    file: &str,
    at: u64,
    pair: (Option<&Line<'_>>, Option<&Line<'_>>),
) -> io::Result<()> {
    if let (Some(wanted), Some(got)) = pair
        && wanted.whole == got.whole
    {
        return Ok(());
    }
    if let Some(wanted) = pair.0 {
        tell_line(told, file, at, b"-", wanted.text())?;
    }
    if let Some(got) = pair.1 {
        tell_line(told, file, at, b"+", got.text())?;
    }
    Ok(())
}

fn tell_line(
    told: &mut Vec<u8>,
    file: &str,
    number: u64,
    sign: &[u8],
    text: &[u8],
) -> io::Result<()> {
    write!(told, "{file}:{number}: ")?;
    told.extend_from_slice(sign)?;
    told.extend_from_slice(text)?;
    told.push(b'\n')?;
    Ok(())
}
