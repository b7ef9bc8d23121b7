//! A story file as its cases.
//!
//! A file is some lines of prose, each empty or with a `#` in front, and then cases. A case is a line `== TITLE`; a script;
//! a separator, `----` or `---- status N` where the drill ends with a status other than 0; and the report, to which empty
//! lines at its end don't belong. In both parts loops stand for their lines (`unroll`).

use crate::fault::{Fault, Wrong};
use crate::line::Line;
use crate::unroll::{Unrolled, number, unroll};
use std::alloc::Global;

/// The file's lines, in the order in which they stand.
#[derive(Drop)]
pub struct Story<'a> {
    /// The lines before the first case.
    pub prose: &'a [Line<'a>],
    /// The cases, of which there is at least one.
    pub cases: Vec<Case<'a>>,
}

/// A case: what is run, and how it is to end.
#[derive(Drop)]
pub struct Case<'a> {
    /// The line of its title.
    pub title: Line<'a>,
    /// The lines of the script.
    pub script: &'a [Line<'a>],
    /// The line between script and report.
    pub separator: Line<'a>,
    /// The lines of the report.
    pub report: &'a [Line<'a>],
    /// The empty lines behind the report.
    pub behind: &'a [Line<'a>],
    /// The script that is run.
    pub input: Unrolled,
    /// The status that is wanted.
    pub status: u8,
    /// The report that is wanted.
    pub wanted: Unrolled,
}

impl<'a> Case<'a> {
    /// The title without the `== ` in front.
    pub fn title_text(&self) -> &'a [u8] {
        match self.title.text() {
            [b'=', b'=', b' ', text @ ..] => text,
            text => text,
        }
    }
}

/// Reads the lines of a file.
pub fn read_story<'a>(alloc: Global, lines: &'a [Line<'a>]) -> Result<Story<'a>, Fault> {
    let mut story = Story {
        prose: &[],
        cases: Vec::new(alloc),
    };
    for part in lines.chunk_by(|_, next| !is_title(next)) {
        match part {
            [title, body @ ..] if is_title(title) => {
                if story
                    .cases
                    .iter()
                    .any(|case| case.title.text() == title.text())
                {
                    return Err(Wrong::SameTitle.at(title.number));
                }
                story.cases.push(read_case(alloc, *title, body)?)?;
            }
            prose => story.prose = read_prose(prose)?,
        }
    }
    if story.cases.is_empty() {
        return Err(Wrong::NoCase.at(1));
    }
    Ok(story)
}

fn is_title(line: &Line<'_>) -> bool {
    line.text().starts_with(b"== ")
}

/// The lines before the first case, as they stand.
fn read_prose<'a>(lines: &'a [Line<'a>]) -> Result<&'a [Line<'a>], Fault> {
    for line in lines {
        if !matches!(line.text(), [] | [b'#', ..]) {
            return Err(Wrong::NoProse.at(line.number));
        }
    }
    Ok(lines)
}

/// The case with this title, of the lines up to the next title.
fn read_case<'a>(alloc: Global, title: Line<'a>, body: &'a [Line<'a>]) -> Result<Case<'a>, Fault> {
    let Some(at) = body
        .iter()
        .position(|line| line.text().starts_with(b"----"))
    else {
        return Err(Wrong::NoSeparator.at(title.number));
    };
    let (script, others) = body.split_at(at);
    let Some((separator, others)) = others.split_first() else {
        return Err(Wrong::NoSeparator.at(title.number));
    };
    let Some(status) = read_separator(separator.text()) else {
        return Err(Wrong::BadSeparator.at(separator.number));
    };
    let (report, behind) = without_empty_end(others);
    Ok(Case {
        title,
        script,
        separator: *separator,
        report,
        behind,
        input: unroll(alloc, script)?,
        status,
        wanted: unroll(alloc, report)?,
    })
}

/// The status that a separator says.
fn read_separator(text: &[u8]) -> Option<u8> {
    if text == b"----".as_slice() {
        return Some(0);
    }
    let digits = str::from_utf8(text.strip_prefix(b"---- status ")?).ok()?;
    match u8::try_from(number(digits)?) {
        Ok(0) | Err(_) => None,
        Ok(status) => Some(status),
    }
}

/// These lines up to the last that isn't empty, and the empty ones behind it.
fn without_empty_end<'a>(lines: &'a [Line<'a>]) -> (&'a [Line<'a>], &'a [Line<'a>]) {
    match lines.iter().rposition(|line| !line.text().is_empty()) {
        Some(last) => lines.split_at(last + 1),
        None => lines.split_at(0),
    }
}
