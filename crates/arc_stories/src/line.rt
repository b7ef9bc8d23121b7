//! Lines of bytes.

use std::alloc::{AllocError, Global};

/// A line, and where it stands.
#[derive(Clone, Copy)]
pub struct Line<'a> {
    /// Its number in the file, counted from 1.
    pub number: u64,
    /// Its bytes, with the LF that ends it; the last line of a file may lack that.
    pub whole: &'a [u8],
}

impl<'a> Line<'a> {
    /// Its bytes without the LF.
    pub fn text(&self) -> &'a [u8] {
        match self.whole {
            [text @ .., b'\n'] => text,
            text => text,
        }
    }
}

/// The lines of these bytes.
pub fn lines_of(alloc: Global, bytes: &[u8]) -> Result<Vec<Line<'_>>, AllocError> {
    let mut lines = Vec::new(alloc);
    for (number, whole) in (1..u64::MAX).zip(bytes.split_inclusive(|byte| *byte == b'\n')) {
        lines.push(Line { number, whole })?;
    }
    Ok(lines)
}
