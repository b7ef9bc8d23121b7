//! Loops: `loop n 1 3` .. `endloop` stands for its lines for n = 1, 2 and 3.
//!
//! In these lines `{n}`, `{n+3}`, `{2n}` and `{2n+1}` stand for the number that they come to, and `{n+1:016x}` for at least
//! sixteen lower-case hexadecimal digits of it. What is no such place stays as it stands, also where its number passes
//! 2^64 - 1.

use crate::fault::{Fault, Wrong};
use crate::line::{Line, lines_of};
use std::alloc::{AllocError, Global};

/// Lines whose loops are unrolled.
#[derive(Drop)]
pub struct Unrolled {
    /// The lines, each ended by LF.
    pub bytes: Vec<u8>,
    /// The number of the line of the file that each of them comes from.
    numbers: Vec<u64>,
}

impl Unrolled {
    /// The lines, numbered as in the file.
    pub fn lines(&self, alloc: Global) -> Result<Vec<Line<'_>>, AllocError> {
        let mut lines = lines_of(alloc, &self.bytes)?;
        for (line, number) in lines.iter_mut().zip(self.numbers.iter()) {
            line.number = *number;
        }
        Ok(lines)
    }

    /// Adds the end of the line that was written behind the others.
    fn end_line(&mut self, number: u64) -> Result<(), AllocError> {
        self.bytes.push(b'\n')?;
        self.numbers.push(number)?;
        Ok(())
    }

    /// Adds a line as it stands.
    fn add(&mut self, line: Line<'_>) -> Result<(), AllocError> {
        self.bytes.extend_from_slice(line.text())?;
        self.end_line(line.number)
    }

    /// Adds the lines of a loop, once for each of its numbers.
    fn add_loop(&mut self, repeated: &Loop<'_>) -> Result<(), AllocError> {
        for n in repeated.from..=repeated.to {
            for line in repeated.body.iter() {
                fill(&mut self.bytes, line.text(), repeated.name, n)?;
                self.end_line(line.number)?;
            }
        }
        Ok(())
    }
}

/// A loop whose lines are being read.
#[derive(Drop)]
struct Loop<'a> {
    line: u64,
    name: &'a str,
    from: u64,
    to: u64,
    body: Vec<Line<'a>>,
}

/// Unrolls the loops of these lines.
pub fn unroll(alloc: Global, lines: &[Line<'_>]) -> Result<Unrolled, Fault> {
    let mut unrolled = Unrolled {
        bytes: Vec::new(alloc),
        numbers: Vec::new(alloc),
    };
    let mut begun = None;
    for line in lines {
        begun = match begun {
            None => next_outside(alloc, &mut unrolled, *line)?,
            Some(repeated) => next_inside(&mut unrolled, repeated, *line)?,
        };
    }
    match begun {
        None => Ok(unrolled),
        Some(repeated) => Err(Wrong::LoopWithoutEnd.at(repeated.line)),
    }
}

/// A line outside loops: it is added, or begins a loop.
fn next_outside<'a>(
    alloc: Global,
    unrolled: &mut Unrolled,
    line: Line<'a>,
) -> Result<Option<Loop<'a>>, Fault> {
    if line.text().starts_with(b"loop ") {
        return match read_loop(alloc, line) {
            Some(repeated) => Ok(Some(repeated)),
            None => Err(Wrong::BadLoop.at(line.number)),
        };
    }
    if line.text() == b"endloop".as_slice() {
        return Err(Wrong::EndWithoutLoop.at(line.number));
    }
    unrolled.add(line)?;
    Ok(None)
}

/// A line inside a loop: it is kept for later, or ends the loop.
fn next_inside<'a>(
    unrolled: &mut Unrolled,
    mut repeated: Loop<'a>,
    line: Line<'a>,
) -> Result<Option<Loop<'a>>, Fault> {
    if line.text().starts_with(b"loop ") {
        return Err(Wrong::LoopInLoop.at(line.number));
    }
    if line.text() == b"endloop".as_slice() {
        unrolled.add_loop(&repeated)?;
        return Ok(None);
    }
    repeated.body.push(line)?;
    Ok(Some(repeated))
}

/// The loop that a line `loop NAME FROM TO` begins.
fn read_loop<'a>(alloc: Global, line: Line<'a>) -> Option<Loop<'a>> {
    let words = str::from_utf8(line.text()).ok()?.strip_prefix("loop ")?;
    let (name, limits) = words.split_once(' ')?;
    let (from, to) = limits.split_once(' ')?;
    if name.is_empty() || !name.bytes().all(|byte| byte.is_ascii_lowercase()) {
        return None;
    }
    Some(Loop {
        line: line.number,
        name,
        from: number(from)?,
        to: number(to)?,
        body: Vec::new(alloc),
    })
}

/// The number that decimal digits spell.
pub fn number(digits: &str) -> Option<u64> {
    if digits.bytes().all(|byte| byte.is_ascii_digit()) {
        digits.parse().ok()
    } else {
        None
    }
}

/// Adds the text of a line, with the number `n` in the places of `name`.
fn fill(bytes: &mut Vec<u8>, text: &[u8], name: &str, n: u64) -> Result<(), AllocError> {
    let mut pieces = text.split(|byte| *byte == b'{');
    if let Some(front) = pieces.next() {
        bytes.extend_from_slice(front)?;
    }
    for piece in pieces {
        match read_place(piece, name, n) {
            Some((place, behind)) => {
                place.put(bytes)?;
                bytes.extend_from_slice(behind)?;
            }
            None => {
                bytes.push(b'{')?;
                bytes.extend_from_slice(piece)?;
            }
        }
    }
    Ok(())
}

/// A number in its place.
#[derive(Clone, Copy)]
enum Place {
    Decimal(u64),
    Hexadecimal { number: u64, width: u64 },
}

impl Place {
    fn put(self, bytes: &mut Vec<u8>) -> Result<(), AllocError> {
        let alloc = *bytes.allocator();
        match self {
            Place::Decimal(number) => {
                bytes.extend_from_slice(format!(in alloc; "{number}")?.as_bytes())
            }
            Place::Hexadecimal { number, width } => {
                let digits = format!(in alloc; "{number:x}")?;
                for _ in digits.len() as u64..width {
                    bytes.push(b'0')?;
                }
                bytes.extend_from_slice(digits.as_bytes())
            }
        }
    }
}

/// The number in the place that stands, but for its `{`, at the front of these bytes, and what is behind the place.
fn read_place<'a>(bytes: &'a [u8], name: &str, n: u64) -> Option<(Place, &'a [u8])> {
    let mut parts = bytes.splitn(2, |byte| *byte == b'}');
    let (inner, behind) = (parts.next()?, parts.next()?);
    let inner = str::from_utf8(inner).ok()?;
    let place = match inner.split_once(':') {
        None => Place::Decimal(value(inner, name, n)?),
        Some((sum, format)) => Place::Hexadecimal {
            number: value(sum, name, n)?,
            width: number(format.strip_prefix('0')?.strip_suffix('x')?)?,
        },
    };
    Some((place, behind))
}

/// What a sum as `n`, `2n` or `2n+1` comes to.
fn value(sum: &str, name: &str, n: u64) -> Option<u64> {
    let (product, more) = match sum.split_once('+') {
        None => (sum, 0),
        Some((product, more)) => (product, number(more)?),
    };
    let times = match product.strip_suffix(name)? {
        "" => 1,
        digits => number(digits)?,
    };
    times.checked_mul(n)?.checked_add(more)
}
