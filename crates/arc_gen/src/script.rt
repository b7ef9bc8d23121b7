//! The whole script.
ghost use Rattle.std.specs.Prelude.{◌≡◌, ◌≤◌, ◌++◌, IfOk, OnOk};
ghost use Rattle.arc_gen.specs.Script.{drawn_lines, ended, script_text};

use crate::lines::{add_line, next_drawn};
use arc_bytes::Memory;
use std::alloc::Global;

/// The lines that come first in every script: eight controls, an assertion and a gate.
const FIRST_LINES: &str =
    "new 0 0 0 c1\nnew 0 0 0 c2\nnew 0 0 0 c3\nnew 0 0 0 c4\nnew 0 0 0 c5\nnew 0 0 0 c6\nnew 0 0 0 c7\nnew 0 0 0 c8\nassert 0 0 0 r1 ATLEAST:1 0 1,2,3,4\ngate 0 0 0 r2 OR 1000 5,6 7,8\n";

/// The lines that come last in every script.
const LAST_LINES: &str = "lists\nsum\n";

/// The generated script of a size: how many of its lines are drawn, from 1 to 4,000.
#[tactic(auto, using(crate::proofs::Pieces::whole))]
pub fn script_of(alloc: Global, size: u32) -> Result<Vec<u8>, Memory>
    requires some { 1 ≤ size }
    requires within { size ≤ 4000 }
    ensures { IfOk result (λ text. text.items ≡ script_text size) }
{
    let mut text = FIRST_LINES.as_bytes().to_vec(alloc)?;
    add_drawn(alloc, &mut text, u64::from(size))?;
    text.extend_from_slice(LAST_LINES.as_bytes())?;
    Ok(text)
}

/// Adds the lines that are drawn.
fn add_drawn(alloc: Global, text: &mut Vec<u8>, size: u64) -> Result<(), Memory>
    requires { size ≤ 4000 }
    ensures { OnOk result (text.new.items ≡ text.old.items ++ ended (drawn_lines size size)) }
{
    let mut number = size;
    let mut place = 0;
    while place < size {
        number = next_drawn(number);
        place += 1;
        add_line(alloc, text, place, number / 65_536)?;
    }
    Ok(())
}
