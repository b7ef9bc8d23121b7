//! Reading a whole script.
ghost use Rattle.std.specs.Prelude.{false, ◌≡◌, ◌+◌, ◌<◌, ◌≤◌, ℕ, List, [], ◌∷◌, length, MatchOption, IfSome, IfOk, IfErr, OnOk};
ghost use Rattle.std.specs.List.{All};
ghost use Rattle.std.specs.Str.Lines.{strip_carriage_return};
ghost use Rattle.arc_script.specs.declared.step.TheConstants.{MAX_SCRIPT};
ghost use Rattle.arc_script.specs.Grammar.{Gives, is_step, is_misplaced, lines_of, step_at, steps_from, steps_of};
ghost use Rattle.arc_script.specs.Reading.{behind, begun, Fails, Reads};
ghost use Rattle.arc_script.specs.Steps.{IsValidStep, SlotsComeFirst};

use crate::lines::read_step;
use crate::{LineEnd, MAX_SCRIPT, ScriptCode, ScriptEnd, Step};
use memchr::memchr;
use std::alloc::Global;

/// A line without the CR at its end.
fn without_cr(line: &[u8]) -> &[u8]
    ensures { result.now ≡ strip_carriage_return line.now }
{
    match line {
        [front @ .., b'\r'] => front,
        _ => line,
    }
}

/// The first line of a text, and what follows it, unless it is the last.
fn first_line(text: &[u8]) -> (&[u8], Option<&[u8]>)
    ensures lines { MatchOption result.1 (lines_of text.now ≡ result.0.now ∷ [])
        (λ rest. lines_of text.now ≡ result.0.now ∷ lines_of rest.now) }
    ensures shorter { IfSome result.1 (λ rest. length rest.now < length text.now) }
{
    match memchr(b'\n', text) {
        Some(end) => (without_cr(&text[..end]), Some(&text[end + 1..])),
        None => (without_cr(text), None),
    }
}

/// Whether a line is a step: it isn't empty, and doesn't begin with `#`.
fn is_step(line: &[u8]) -> bool
    ensures { result ≡ is_step line.now }
{
    !matches!(line, [] | [b'#', ..])
}

/// Whether a step may not stand behind those before it: only the first says how many slots there are.
fn is_misplaced(before: &[Step], step: &Step) -> bool
    ensures { result ≡ is_misplaced (begun before.now) step.now }
{
    match before {
        [] => false,
        [_, ..] => matches!(step, Step::Slots { .. }),
    }
}

/// The step of a line behind those before it.
fn read_placed(alloc: Global, before: &[Step], line: &[u8]) -> Result<Step, LineEnd>
    ensures exact { Reads result (step_at (begun before.now) line.now) }
    ensures valid { IfOk result IsValidStep }
    ensures placed { IfOk result (λ step. is_misplaced (begun before.now) step ≡ false) }
{
    let step = read_step(alloc, line)?;
    if is_misplaced(before, &step) {
        return Err(LineEnd::Bad(ScriptCode::Slots));
    }
    Ok(step)
}

/// Reads the line of this number, and adds the step that it may be to those before it.
fn read_line(
    alloc: Global,
    number: u32,
    line: &[u8],
    steps: &mut Vec<Step>,
) -> Result<(), ScriptEnd>
    // Whatever lines follow, they are read behind the steps so far.
    ensures ok { OnOk result ((lines : List (List ℕ)) →
        behind steps.old.items (steps_from (begun steps.old.items) number (line.now ∷ lines))
        ≡ behind steps.new.items (steps_from (begun steps.new.items) (number + 1) lines)) }
    ensures err { IfErr result (λ end. (lines : List (List ℕ)) →
        Fails end (steps_from (begun steps.old.items) number (line.now ∷ lines))) }
    ensures valid { OnOk result (All IsValidStep steps.old.items → All IsValidStep steps.new.items) }
    ensures first { OnOk result (SlotsComeFirst steps.old.items → SlotsComeFirst steps.new.items) }
{
    if !is_step(line) {
        return Ok(());
    }
    match read_placed(alloc, steps.as_slice(), line) {
        Ok(step) => match steps.push(step) {
            Ok(()) => Ok(()),
            Err(_) => Err(ScriptEnd::Memory),
        },
        Err(LineEnd::Bad(code)) => Err(ScriptEnd::BadScript { line: number, code }),
        Err(LineEnd::Memory) => Err(ScriptEnd::Memory),
    }
}

/// The steps of the lines of a text.
fn read_lines(alloc: Global, text: &[u8]) -> Result<Vec<Step>, ScriptEnd>
    requires { length text.now ≤ MAX_SCRIPT }
    ensures exact { Gives (λ steps. steps.items) result (steps_from false 1 (lines_of text.now)) }
    ensures valid { IfOk result (λ steps. All IsValidStep steps.items) }
    ensures first { IfOk result (λ steps. SlotsComeFirst steps.items) }
{
    let mut steps = Vec::new(alloc);
    let mut rest = text;
    let mut number = 1;
    loop {
        let (line, others) = first_line(rest);
        read_line(alloc, number, line, &mut steps)?;
        let Some(others) = others else {
            return Ok(steps);
        };
        rest = others;
        number += 1;
    }
}

/// Reads a script: its steps, or its first bad line.
#[tactic(auto, unfolding(crate::specs::Grammar::steps_of))]
pub fn read_script(alloc: Global, bytes: &[u8]) -> Result<Vec<Step>, ScriptEnd>
    ensures exact { Gives (λ steps. steps.items) result (steps_of bytes.now) }
    ensures valid { IfOk result (λ steps. All IsValidStep steps.items) }
    ensures first { IfOk result (λ steps. SlotsComeFirst steps.items) }
{
    if bytes.len() > MAX_SCRIPT {
        return Err(ScriptEnd::BadScript {
            line: 0,
            code: ScriptCode::TooLong,
        });
    }
    read_lines(alloc, bytes)
}
