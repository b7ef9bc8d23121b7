//! Reading one line.
ghost use Rattle.std.specs.Prelude.{◌≡◌, ◌==◌, map, IfOk};
ghost use Rattle.std.specs.List.{slice_split};
ghost use Rattle.arc_script.specs.Grammar.{slots_line, crash_line, restart_line, shaped, step_of_words, step_of_text, step_of};
ghost use Rattle.arc_script.specs.Reading.{Spells, Reads};
ghost use Rattle.arc_script.specs.Steps.{IsValidStep};

use crate::calls::{read_assert, read_batch, read_call, read_gate, read_get, read_new, read_set};
use crate::words::{cut, has_empty, parts_of, read_count, read_node};
use crate::{LineEnd, ScriptCode, Step};
use std::alloc::{AllocError, Global};

/// The most slots of a list.
const MOST_SLOTS: u64 = 16_384;

/// `slots N`
#[tactic(auto, unfolding(crate::specs::Grammar::slots_line))]
fn read_slots(fields: &[&str]) -> Result<Step, ScriptCode>
    ensures exact { result ≡ slots_line (map (λ field. field.now) fields.now) }
    ensures valid { IfOk result IsValidStep }
{
    let &[slots] = fields else {
        return Err(ScriptCode::Shape);
    };
    let n = read_count(MOST_SLOTS, slots)? as u32;
    Ok(Step::Slots { n })
}

/// `crash P`
#[tactic(auto, unfolding(crate::specs::Grammar::crash_line))]
fn read_crash(fields: &[&str]) -> Result<Step, ScriptCode>
    ensures exact { result ≡ crash_line (map (λ field. field.now) fields.now) }
    ensures valid { IfOk result IsValidStep }
{
    let &[node] = fields else {
        return Err(ScriptCode::Shape);
    };
    let node = read_node(node)?;
    Ok(Step::Crash { node })
}

/// `restart P`
#[tactic(auto, unfolding(crate::specs::Grammar::restart_line))]
fn read_restart(fields: &[&str]) -> Result<Step, ScriptCode>
    ensures exact { result ≡ restart_line (map (λ field. field.now) fields.now) }
    ensures valid { IfOk result IsValidStep }
{
    let &[node] = fields else {
        return Err(ScriptCode::Shape);
    };
    let node = read_node(node)?;
    Ok(Step::Restart { node })
}

/// The words after the first, none of which is empty.
#[tactic(auto, using(crate::proofs::Texts::any_by_map))]
fn read_fields<'a, 'b>(fields: &'b [&'a str]) -> Result<&'b [&'a str], ScriptCode>
    ensures { Spells (λ fields. map (λ field. field.now) fields.now) result
        (shaped (map (λ field. field.now) fields.now)) }
{
    if has_empty(fields) {
        return Err(ScriptCode::Shape);
    }
    Ok(fields)
}

/// The step that words spell. The first says which.
#[tactic(auto, unfolding(crate::specs::Grammar::step_of_words))]
fn read_words(alloc: Global, words: &[&str]) -> Result<Step, LineEnd>
    ensures exact { Reads result (step_of_words (map (λ word. word.now) words.now)) }
    ensures valid { IfOk result IsValidStep }
{
    let [first, fields @ ..] = words else {
        return Err(LineEnd::Bad(ScriptCode::Word));
    };
    match *first {
        "slots" => Ok(read_slots(read_fields(fields)?)?),
        "new" => read_new(alloc, read_fields(fields)?),
        "get" => read_get(read_fields(fields)?),
        "set" => read_set(alloc, read_fields(fields)?),
        "batch" => read_batch(alloc, read_fields(fields)?),
        "assert" => read_assert(alloc, read_fields(fields)?),
        "gate" => read_gate(alloc, read_fields(fields)?),
        "crash" => Ok(read_crash(read_fields(fields)?)?),
        "restart" => Ok(read_restart(read_fields(fields)?)?),
        _ => Err(LineEnd::Bad(ScriptCode::Word)),
    }
}

/// The words of a text, separated by one space.
fn words_of(alloc: Global, text: &str) -> Result<Vec<&str>, AllocError>
    ensures { IfOk result (λ words. map (λ word. word.now) words.items ≡ slice_split (λ b. b == 32) text.now) }
{
    parts_of(alloc, text, ' ')
}

/// The step that a text spells.
fn read_text(alloc: Global, text: &str) -> Result<Step, LineEnd>
    ensures exact { Reads result (step_of_text text.now) }
    ensures valid { IfOk result IsValidStep }
{
    let (first, rest) = cut(text, ' ');
    if first == "call" {
        return read_call(alloc, rest);
    }
    let words = words_of(alloc, text)?;
    read_words(alloc, words.as_slice())
}

/// The step that a line spells.
#[tactic(auto, using(crate::proofs::Texts::utf8_passes, crate::proofs::Texts::utf8_fails), unfolding(crate::specs::Grammar::step_of))]
pub fn read_step(alloc: Global, line: &[u8]) -> Result<Step, LineEnd>
    ensures exact { Reads result (step_of line.now) }
    ensures valid { IfOk result IsValidStep }
{
    let Ok(text) = std::str::from_utf8(line) else {
        return Err(LineEnd::Bad(ScriptCode::NotUtf8));
    };
    read_text(alloc, text)
}
