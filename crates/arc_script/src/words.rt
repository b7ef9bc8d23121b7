//! Reading single words.
ghost use Rattle.std.specs.Prelude.{◌≡◌, ◌<◌, ◌≤◌, ◌==◌, length, map, IfOk};
ghost use Rattle.std.specs.Char.{is_ascii_digit};
ghost use Rattle.std.specs.List.{list_all, list_any, slice_split, before_first, after_first};
ghost use Rattle.arc_data.specs.Valid.{IsName};
ghost use Rattle.arc_script.specs.Words.{is_number, number_up_to, long_number, node_of, count_up_to, name_of, state_of};
ghost use Rattle.arc_script.specs.Grammar.{is_empty};
ghost use Rattle.arc_script.specs.Reading.{Spells};
ghost use Rattle.arc_script.specs.Steps.{IsBuilt};

use crate::ScriptCode;
use std::alloc::{AllocError, Global};

/// The highest node.
const LAST_NODE: u64 = 4;

/// Whether a word has digits alone.
fn are_digits(word: &[u8]) -> bool
    ensures { result ≡ list_all is_ascii_digit word.now }
{
    word.iter().all(|digit| digit.is_ascii_digit())
}

/// Whether a word is `0`, or digits that don't begin with 0.
#[tactic(auto, using(crate::proofs::Texts::digits_by_all))]
fn is_number(word: &[u8]) -> bool
    ensures { result ≡ is_number word.now }
{
    match word {
        [] => false,
        [digit] => digit.is_ascii_digit(),
        [first, ..] => *first != b'0' && are_digits(word),
    }
}

/// A number of at most so much.
#[tactic(auto, unfolding(crate::specs::Words::number_up_to))]
pub fn read_number(most: u64, word: &str) -> Result<u64, ScriptCode>
    ensures exact { result ≡ number_up_to most word.now }
    ensures within { IfOk result (λ n. n ≤ most) }
{
    if !is_number(word.as_bytes()) {
        return Err(ScriptCode::Number);
    }
    let Ok(number) = word.parse::<u64>() else {
        return Err(ScriptCode::Number);
    };
    if number > most {
        return Err(ScriptCode::Number);
    }
    Ok(number)
}

/// A number of 64 bits: a token, an identifier.
pub fn read_long(word: &str) -> Result<u64, ScriptCode>
    ensures { result ≡ long_number word.now }
{
    read_number(u64::MAX, word)
}

/// A count: a number from 1 to so much.
#[tactic(auto, unfolding(crate::specs::Words::count_up_to))]
pub fn read_count(most: u64, word: &str) -> Result<u64, ScriptCode>
    ensures exact { result ≡ count_up_to most word.now }
    ensures within { IfOk result (λ n. (1 ≤ n) × (n ≤ most)) }
{
    match read_number(most, word)? {
        0 => Err(ScriptCode::Number),
        count => Ok(count),
    }
}

/// A node. Of the five the first is built.
#[tactic(auto, unfolding(crate::specs::Words::node_of))]
pub fn read_node(word: &str) -> Result<u8, ScriptCode>
    ensures exact { result ≡ node_of word.now }
    ensures built { IfOk result IsBuilt }
{
    match read_number(LAST_NODE, word)? {
        0 => Ok(0),
        _ => Err(ScriptCode::Word),
    }
}

/// A name of 1 to 64 bytes.
#[tactic(auto, unfolding(crate::specs::Words::name_of))]
pub fn read_name(word: &str) -> Result<&str, ScriptCode>
    ensures exact { Spells (λ name. name.now) result (name_of word.now) }
    ensures within { IfOk result (λ name. IsName name.now) }
{
    if word.is_empty() || word.len() > 64 {
        return Err(ScriptCode::Name);
    }
    Ok(word)
}

/// A state: `true` for `On`.
#[tactic(auto, unfolding(crate::specs::Words::state_of))]
pub fn read_state(word: &str) -> Result<bool, ScriptCode>
    ensures { result ≡ state_of word.now }
{
    match word {
        "On" => Ok(true),
        "Off" => Ok(false),
        _ => Err(ScriptCode::State),
    }
}

/// What stands before the first such character, all of it where there is none, and what stands after it.
pub fn cut(text: &str, at: char) -> (&str, &str)
    requires { at < 128 }
    ensures before { result.0.now ≡ before_first (λ b. b == at) text.now }
    ensures after { result.1.now ≡ after_first (λ b. b == at) text.now }
{
    match text.split_once(at) {
        Some(parts) => parts,
        None => (text, ""),
    }
}

/// The parts of a text, such a character between each two.
pub fn parts_of(alloc: Global, text: &str, between: char) -> Result<Vec<&str>, AllocError>
    requires { between < 128 }
    ensures exact { IfOk result (λ parts.
        map (λ part. part.now) parts.items ≡ slice_split (λ b. b == between) text.now) }
    ensures some { IfOk result (λ parts. 1 ≤ length parts.items) }
{
    text.split(between).collect(alloc)
}

/// Whether a word is empty.
pub fn has_empty(words: &[&str]) -> bool
    ensures { result ≡ list_any (λ word. is_empty word.now) words.now }
{
    words.iter().any(|word| word.is_empty())
}
