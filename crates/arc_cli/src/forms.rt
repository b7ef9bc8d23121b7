//! Which words have a form.
ghost use Rattle.std.specs.Prelude.{◌≡◌, ◌≤◌, map, string_bytes, IfSome};
ghost use Rattle.std.specs.Char.{is_ascii_digit};
ghost use Rattle.std.specs.List.{list_all};
ghost use Rattle.arc_cli.specs.Forms.{is_count, is_drill, is_option, size_of};

/// The largest size of a generated script.
const MOST_LINES: u32 = 4_000;

/// Whether a word is the name of an option, of which there are none.
fn is_option(word: &[u8]) -> bool
    ensures { result ≡ is_option word.now }
{
    matches!(word, [b'-', ..])
}

/// Whether the words after `drill` are one path or none.
pub(crate) fn is_drill(fields: &[String]) -> bool
    ensures { result ≡ is_drill (map string_bytes fields.now) }
{
    match fields {
        [] => true,
        [path] => !is_option(path.as_bytes()),
        _ => false,
    }
}

/// Whether a word has digits alone.
fn are_digits(word: &[u8]) -> bool
    ensures { result ≡ list_all is_ascii_digit word.now }
{
    word.iter().all(|digit| digit.is_ascii_digit())
}

/// Whether a word is a number above 0 as it is printed.
#[tactic(auto, using(crate::proofs::Numbers::digits_by_all))]
fn is_count(word: &[u8]) -> bool
    ensures { result ≡ is_count word.now }
{
    match word {
        [] => false,
        [first, ..] => *first != b'0' && are_digits(word),
    }
}

/// The size that a word says.
#[tactic(auto, unfolding(crate::specs::Forms::size_of))]
pub(crate) fn size_of(word: &str) -> Option<u32>
    ensures exact { result ≡ size_of word.now }
    ensures within { IfSome result (λ n. (1 ≤ n) × (n ≤ 4000)) }
{
    if !is_count(word.as_bytes()) {
        return None;
    }
    let Ok(size) = word.parse::<u32>() else {
        return None;
    };
    if size < 1 || size > MOST_LINES {
        return None;
    }
    Some(size)
}
