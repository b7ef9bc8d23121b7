//! Header fields by their names, which are compared without regard to case.
ghost use Rattle.std.specs.Prelude.{◌≡◌, ◌<◌, ◌&&◌, [], ◌∷◌, length, map, MatchOption, IfSome};
ghost use Rattle.std.specs.Str.{bytes_eq, str_eq_ignore_ascii_case};
ghost use Rattle.httparse.specs.Borrowed.{header_parts};
ghost use Rattle.arc_http.specs.Asked.{has_value, has_word};
ghost use Rattle.arc_http.specs.Fields.{is_named, values_of};

use httparse::Header;

/// Whether a header has this name.
#[tactic(auto, using(crate::proofs::Texts::same_but_for_case))]
pub fn is_named(header: &Header<'_>, name: &str) -> bool
    ensures { result ≡ is_named name.now (header_parts header.now) }
{
    header.name.eq_ignore_ascii_case(name)
}

/// The value of the first header of this name, and the headers behind it.
pub fn next_value<'a, 'h>(
    headers: &'h [Header<'a>],
    name: &str,
) -> Option<(&'a [u8], &'h [Header<'a>])>
    ensures value { MatchOption result (values_of name.now (map header_parts headers.now) ≡ [])
        (λ found. values_of name.now (map header_parts headers.now)
        ≡ found.0.now ∷ values_of name.now (map header_parts found.1.now)) }
    ensures shorter { IfSome result (λ found. length found.1.now < length headers.now) }
{
    let mut rest = headers;
    while let [header, others @ ..] = rest {
        if is_named(header, name) {
            return Some((header.value, others));
        }
        rest = others;
    }
    None
}

/// Whether a header has this name and this very value.
fn has_both(header: &Header<'_>, name: &str, value: &[u8]) -> bool
    ensures { result ≡ (is_named name.now (header_parts header.now)
        && bytes_eq header.now.value.now value.now) }
{
    if !is_named(header, name) {
        return false;
    }
    header.value == value
}

/// Whether a header has this name and this value, in whatever case.
#[tactic(auto, using(crate::proofs::Texts::same_but_for_case))]
fn has_both_but_for_case(header: &Header<'_>, name: &str, word: &[u8]) -> bool
    ensures { result ≡ (is_named name.now (header_parts header.now)
        && str_eq_ignore_ascii_case header.now.value.now word.now) }
{
    if !is_named(header, name) {
        return false;
    }
    header.value.eq_ignore_ascii_case(word)
}

/// Whether a header of this name has this very value.
pub fn has_value(headers: &[Header<'_>], name: &str, value: &[u8]) -> bool
    ensures { result ≡ has_value name.now value.now (map header_parts headers.now) }
{
    let mut rest = headers;
    while let [header, others @ ..] = rest {
        if has_both(header, name, value) {
            return true;
        }
        rest = others;
    }
    false
}

/// Whether a header of this name has this value, in whatever case.
pub fn has_word(headers: &[Header<'_>], name: &str, word: &[u8]) -> bool
    ensures { result ≡ has_word name.now word.now (map header_parts headers.now) }
{
    let mut rest = headers;
    while let [header, others @ ..] = rest {
        if has_both_but_for_case(header, name, word) {
            return true;
        }
        rest = others;
    }
    false
}
