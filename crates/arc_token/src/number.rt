//! Reading numbers of decimal digits.
ghost use Rattle.std.specs.Prelude.{◌≡◌};
ghost use Rattle.std.specs.Char.{is_ascii_digit};
ghost use Rattle.std.specs.List.{list_all};
ghost use Rattle.arc_token.specs.Digits.{number_in};

/// Whether these bytes are decimal digits alone.
fn are_digits(bytes: &[u8]) -> bool
    ensures { result ≡ list_all is_ascii_digit bytes.now }
{
    bytes.iter().all(|byte| byte.is_ascii_digit())
}

/// The number below 2^64 that decimal digits spell, with leading zeros or without. `None` where these bytes are no such
/// digits.
#[tactic(auto, using(crate::proofs::Numbers::digits_utf8, crate::proofs::Numbers::parsed_number), unfolding(crate::specs::Digits::number_in))]
pub fn number_of(bytes: &[u8]) -> Option<u64>
    ensures { result ≡ number_in bytes.now }
{
    if bytes.is_empty() {
        return None;
    }
    if !are_digits(bytes) {
        return None;
    }
    let Ok(text) = std::str::from_utf8(bytes) else {
        return None;
    };
    text.parse::<u64>().ok()
}
