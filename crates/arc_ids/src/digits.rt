//! Numbers of 64 bits in sixteen hexadecimal digits.
ghost use Rattle.std.specs.Prelude.{◌≡◌, IfOk, string_bytes};
ghost use Rattle.std.specs.Result.{result_ok};
ghost use Rattle.arc_ids.specs.Texts.{digits_of, number_of_text};

use crate::BadId;
use arc_bytes::Memory;
use hex::FromHex;
use std::alloc::{AllocError, Global};

/// The sixteen digits of a number, in lower case.
#[tactic(auto, unfolding(crate::specs::Texts::digits_of))]
pub(crate) fn digits(alloc: Global, number: u64) -> Result<String, Memory>
    ensures { IfOk result (λ text. string_bytes text ≡ digits_of number) }
{
    Ok(hex::encode(alloc, number.to_be_bytes())?)
}

/// The number whose sixteen digits stand behind a front in a text, and nothing else.
#[tactic(auto, unfolding(crate::specs::Texts::number_of_text))]
pub(crate) fn number_of(front: &str, text: &str) -> Result<u64, BadId>
    ensures { result_ok result ≡ number_of_text front.now text.now }
{
    let Some(digits) = text.as_bytes().strip_prefix(front.as_bytes()) else {
        return Err(BadId);
    };
    match <[u8; 8] as FromHex>::from_hex(digits) {
        Ok(bytes) => Ok(u64::from_be_bytes(bytes)),
        Err(_) => Err(BadId),
    }
}
