//! The digits of a token.
ghost use Rattle.std.specs.Prelude.{◌≡◌, ◌≤◌, ℕ, List, drop};
ghost use Rattle.std.specs.Fmt.{decimal};

use crate::token::MAX_DIGITS;
use itoa::write_digits;
use std::marker::Model;

/// Decimal digits in a buffer of their own. A contract sees them as the list of their bytes.
#[derive(Drop)]
pub struct Digits {
    buffer: [u8; MAX_DIGITS],
    start: usize,
}

impl Model for Digits {
    ghost Value = { List ℕ };

    ghost view = { λ digits. drop digits.start digits.buffer };

    ghost invariant = { λ digits. digits.start ≤ 20 };
}

impl Digits {
    /// The digits of a number.
    #[tactic(auto, using(crate::proofs::Numbers::twenty_digits))]
    pub(crate) fn of(number: u64) -> Digits
        ensures { result ≡ decimal number }
    {
        let mut buffer = [0; MAX_DIGITS];
        let start = write_digits(number, &mut buffer, MAX_DIGITS);
        Digits { buffer, start }
    }

    /// The digits as bytes.
    pub fn as_bytes(&self) -> &[u8]
        ensures { result.now ≡ self.now }
    {
        &self.buffer[self.start..]
    }
}
