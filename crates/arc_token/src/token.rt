//! Tokens.
ghost use Rattle.std.specs.Prelude.{◌≡◌, MatchResult, Some, None};
ghost use Rattle.std.specs.Fmt.{decimal};
ghost use Rattle.arc_token.specs.Digits.{token_in};

use crate::{Digits, number_of};

/// The most digits in which a token is written.
pub(crate) const MAX_DIGITS: usize = 20;

/// How many commands a caller knows to be in the list.
#[derive(Clone, Copy, Debug, PartialEq, Eq, PartialOrd, Ord)]
pub struct Token(pub u64);

/// The bytes aren't 1 to 20 decimal digits of a number below 2^64.
#[derive(Clone, Copy, Debug, PartialEq, Eq)]
pub struct BadToken;

impl Token {
    /// The token that 1 to 20 decimal digits spell. Takes no memory.
    pub fn of_digits(bytes: &[u8]) -> Result<Token, BadToken>
        ensures { MatchResult result (λ token. token_in bytes.now ≡ Some token.0)
            (λ _. token_in bytes.now ≡ None) }
    {
        if bytes.len() > MAX_DIGITS {
            return Err(BadToken);
        }
        match number_of(bytes) {
            Some(number) => Ok(Token(number)),
            None => Err(BadToken),
        }
    }

    /// The decimal digits of the token, without leading zeros. Takes no memory.
    #[tactic(auto, using(crate::proofs::Numbers::decimal_token))]
    pub fn digits(self) -> Digits
        ensures text { result ≡ decimal self.0 }
        ensures read_again { token_in result ≡ Some self.0 }
    {
        Digits::of(self.0)
    }
}
