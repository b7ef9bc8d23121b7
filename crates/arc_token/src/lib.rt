//! Tokens: how many commands a caller knows to be in the list, and the decimal digits that say so.
//!
//! It stands on `itoa` for writing digits. Whoever reads or writes a token as text stands on it.
//!
//! The law that it keeps: what `Token::digits` gives is read again as that token. Reading also takes leading zeros, as
//! long as there are at most 20 digits. Neither way takes memory.
#![tactic(auto)]

mod digits;
mod number;
mod token;

pub use digits::Digits;
pub use number::number_of;
pub use token::{BadToken, Token};
