//! The name of a zone, which contracts see as its bytes.
ghost use Rattle.std.specs.Prelude.{◌≡◌, ◌≤◌, ◌↔◌, IsSome, IfSome, length};

use std::marker::Model;
use std::{fmt, str};

/// The most bytes that a zone's name has.
const MOST_BYTES: usize = 32;

/// The name of a zone, of 1 to 32 bytes, in place.
#[derive(Clone, Copy, PartialEq, Eq)]
pub struct ZoneName {
    /// The bytes of the name, and zeros behind them.
    bytes: [u8; MOST_BYTES],
    len: usize,
}

impl Model for ZoneName {
    ghost use Rattle.std.specs.Prelude.{ℕ, ◌≡◌, ◌-◌, ◌≤◌, ◌++◌, List, length, take, drop, replicate, IsUtf8};
    ghost use Rattle.std.proofs.Common.{sym, ap, subst, ◌∙◌, take-append-drop, length-take-le};

    ghost Value = { List ℕ };

    ghost view = { λ z. take z.len z.bytes };

    ghost invariant = { λ z. (1 ≤ z.len) × (z.len ≤ 32) × (length z.bytes ≡ 32)
        × (drop z.len z.bytes ≡ replicate (32 - z.len) 0) × ∥ IsUtf8 (take z.len z.bytes) ∥₁ };

    ghost inverse = { λ xs. record { bytes = xs ++ replicate (32 - length xs) 0; len = length xs } };

    ghost inverse_ok = { λ z h i.
        let fits : z.len ≤ length z.bytes = subst (λ (n : ℕ). z.len ≤ n) (sym h.2) h.1 in
        let short : length (take z.len z.bytes) ≡ z.len = length-take-le z.len z.bytes fits in
        let name = take z.len z.bytes in
        record {
          bytes = (ap (λ (n : ℕ). name ++ replicate (32 - n) 0) short ∙ ap (λ (r : List ℕ). name ++ r) (sym h.3)
              ∙ take-append-drop z.len z.bytes) i;
          len = short i;
        } };
}

impl ZoneName {
    /// The zone of this name, where it has 1 to 32 bytes.
    pub fn of(text: &str) -> Option<ZoneName>
        ensures some { IsSome result ↔ ((1 ≤ length text.now) × (length text.now ≤ 32)) }
        ensures name { IfSome result (λ zone. zone ≡ text.now) }
    {
        let len = text.len();
        if len == 0 || len > MOST_BYTES {
            return None;
        }
        let mut bytes = [0; MOST_BYTES];
        bytes[..len].copy_from_slice(text.as_bytes());
        Some(ZoneName { bytes, len })
    }

    /// The name.
    pub fn as_str(&self) -> &str
        ensures name { result.now ≡ self.now }
        ensures not_empty { 1 ≤ length self.now }
        ensures short { length self.now ≤ 32 }
    {
        match str::from_utf8(&self.bytes[..self.len]) {
            Ok(text) => text,
            Err(_) => unreachable!(),
        }
    }
}

impl fmt::Debug for ZoneName {
    fn fmt<W: fmt::Write>(&self, f: &mut fmt::Formatter<W>) -> fmt::Result {
        fmt::Debug::fmt(self.as_str(), f)
    }
}
