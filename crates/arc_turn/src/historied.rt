//! What a value under a turn tells of itself.
ghost use Rattle.std.specs.Prelude.{◌≡◌, length};

/// A value with a history that only grows, and a name that stays.
pub trait Historied {
    ghost use Rattle.std.specs.Prelude.{List, ℕ};

    /// What the value has gone through: its entries, the oldest first, each a list of numbers.
    ghost history: { Self → List (List ℕ) };

    /// What tells this value from others for as long as it lives.
    ghost name: { Self → List ℕ };

    /// How many entries the history has.
    fn length(&self) -> u64
        ensures { result ≡ length (history self.now) };
}
