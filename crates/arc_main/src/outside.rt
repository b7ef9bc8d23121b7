//! What the program reaches beyond its own memory: the scripts.
ghost use Rattle.std.specs.Prelude.{◌≡◌, ◌≢◌, ◌≤◌, List, ℕ, Option, Some, Bool, is_ok, IfOk, IfSome};
ghost use Rattle.std.specs.Option.{option_copied};
ghost use Rattle.arc_bytes.specs.Counts.{HasCause, HasRisen};

use arc_bytes::{Failed, Source};

/// The outside of the program.
pub trait Outside {
    /// Where a script comes from.
    type Src: Source;

    /// The bytes that a path names, where the outside tells them; no path is standard input.
    ghost named: { Self → Option (List ℕ) → Option (List ℕ) };

    /// Whether the script at a path can be opened, where the outside tells it; no path is standard input.
    ghost opens: { Self → Option (List ℕ) → Option Bool };

    /// How often the outside has failed. It never falls.
    ghost faults: { Self → ℕ };

    /// Opens the script at a path, or standard input. The source has the bytes named there left, and has not failed.
    /// `Failed` comes only where the count of faults rose.
    fn script(&mut self, path: Option<&str>) -> Result<Self::Src, Failed>
        ensures opened { IfOk result (λ src.
            IfSome (named self.old (option_copied path.entry)) (λ bytes. Self.Src.left src ≡ Some bytes)) }
        ensures unfailed { IfOk result (λ src. Self.Src.faults src ≡ 0) }
        ensures told { IfSome (opens self.old (option_copied path.entry)) (λ can. is_ok result ≡ can) }
        ensures others { (other : Option (List ℕ)) → other ≢ option_copied path.entry →
            named self.new other ≡ named self.old other }
        ensures cause { HasCause (faults self.old) (faults self.new) result };

    /// Takes a source back. The count rises exactly where the source has failed.
    fn done(&mut self, src: Self::Src)
        ensures same { (path : Option (List ℕ)) → named self.new path ≡ named self.old path }
        ensures later { faults self.old ≤ faults self.new }
        ensures unfailed { Self.Src.faults src ≡ 0 → faults self.new ≡ faults self.old }
        ensures failed { Self.Src.faults src ≢ 0 → HasRisen (faults self.old) (faults self.new) };
}
