//! Where bytes go.
ghost use Rattle.std.specs.Prelude.{◌≡◌, ◌≢◌, ◌≤◌, [], List, ℕ, Option, length, IfOk};
ghost use Rattle.arc_bytes.specs.Counts.{HasCause, HasRisen};
ghost use Rattle.arc_bytes.specs.Sink.{Writes};

use crate::Failed;

/// A sink of bytes, such as standard output.
pub trait Sink {
    /// The bytes that it has taken, where the sink tells them.
    ghost taken: { Self → Option (List ℕ) };

    /// How often writing has failed. It never falls.
    ghost faults: { Self → ℕ };

    /// Takes the first bytes of the piece behind those that it took before, and answers how many.
    /// `Failed` has taken a prefix of the piece, which may be empty.
    fn write(&mut self, bytes: &[u8]) -> Result<usize, Failed>
        ensures within { IfOk result (λ n. n ≤ length bytes.now) }
        ensures writes { Writes (taken self.old) (taken self.new) result bytes.now }
        // To take nothing of a piece that isn't empty counts as a fault.
        ensures nothing_taken { result ≡ Ok 0 → bytes.now ≢ [] → HasRisen (faults self.old) (faults self.new) }
        ensures cause { HasCause (faults self.old) (faults self.new) result };
}
