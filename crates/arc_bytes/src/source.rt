//! Where bytes come from.
ghost use Rattle.std.specs.Prelude.{◌≡◌, ◌<◌, ◌≤◌, List, ℕ, Option, length, IfOk, OnOk};
ghost use Rattle.arc_bytes.specs.Counts.{HasCause};
ghost use Rattle.arc_bytes.specs.Source.{Reads};

use crate::Failed;

/// A source of bytes, such as standard input.
pub trait Source {
    /// The bytes that are left, where the source tells them.
    ghost left: { Self → Option (List ℕ) };

    /// How often reading has failed. It never falls.
    ghost faults: { Self → ℕ };

    /// Places the next bytes at the front of `buf`, and answers how many; 0 is the end of the input.
    /// After `Failed` what is left stays.
    fn read(&mut self, buf: &mut [u8]) -> Result<usize, Failed>
        requires { 0 < length buf.old }
        ensures within { IfOk result (λ n. n ≤ length buf.old) }
        ensures reads { Reads (left self.old) (left self.new) result buf.new }
        ensures cause { HasCause (faults self.old) (faults self.new) result }
        // A read that answers is no fault.
        ensures stays { OnOk result (faults self.new ≡ faults self.old) };
}
