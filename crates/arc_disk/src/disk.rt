//! A disk, and a disk that can be stopped and crashed.
ghost use Rattle.std.specs.Prelude.{◌≡◌, ◌≤◌, ◌↔◌, ◌+◌, List, ℕ, Option, Some, None, length, take, drop, is_err, IfOk, OnOk, IsErr, IsErrOf};
ghost use Rattle.arc_disk.specs.Disk.{Crashes, Elapses, IsUntouched, Keeps, Only, TearsOnly, Torn, written};
ghost use Rattle.arc_disk.specs.Calls.{IsCall, IsNoCall, has_failed};

use arc_bytes::Failed;

/// How a write ended badly.
#[derive(Clone, Copy, Debug, PartialEq, Eq)]
pub enum WriteEnd {
    /// The disk failed: its count of faults rose. Some of the range may have been written.
    Failed,
    /// There was no memory left, and nothing was written.
    Memory,
}

/// A disk. Its four device calls are `len`, `read_at`, `write_at` and `sync`.
///
/// Between two syncs a crash may leave any bytes in each range that was written and past the old end.
pub trait Disk {
    /// Holds of a type of disk that tells its contents. What is said of contents is said where this holds.
    ghost tells: { Type 0 };

    /// What a read gives.
    ghost content: { Self → List ℕ };

    /// What a crash at this moment may leave.
    ghost may_leave: { Self → List ℕ → Type 0 };

    /// What a crash at some moment from that one on might have left, during a call or between two.
    ghost left_since: { Self → ℕ → List ℕ → Type 0 };

    /// The clock, which counts device calls. At 2^64 - 1 it stands still.
    ghost moment: { Self → ℕ };

    /// How often the disk has failed.
    ghost faults: { Self → ℕ };

    /// In how many device calls the disk stops, where a stop is set. At 0 each device call fails.
    ghost stops_in: { Self → Option ℕ };

    /// Holds of a disk that fails only where it was told to stop.
    ghost is_tame: { Self → Type 0 };

    /// The length of the content, in bytes.
    fn len(&mut self) -> Result<u64, Failed>
        ensures length { tells → IfOk result (λ n. n ≡ length (content self.old)) }
        ensures kept { tells → Keeps content may_leave self.old self.new }
        ensures time { tells → Elapses moment may_leave left_since self.old self.new }
        ensures call { IsCall moment faults stops_in is_tame self.old self.new (is_err result) }
        ensures stopped { stops_in self.old ≡ Some 0 → IsErr result };

    /// Fills `buf` with the bytes from this place on. Past the end it fails.
    fn read_at(&mut self, at: u64, buf: &mut [u8]) -> Result<(), Failed>
        requires { tells → at + length buf.old ≤ length (content self.old) }
        ensures filled { tells → OnOk result (buf.new ≡ take (length buf.old) (drop at (content self.old))) }
        ensures kept { tells → Keeps content may_leave self.old self.new }
        ensures time { tells → Elapses moment may_leave left_since self.old self.new }
        ensures call { IsCall moment faults stops_in is_tame self.old self.new (is_err result) }
        ensures stopped { stops_in self.old ≡ Some 0 → IsErr result };

    /// Writes over what is there, and past the end. Past a gap it fails.
    fn write_at(&mut self, at: u64, bytes: &[u8]) -> Result<(), WriteEnd>
        requires { tells → at ≤ length (content self.old) }
        ensures written { tells → OnOk result (content self.new ≡ written (content self.old) at bytes.now) }
        ensures torn { tells → Torn at (length bytes.now) (content self.old) (content self.new) }
        ensures crash { tells → TearsOnly at (length bytes.now) (may_leave self.old) (may_leave self.new) }
        ensures memory { tells → IsErrOf result WriteEnd.Memory → IsUntouched content may_leave self.old self.new }
        ensures time { tells → Elapses moment may_leave left_since self.old self.new }
        ensures call { IsCall moment faults stops_in is_tame self.old self.new (has_failed result) }
        ensures stopped { stops_in self.old ≡ Some 0 → IsErr result };

    /// After it, a crash leaves what a read gives.
    fn sync(&mut self) -> Result<(), Failed>
        ensures durable { tells → OnOk result (Only (content self.old) (may_leave self.new)) }
        ensures kept { tells → Keeps content may_leave self.old self.new }
        ensures time { tells → Elapses moment may_leave left_since self.old self.new }
        ensures call { IsCall moment faults stops_in is_tame self.old self.new (is_err result) }
        ensures stopped { stops_in self.old ≡ Some 0 → IsErr result };

    /// How often the disk has failed, up to 2^64 - 1. This is no device call.
    fn faults(&self) -> u64
        ensures { result ≡ faults self.now };

    /// As the disk reads, a crash may leave it.
    ghost reads_as_left: { (d : Self) → tells → may_leave d (content d) };

    /// What a crash may leave now, it might have left since any moment up to now.
    ghost counts_now: { (d : Self) (t : ℕ) (image : List ℕ) → tells → t ≤ moment d → may_leave d image → left_since d t image };

    /// Since now, it might have left only what it may leave now.
    ghost only_now: { (d : Self) (image : List ℕ) → tells → left_since d (moment d) image → may_leave d image };

    /// What it might have left since a moment, it might have left since any earlier one.
    ghost since_earlier: { (d : Self) (t u : ℕ) (image : List ℕ) → tells → t ≤ u → left_since d u image → left_since d t image };
}

/// A disk that can be told to stop, and crashed.
pub trait Rig: Disk {
    /// What setting a stop makes of a disk: the disk before, the number of calls, the fill, and the disk after.
    ghost armed: { Self → ℕ → ℕ → Self → Type 0 };

    /// What a crash makes of a disk: the disk before, and the disk after.
    ghost crashed: { Self → Self → Type 0 };

    /// Sets a stop in the device call with this number from now on, counted from 0: that call and each later one
    /// fails. An earlier stop is gone. What a crash will leave is made of `fill` where the disk chooses bytes.
    fn arm(&mut self, calls: u32, fill: u8)
        ensures armed { Self.armed self.old calls fill self.new }
        ensures stop { Self.stops_in self.new ≡ Some calls }
        ensures untouched { Self.tells → IsUntouched Self.content Self.may_leave self.old self.new }
        ensures since { Self.tells → (t : ℕ) (image : List ℕ) →
            Self.left_since self.new t image ↔ Self.left_since self.old t image }
        ensures no_call { IsNoCall Self.moment Self.faults Self.is_tame self.old self.new };

    /// Crashes. The disk then reads as something that a crash might have left, nothing waits for a sync, and no stop
    /// is set.
    fn crash(&mut self)
        ensures crashed { Self.crashed self.old self.new }
        ensures stop { Self.stops_in self.new ≡ None }
        ensures crashes { Self.tells → Crashes Self.content Self.may_leave self.old self.new }
        ensures time { Self.tells → Elapses Self.moment Self.may_leave Self.left_since self.old self.new }
        ensures no_call { IsNoCall Self.moment Self.faults Self.is_tame self.old self.new };
}
