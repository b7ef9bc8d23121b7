//! Runs of device calls that write something for good.
ghost use Rattle.std.specs.Prelude.{◌≡◌, ◌<◌, ◌≤◌, ◌^◌, List, ℕ, length, IfErr, IfOk, OnOk, IsErrOf};
ghost use Rattle.arc_disk.specs.Disk.{IsUntouched, Keeps, LeavesOnly, Only, Torn, written};
ghost use Rattle.arc_journal.specs.Image.{IsNoRefusal};
ghost use Rattle.arc_journal.specs.Runs.{OpensInRun, WritesInRun, ending_of};
ghost use Rattle.arc_journal.specs.Torn.{IsGateShut, TornInTurn, opened};

use crate::JournalEnd;
use arc_bytes::Failed;
use arc_disk::{Disk, WriteEnd};
use std::alloc::Global;

/// Writes these bytes and syncs them.
pub(crate) fn write_synced<D: Disk>(disk: &mut D, at: u64, bytes: &[u8]) -> Result<(), WriteEnd>
    requires { D.tells → at ≤ length (D.content disk.old) }
    ensures written { D.tells → OnOk result (D.content disk.new ≡ written (D.content disk.old) at bytes.now) }
    ensures durable { D.tells → OnOk result (Only (D.content disk.new) (D.may_leave disk.new)) }
    ensures any_moment { D.tells → Only (D.content disk.old) (D.may_leave disk.old) → LeavesOnly D.moment D.left_since disk.old disk.new
        (Torn at (length bytes.now) (D.content disk.old)) }
    ensures memory { D.tells → IsErrOf result WriteEnd.Memory →
        IsUntouched D.content D.may_leave disk.old disk.new }
    ensures calls { WritesInRun D.moment D.faults D.stops_in D.is_tame 2 disk.old disk.new result }
{
    match disk.write_at(at, bytes) {
        Ok(()) => {}
        Err(end) => return Err(end),
    }
    match disk.sync() {
        Ok(()) => Ok(()),
        Err(Failed) => Err(WriteEnd::Failed),
    }
}

/// Writes these bytes behind the closed gate at this place, syncs them, opens the gate, and syncs it.
///
/// The bytes have to be on the disk first: behind a gate that is torn open, what is there counts.
pub(crate) fn write_entry<D: Disk>(disk: &mut D, gate: u64, payload: &[u8]) -> Result<(), WriteEnd>
    requires room { gate < 2 ^ 63 }
    requires within { D.tells → gate < length (D.content disk.old) }
    requires durable { D.tells → Only (D.content disk.old) (D.may_leave disk.old) }
    ensures written { D.tells → OnOk result (D.content disk.new ≡ opened (D.content disk.old) gate payload.now) }
    ensures durable { D.tells → OnOk result (Only (D.content disk.new) (D.may_leave disk.new)) }
    ensures any_moment { D.tells → LeavesOnly D.moment D.left_since disk.old disk.new
        (TornInTurn (D.content disk.old) gate payload.now) }
    ensures memory { D.tells → IsErrOf result WriteEnd.Memory →
        IsGateShut D.content D.may_leave disk.old disk.new gate payload.now }
    ensures calls { WritesInRun D.moment D.faults D.stops_in D.is_tame 4 disk.old disk.new result }
{
    match write_synced(disk, gate + 1, payload) {
        Ok(()) => {}
        Err(end) => return Err(end),
    }
    write_synced(disk, gate, &[1])
}

/// Syncs, and reads the whole image.
pub(crate) fn read_image<D: Disk>(alloc: Global, disk: &mut D) -> Result<Vec<u8>, JournalEnd>
    ensures image { D.tells → IfOk result (λ v. v.items ≡ D.content disk.old) }
    ensures durable { D.tells → OnOk result (Only (D.content disk.new) (D.may_leave disk.new)) }
    ensures answer { IfErr result IsNoRefusal }
    ensures kept { D.tells → Keeps D.content D.may_leave disk.old disk.new }
    ensures any_moment { D.tells → LeavesOnly D.moment D.left_since disk.old disk.new (D.may_leave disk.old) }
    ensures calls { OpensInRun D.moment D.faults D.stops_in D.is_tame 3 disk.old disk.new (ending_of result) }
{
    match disk.sync() {
        Ok(()) => {}
        Err(Failed) => return Err(JournalEnd::Disk),
    }
    let len = match disk.len() {
        Ok(len) => len as usize,
        Err(Failed) => return Err(JournalEnd::Disk),
    };
    let Ok(mut image) = vec![in alloc; 0u8; len] else {
        return Err(JournalEnd::Memory);
    };
    match disk.read_at(0, &mut image) {
        Ok(()) => Ok(image),
        Err(Failed) => Err(JournalEnd::Disk),
    }
}
