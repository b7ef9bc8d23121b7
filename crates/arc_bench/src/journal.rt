//! A journal of 10,000 entries, which each close the same batch.
ghost use Rattle.std.specs.Prelude.{◌≡◌, true, IfOk};
ghost use Rattle.arc_data.specs.Valid.{IsValid, IsValidRecord};
ghost use Rattle.arc_journal.specs.Image.{is_below};
ghost use Rattle.arc_journal.specs.Journal.{IsSettled, slots_of};

use arc_bytes::Memory;
use arc_data::{Command, CommandId, Op, Record};
use arc_disk::{Disk, MemoryDisk};
use arc_journal::Journal;
use arc_json::{RequestEnd, read_op};
use std::alloc::Global;
use std::fs;
use std::rt::Files;
use std::time::{Clock, Instant};

/// How many entries are appended.
const ENTRIES: u32 = 10_000;

/// The greatest length of the list.
const SLOTS: u32 = 16_384;

/// The entry that closes slot 0 with this operation.
fn entry_of(op: Op) -> Record
    requires { IsValid op }
    ensures valid { IsValidRecord result }
    ensures below { is_below 16384 result ≡ true }
{
    let id = CommandId {
        node: 0,
        inc: 1,
        n: 0,
    };
    let command = Command {
        id,
        at_ms: 1000,
        token: 0,
        op,
    };
    Record::Closed { slot: 0, command }
}

/// Appends the entry again and again, and tells whether that went well.
fn append_all<D: Disk>(journal: &mut Journal<D>, entry: &Record) -> bool
    requires settled { IsSettled D.tells D.content D.may_leave journal.old }
    requires slots { slots_of journal.old ≡ 16384 }
    requires valid { IsValidRecord entry.now }
    requires below { is_below 16384 entry.now ≡ true }
{
    for _ in 0..ENTRIES {
        match journal.append(entry) {
            Ok(()) => {}
            Err(_) => return false,
        }
    }
    true
}

/// A journal of node 0 with so many entries, on a disk in memory.
fn filled(alloc: Global, entry: &Record) -> Option<MemoryDisk>
    requires valid { IsValidRecord entry.now }
    requires below { is_below 16384 entry.now ≡ true }
{
    let disk = MemoryDisk::new(alloc, Vec::new(alloc));
    let Ok(mut journal) = Journal::create(alloc, disk, 0, SLOTS) else {
        return None;
    };
    if append_all(&mut journal, entry) {
        Some(journal.give_back())
    } else {
        None
    }
}

/// The entry that closes slot 0 with a batch, which has this body.
fn entry_by(alloc: Global, body: &[u8]) -> Result<Record, RequestEnd>
    ensures valid { IfOk result IsValidRecord }
    ensures below { IfOk result (λ r. is_below 16384 r ≡ true) }
{
    let op = read_op(alloc, b"UpdateRoutingControlStates", body)?;
    Ok(entry_of(op))
}

/// The same, where the entry closes a batch with this body.
fn filled_by(alloc: Global, body: &[u8]) -> Result<Option<MemoryDisk>, RequestEnd> {
    let entry = entry_by(alloc, body)?;
    let disk = filled(alloc, &entry);
    drop(entry);
    Ok(disk)
}

/// Appends all of the entries, writes the journal's bytes to the file with this name, where there is one, and counts them.
pub fn append(rt: &(impl AllocGlobal + Files), body: &[u8], path: Option<&String>) -> usize {
    let Ok(Some(disk)) = filled_by(rt.alloc(), body) else {
        return 0;
    };
    let size = write(rt, path, disk.bytes());
    drop(disk);
    size
}

/// Writes bytes to the file with this name, where there is one, and counts them; 0 where that failed.
pub fn write(rt: &impl Files, path: Option<&String>, bytes: &[u8]) -> usize {
    match path {
        Some(path) if fs::write(rt, path.as_str(), bytes).is_err() => 0,
        _ => bytes.len(),
    }
}

/// A disk in memory with these bytes.
pub fn disk_of(alloc: Global, bytes: &[u8]) -> Result<MemoryDisk, Memory> {
    let bytes = Vec::from_slice(alloc, bytes)?;
    MemoryDisk::from_bytes(alloc, bytes, Vec::new(alloc))
}

/// Adopts a journal of node 0 with these bytes, and counts its entries; 0 where it is refused.
pub fn adopt(alloc: Global, bytes: &[u8]) -> usize {
    let Ok(disk) = disk_of(alloc, bytes) else {
        return 0;
    };
    let Ok((journal, records)) = Journal::adopt(alloc, disk, 0) else {
        return 0;
    };
    let count = records.len();
    drop(records);
    drop(journal);
    count
}

/// How long it takes to adopt a journal of node 0 from a disk with these bytes, in nanoseconds, without the making of the disk;
/// `None` where it is refused or the clock isn't to be had.
fn nanos_of_adoption<C: Clock>(clock: &C, alloc: Global, bytes: &[u8]) -> Option<usize> {
    let Ok(disk) = disk_of(alloc, bytes) else {
        return None;
    };
    let start = Instant::now(clock);
    let adopted = Journal::adopt(alloc, disk, 0);
    let elapsed = match start {
        Ok(start) => start.elapsed(clock),
        Err(refused) => Err(refused),
    };
    let is_adopted = adopted.is_ok();
    drop(adopted);
    match elapsed {
        Ok(elapsed) if is_adopted => usize::try_from(elapsed.as_nanos()).ok(),
        _ => None,
    }
}

/// The least nanoseconds that one of so many adoptions took; 0 where one failed.
pub fn adopt_alone<C: Clock>(clock: &C, alloc: Global, bytes: &[u8], times: u32) -> usize {
    let mut least = 0;
    for _ in 0..times {
        let Some(nanos) = nanos_of_adoption(clock, alloc, bytes) else {
            return 0;
        };
        if least == 0 || nanos < least {
            least = nanos;
        }
    }
    least
}
