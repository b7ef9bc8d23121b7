//! One drill over a first disk that is handed in, and what it came to.
ghost use Rattle.std.specs.Prelude.{◌≡◌, [], IfOk};
ghost use Rattle.arc_disk.specs.MemoryDisk.{content_of};
ghost use Rattle.arc_drill.specs.Drilled.{AreEmpty};

use arc_bytes::{Five, MemorySink, MemorySource};
use arc_disk::{MemoryDisk, Rig};
use arc_drill::drill;
use arc_journal::Journal;
use std::alloc::{AllocError, Global};
use std::process::Abort;
use std::test::Fail;

/// What a drill should come to: its status, the lines that went out, and how many entries the journal has that a crash then
/// leaves on the first disk; none where there is no journal.
#[derive(Clone, Copy)]
pub(crate) struct Wanted {
    pub(crate) status: u8,
    pub(crate) report: &'static [&'static str],
    pub(crate) left: Option<usize>,
}

/// An empty disk, of which the device calls with these numbers fail.
pub(crate) fn failing_disk(alloc: Global, calls: &[u64]) -> Result<MemoryDisk, AllocError>
    ensures { IfOk result (λ d. content_of d ≡ []) }
{
    Ok(MemoryDisk::new(alloc, calls.to_vec(alloc)?))
}

/// An empty disk that stops in the device call with this number. A crash fills what it leaves open with this byte.
pub(crate) fn stopping_disk(alloc: Global, call: u32, fill: u8) -> MemoryDisk
    ensures { content_of result ≡ [] }
{
    let mut disk = MemoryDisk::new(alloc, Vec::new(alloc));
    disk.arm(call, fill);
    disk
}

/// This disk, and four empty ones.
fn disks(alloc: Global, d0: MemoryDisk) -> Five<MemoryDisk>
    requires { content_of d0 ≡ [] }
    ensures { AreEmpty content_of result }
{
    Five {
        d0,
        d1: MemoryDisk::new(alloc, Vec::new(alloc)),
        d2: MemoryDisk::new(alloc, Vec::new(alloc)),
        d3: MemoryDisk::new(alloc, Vec::new(alloc)),
        d4: MemoryDisk::new(alloc, Vec::new(alloc)),
    }
}

/// How many entries a crash leaves in the journal on the first disk.
fn left(alloc: Global, disks: Five<MemoryDisk>) -> Option<usize> {
    let mut disk = disks.d0;
    disk.crash();
    match Journal::adopt(alloc, disk, 0) {
        Ok((_, records)) => Some(records.len()),
        Err(_) => None,
    }
}

/// These lines in a row.
pub(crate) fn joined(alloc: Global, lines: &[&str]) -> Result<String, AllocError> {
    let mut text = String::new(alloc);
    for line in lines {
        text.push_str(line)?;
    }
    Ok(text)
}

/// Drills a script from this source to this sink over this disk, and compares what comes of it.
pub(crate) fn check(
    rt: &(impl Abort + AllocGlobal),
    mut source: MemorySource,
    mut sink: MemorySink,
    disk: MemoryDisk,
    wanted: Wanted,
    name: &str,
) -> Result<(), Fail>
    requires { content_of disk ≡ [] }
{
    let alloc = rt.alloc();
    let (status, disks) = drill(alloc, &mut source, &mut sink, disks(alloc, disk));
    assert_eq!(rt; status, wanted.status, "{name}");
    let report = joined(alloc, wanted.report)?;
    assert_eq!(rt; sink.bytes(), report.as_bytes(), "{name}");
    assert_eq!(rt; left(alloc, disks), wanted.left, "{name}");
    Ok(())
}

/// The lines of calls for a control that isn't there, by their places.
pub(crate) const FIRST: &str =
    "slot 0 token 1 404 {\"Reason\":\"NotFound\",\"Resource\":\"arn:arc:control/0000000000000001\",\"__type\":\"ResourceNotFoundException\"}\n";

pub(crate) const SECOND: &str =
    "slot 1 token 2 404 {\"Reason\":\"NotFound\",\"Resource\":\"arn:arc:control/0000000000000001\",\"__type\":\"ResourceNotFoundException\"}\n";

pub(crate) const THIRD: &str =
    "slot 2 token 3 404 {\"Reason\":\"NotFound\",\"Resource\":\"arn:arc:control/0000000000000001\",\"__type\":\"ResourceNotFoundException\"}\n";
