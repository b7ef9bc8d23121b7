//! One script, drilled in memory.
ghost use Rattle.arc_disk.specs.MemoryDisk.{content_of};
ghost use Rattle.arc_drill.specs.Drilled.{AreEmpty};

use arc_bytes::{Five, Memory, MemorySink, MemorySource};
use arc_disk::MemoryDisk;
use arc_drill::drill;
use std::alloc::Global;

/// How a drill ended.
#[derive(Drop)]
pub struct Ended {
    /// The exit status.
    pub status: u8,
    report: MemorySink,
}

impl Ended {
    /// What was written.
    pub fn report(&self) -> &[u8] {
        self.report.bytes()
    }
}

/// Drills a script over five empty disks in memory, as the program does with its standard input.
pub fn run(alloc: Global, script: &[u8]) -> Result<Ended, Memory> {
    let mut src = MemorySource::new(script.to_vec(alloc)?, Vec::new(alloc));
    let mut report = MemorySink::new(alloc, Vec::new(alloc));
    let (status, _) = drill(alloc, &mut src, &mut report, empty_disks(alloc));
    match status {
        // A sink in memory fails only where there is no memory for what it is to take.
        4 | 5 => Err(Memory),
        _ => Ok(Ended { status, report }),
    }
}

/// Five empty disks, which fail at no call.
fn empty_disks(alloc: Global) -> Five<MemoryDisk>
    ensures { AreEmpty content_of result }
{
    Five {
        d0: MemoryDisk::new(alloc, Vec::new(alloc)),
        d1: MemoryDisk::new(alloc, Vec::new(alloc)),
        d2: MemoryDisk::new(alloc, Vec::new(alloc)),
        d3: MemoryDisk::new(alloc, Vec::new(alloc)),
        d4: MemoryDisk::new(alloc, Vec::new(alloc)),
    }
}
