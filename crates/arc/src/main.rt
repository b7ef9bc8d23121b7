//! The program `arc`: `arc drill` reads a script from standard input and writes its report to standard output.
//!
//! It stands on `arc_main`, whose `run` has all that matters, with the drill's theorem. Here the real outside and five empty
//! disks in memory are made and handed to it.
#![tactic(auto)]

ghost use Rattle.arc_disk.specs.MemoryDisk.{NoneFails, content_of, disk_stops_in, faults_of};
ghost use Rattle.arc_drill.specs.Drilled.{AreEmpty};
ghost use Rattle.arc_drill.specs.Since.{IsQuiet};

use arc_bytes::{Five, StreamSink};
use arc_disk::MemoryDisk;
use arc_main::{Standard, run, words_of};
use std::alloc::Global;
use std::process::ExitCode;

fn main(rt: HostRuntime) -> ExitCode {
    let Ok(words) = words_of(&rt) else {
        return ExitCode::from(5);
    };
    let mut outside = Standard::new(rt.stdin());
    let mut out = StreamSink::new(rt.stdout());
    let mut notes = StreamSink::new(rt.stderr());
    let disks = empty_disks(rt.alloc());
    let (status, _) = run(
        rt.alloc(),
        &words,
        &mut outside,
        &mut out,
        &mut notes,
        disks,
    );
    ExitCode::from(status)
}

/// Five empty disks in memory, which fail at no call.
fn empty_disks(alloc: Global) -> Five<MemoryDisk>
    ensures empty { AreEmpty content_of result }
    ensures quiet { IsQuiet faults_of disk_stops_in NoneFails result.d0 }
{
    Five {
        d0: MemoryDisk::new(alloc, Vec::new(alloc)),
        d1: MemoryDisk::new(alloc, Vec::new(alloc)),
        d2: MemoryDisk::new(alloc, Vec::new(alloc)),
        d3: MemoryDisk::new(alloc, Vec::new(alloc)),
        d4: MemoryDisk::new(alloc, Vec::new(alloc)),
    }
}
