//! Drills over a disk whose memory ends: want of memory is told by its own status, and whole lines go out.
ghost use Rattle.std.specs.Prelude.{◌≡◌, [], Some, None, is_err, IsErr, ⊤};
ghost use Rattle.arc_disk.specs.Calls.{IsCall, IsNoCall, has_failed};

use crate::drilling::{FIRST, SECOND, THIRD, joined};
use arc_bytes::{Failed, Five, MemorySink, MemorySource};
use arc_disk::{Disk, Rig, WriteEnd};
use arc_drill::drill;
use std::process::Abort;
use std::test::Fail;

/// A disk that tells nothing and keeps nothing, and has memory for so many writes.
#[derive(Clone, Copy, Drop)]
struct Narrow {
    room: u32,
    calls: u64,
    faults: u64,
    stops: Option<u32>,
}

impl Narrow {
    fn new(room: u32) -> Narrow {
        Narrow {
            room,
            calls: 0,
            faults: 0,
            stops: None,
        }
    }

    /// A device call, which fails where the disk stops or has stopped.
    fn begin(&mut self) -> Result<(), Failed>
        ensures call { IsCall (λ d. d.calls) (λ d. d.faults) (λ d. d.stops) (λ d. ⊤) self.old self.new (is_err result) }
        ensures stopped { self.old.stops ≡ Some 0 → IsErr result }
    {
        self.calls = self.calls.saturating_add(1);
        match self.stops {
            Some(0) => {
                self.faults = self.faults.saturating_add(1);
                Err(Failed)
            }
            Some(calls) => {
                self.stops = Some(calls - 1);
                Ok(())
            }
            None => Ok(()),
        }
    }
}

impl Disk for Narrow {
    ghost use Rattle.std.specs.Prelude.{[], ⊤};

    ghost tells = { ⊥ };

    ghost content = { λ d. [] };

    ghost may_leave = { λ d image. ⊤ };

    ghost left_since = { λ d moment image. ⊤ };

    ghost moment = { λ d. d.calls };

    ghost faults = { λ d. d.faults };

    ghost stops_in = { λ d. d.stops };

    ghost is_tame = { λ d. ⊤ };

    ghost reads_as_left = { λ d told. absurd told };

    ghost counts_now = { λ d t image told le now. absurd told };

    ghost only_now = { λ d image told left. absurd told };

    ghost since_earlier = { λ d t u image told le left. absurd told };

    fn len(&mut self) -> Result<u64, Failed> {
        match self.begin() {
            Ok(()) => Ok(0),
            Err(Failed) => Err(Failed),
        }
    }

    fn read_at(&mut self, _at: u64, _buf: &mut [u8]) -> Result<(), Failed> {
        self.begin()
    }

    fn write_at(&mut self, _at: u64, _bytes: &[u8]) -> Result<(), WriteEnd> {
        let room = self.room;
        self.room = room.saturating_sub(1);
        match self.begin() {
            Ok(()) if room > 0 => Ok(()),
            Ok(()) => Err(WriteEnd::Memory),
            Err(Failed) => Err(WriteEnd::Failed),
        }
    }

    fn sync(&mut self) -> Result<(), Failed> {
        self.begin()
    }

    fn faults(&self) -> u64 {
        self.faults
    }
}

impl Rig for Narrow {
    ghost armed = { λ old calls fill new. new ≡ record old { stops = Some calls } };

    ghost crashed = { λ old new. new ≡ record old { stops = None } };

    fn arm(&mut self, calls: u32, _fill: u8) {
        self.stops = Some(calls);
    }

    fn crash(&mut self) {
        self.stops = None;
    }
}

/// How many writes there is memory for, the status, and the lines that go out. A node is created in three writes, and each
/// call is two.
const ROWS: [(u32, u8, &[&str]); 9] = [
    (0, 5, &[]),
    (2, 5, &[]),
    (3, 5, &[]),
    (4, 5, &[]),
    (5, 5, &[FIRST]),
    (6, 5, &[FIRST]),
    (7, 5, &[FIRST, SECOND]),
    (8, 5, &[FIRST, SECOND]),
    (9, 0, &[FIRST, SECOND, THIRD]),
];

fn check_all(
    rt: &(impl Abort + AllocGlobal),
    rows: &[(u32, u8, &'static [&'static str])],
) -> Result<(), Fail> {
    let alloc = rt.alloc();
    for (room, status, lines) in rows {
        let script = b"get 0 0 0 1\nget 0 0 0 1\nget 0 0 0 1\n"
            .as_slice()
            .to_vec(alloc)?;
        let mut source = MemorySource::new(script, Vec::new(alloc));
        let mut sink = MemorySink::new(alloc, Vec::new(alloc));
        let disk = Narrow::new(*room);
        let disks = Five {
            d0: disk,
            d1: disk,
            d2: disk,
            d3: disk,
            d4: disk,
        };
        let (ended, _) = drill(alloc, &mut source, &mut sink, disks);
        assert_eq!(rt; ended, *status, "room for {room}");
        let report = joined(alloc, lines)?;
        assert_eq!(rt; sink.bytes(), report.as_bytes(), "room for {room}");
    }
    Ok(())
}

#[test]
fn whole_lines_go_out_before_want_of_memory(rt: HostRuntime) -> Result<(), Fail> {
    check_all(&rt, &ROWS)
}
