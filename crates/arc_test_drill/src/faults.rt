//! Drills whose source, sink or disk fails in chosen calls.
use crate::drilling::{FIRST, SECOND, THIRD, Wanted, check, failing_disk};
use arc_bytes::{MemorySink, MemorySource};
use std::process::Abort;
use std::test::Fail;

/// A script, the reads of its source that fail, the writes of its sink, and the device calls of the first disk, each counted
/// from 0; and what the drill comes to.
struct Row {
    script: &'static str,
    reads: &'static [u64],
    writes: &'static [u64],
    calls: &'static [u64],
    wanted: Wanted,
}

const THREE: &str = "get 0 0 0 1\nget 0 0 0 1\nget 0 0 0 1\n";

const ROWS: [Row; 11] = [
    // Nothing is written where the source fails, and nothing before it was read to its end.
    Row {
        script: THREE,
        reads: &[0],
        writes: &[0],
        calls: &[],
        wanted: Wanted {
            status: 3,
            report: &[],
            left: None,
        },
    },
    Row {
        script: THREE,
        reads: &[1],
        writes: &[0],
        calls: &[],
        wanted: Wanted {
            status: 3,
            report: &[],
            left: None,
        },
    },
    // What was done before the sink failed stays done.
    Row {
        script: THREE,
        reads: &[],
        writes: &[0],
        calls: &[],
        wanted: Wanted {
            status: 4,
            report: &[],
            left: Some(2),
        },
    },
    Row {
        script: THREE,
        reads: &[],
        writes: &[1],
        calls: &[],
        wanted: Wanted {
            status: 4,
            report: &[FIRST],
            left: Some(3),
        },
    },
    Row {
        script: THREE,
        reads: &[],
        writes: &[2],
        calls: &[],
        wanted: Wanted {
            status: 4,
            report: &[FIRST, SECOND],
            left: Some(4),
        },
    },
    Row {
        script: "walk\n",
        reads: &[],
        writes: &[0],
        calls: &[],
        wanted: Wanted {
            status: 4,
            report: &[],
            left: None,
        },
    },
    // Calls that aren't made fail nothing.
    Row {
        script: THREE,
        reads: &[2],
        writes: &[3],
        calls: &[30],
        wanted: Wanted {
            status: 0,
            report: &[FIRST, SECOND, THIRD],
            left: Some(4),
        },
    },
    Row {
        script: "",
        reads: &[],
        writes: &[0],
        calls: &[30],
        wanted: Wanted {
            status: 0,
            report: &[],
            left: Some(1),
        },
    },
    Row {
        script: "walk\n",
        reads: &[],
        writes: &[1],
        calls: &[0],
        wanted: Wanted {
            status: 6,
            report: &["script line 1: Word\n"],
            left: None,
        },
    },
    // A disk that fails in a call takes its node down, until it crashes and starts again.
    Row {
        script: "get 0 0 0 1\nget 0 0 0 1\nrestart 0\n",
        reads: &[],
        writes: &[],
        calls: &[6],
        wanted: Wanted {
            status: 0,
            report: &["down 0\n", "down 0\n", "restart 0 up 2\n"],
            left: Some(2),
        },
    },
    // It fails in the call, and then in the start behind it.
    Row {
        script: "get 0 0 0 1\nrestart 0\nrestart 0\nget 0 0 0 1\n",
        reads: &[],
        writes: &[],
        calls: &[6, 7],
        wanted: Wanted {
            status: 0,
            report: &["down 0\n", "restart 0 disk\n", "restart 0 up 2\n", FIRST],
            left: Some(3),
        },
    },
];

fn check_all(rt: &(impl Abort + AllocGlobal), rows: &[Row]) -> Result<(), Fail> {
    let alloc = rt.alloc();
    for row in rows {
        let script = row.script.as_bytes().to_vec(alloc)?;
        let source = MemorySource::new(script, row.reads.to_vec(alloc)?);
        let sink = MemorySink::new(alloc, row.writes.to_vec(alloc)?);
        let disk = failing_disk(alloc, row.calls)?;
        check(rt, source, sink, disk, row.wanted, row.script)?;
    }
    Ok(())
}

#[test]
fn a_drill_ends_by_what_fails_in_it(rt: HostRuntime) -> Result<(), Fail> {
    check_all(&rt, &ROWS)
}
