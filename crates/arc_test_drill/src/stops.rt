//! Drills whose disk stops, or fails, in each device call in turn: an entry in doubt is kept or not, and either way the report
//! tells of it as the disk has it.
use crate::drilling::{FIRST, SECOND, Wanted, check, failing_disk, stopping_disk};
use arc_bytes::{MemorySink, MemorySource};
use std::alloc::Global;
use std::process::Abort;
use std::test::Fail;

/// A script, the device calls from this one up to that one in which the disk stops, and the one that opens the gate of the
/// entry that is appended in them. A crash from there on, of which the fill is 1, leaves the entry: then what the drill comes
/// to is `with`, and else `without`.
struct Row {
    script: &'static str,
    from: u32,
    to: u32,
    gate: u32,
    without: Wanted,
    with: Wanted,
}

/// Nothing was told, and no journal is there.
const NO_JOURNAL: Wanted = Wanted {
    status: 7,
    report: &[],
    left: None,
};

const ROWS: [Row; 5] = [
    // The node is created: its head is written and synced, and then its first entry.
    Row {
        script: "crash 0\n",
        from: 0,
        to: 2,
        gate: 4,
        without: NO_JOURNAL,
        with: NO_JOURNAL,
    },
    Row {
        script: "crash 0\n",
        from: 2,
        to: 6,
        gate: 4,
        without: Wanted {
            status: 7,
            report: &[],
            left: Some(0),
        },
        with: Wanted {
            status: 7,
            report: &[],
            left: Some(1),
        },
    },
    // A call, whose command is in doubt; the next call stands behind it, where it was kept.
    Row {
        script: "get 0 0 0 1\nrestart 0\nget 0 0 0 1\n",
        from: 6,
        to: 10,
        gate: 8,
        without: Wanted {
            status: 0,
            report: &["down 0\n", "restart 0 up 2\n", FIRST],
            left: Some(3),
        },
        with: Wanted {
            status: 0,
            report: &["down 0\n", "restart 0 up 2\n", SECOND],
            left: Some(4),
        },
    },
    // The same in a list of one place, which is full with it.
    Row {
        script: "slots 1\nget 0 0 0 1\nrestart 0\nget 0 0 0 1\n",
        from: 6,
        to: 10,
        gate: 8,
        without: Wanted {
            status: 0,
            report: &["slots 1\n", "down 0\n", "restart 0 up 2\n", FIRST],
            left: Some(3),
        },
        with: Wanted {
            status: 0,
            report: &["slots 1\n", "down 0\n", "restart 0 up 2\n", "full 1\n"],
            left: Some(3),
        },
    },
    // A start, whose number is in doubt: a sync, the length, the image, and then its entry.
    Row {
        script: "restart 0\nrestart 0\n",
        from: 6,
        to: 13,
        gate: 11,
        without: Wanted {
            status: 0,
            report: &["restart 0 disk\n", "restart 0 up 2\n"],
            left: Some(2),
        },
        with: Wanted {
            status: 0,
            report: &["restart 0 disk\n", "restart 0 up 3\n"],
            left: Some(3),
        },
    },
];

/// A script on a source of which no read fails.
fn source_of(alloc: Global, script: &str) -> Result<MemorySource, Fail> {
    let script = script.as_bytes().to_vec(alloc)?;
    Ok(MemorySource::new(script, Vec::new(alloc)))
}

/// The disk stops in this call, and a crash fills with this byte.
fn check_stop(rt: &(impl Abort + AllocGlobal), row: &Row, call: u32, fill: u8) -> Result<(), Fail> {
    let alloc = rt.alloc();
    let wanted = if fill == 1 && call >= row.gate {
        row.with
    } else {
        row.without
    };
    let source = source_of(alloc, row.script)?;
    let sink = MemorySink::new(alloc, Vec::new(alloc));
    let disk = stopping_disk(alloc, call, fill);
    check(rt, source, sink, disk, wanted, row.script)
}

/// The disk fails in this call, and not in the next ones. A crash then fills with 0.
fn check_failure(rt: &(impl Abort + AllocGlobal), row: &Row, call: u32) -> Result<(), Fail> {
    let alloc = rt.alloc();
    let source = source_of(alloc, row.script)?;
    let sink = MemorySink::new(alloc, Vec::new(alloc));
    let disk = failing_disk(alloc, &[u64::from(call)])?;
    check(rt, source, sink, disk, row.without, row.script)
}

fn check_all(rt: &(impl Abort + AllocGlobal), rows: &[Row]) -> Result<(), Fail> {
    for row in rows {
        for call in row.from..row.to {
            for fill in [0, 1, 255] {
                check_stop(rt, row, call, fill)?;
            }
            check_failure(rt, row, call)?;
        }
    }
    Ok(())
}

#[test]
fn an_entry_in_doubt_is_told_as_the_disk_has_it(rt: HostRuntime) -> Result<(), Fail> {
    check_all(&rt, &ROWS)
}
