//! A crash at each device call of an append, and damaged bytes.
use arc_bytes::Memory;
use arc_command::Record;
use arc_disk::{MemoryDisk, Rig};
use arc_journal::{Journal, JournalEnd};
use std::alloc::Global;
use std::process::Abort;
use std::test::Fail;

/// A journal of node 0 with room for 4,096 slots and its first entry, `Opened` with the number 1.
pub(crate) const WORKED: [u8; 59] = [
    0x41, 0x52, 0x43, 0x4a, 0x52, 0x4e, 0x4c, 0x01, 0x00, 0x00, 0x00, 0x00, 0x00, 0x00, 0x10, 0x00,
    0x01, 0x00, 0x00, 0x00, 0x05, 0x01, 0x00, 0x00, 0x00, 0x01, 0xa1, 0xcb, 0x20, 0x47, 0x0d, 0x89,
    0x87, 0x4f, 0x33, 0x38, 0x38, 0x02, 0xc7, 0x2d, 0x3c, 0x27, 0xa0, 0x66, 0x8e, 0xbf, 0xfd, 0x81,
    0x93, 0x47, 0x05, 0xab, 0x0c, 0xfc, 0xbf, 0x1a, 0x1e, 0x3a, 0x00,
];

/// Whether the second append to a journal on a disk that stops in this call went well, and how many records are found
/// after the crash.
fn crashed_append(alloc: Global, calls: u32, fill: u8) -> Option<(bool, usize)> {
    let disk = MemoryDisk::new(alloc, Vec::new(alloc));
    let Ok(mut journal) = Journal::create(alloc, disk, 0, 4096) else {
        return None;
    };
    let Ok(()) = journal.append(&Record::Opened { inc: 1 }) else {
        return None;
    };
    journal.arm(calls, fill);
    let done = journal.append(&Record::Opened { inc: 2 }).is_ok();
    let mut disk = journal.give_back();
    disk.crash();
    match Journal::adopt(alloc, disk, 0) {
        Ok((_, records)) => Some((done, records.len())),
        Err(_) => None,
    }
}

/// A device call from 0, a fill, and how many records are found after a crash. The gate is opened in call 2.
const STOPS: [(u32, u8, usize); 15] = [
    (0, 0, 1),
    (1, 0, 1),
    (2, 0, 1),
    (3, 0, 1),
    (4, 0, 2),
    (0, 1, 1),
    (1, 1, 1),
    (2, 1, 2),
    (3, 1, 2),
    (4, 1, 2),
    (0, 255, 1),
    (1, 255, 1),
    (2, 255, 1),
    (3, 255, 1),
    (4, 255, 2),
];

fn check_stops(rt: &(impl Abort + AllocGlobal), rows: &[(u32, u8, usize)]) {
    for (call, fill, found) in rows {
        assert_eq!(rt;
            crashed_append(rt.alloc(), *call, *fill),
            Some((*call == 4, *found)),
            "call {call}, fill {fill}"
        );
    }
}

#[test]
fn a_crash_at_each_call_leaves_the_entry_or_nothing_of_it(rt: HostRuntime) {
    check_stops(&rt, &STOPS);
}

/// How the opening of the worked journal ends when one byte of it is another.
fn damaged(alloc: Global, place: usize, byte: u8) -> Result<Option<JournalEnd>, Memory> {
    let mut bytes = WORKED.to_vec(alloc)?;
    if place < bytes.len() {
        bytes[place] = byte;
    }
    let disk = MemoryDisk::from_bytes(alloc, bytes, Vec::new(alloc))?;
    match Journal::adopt(alloc, disk, 0) {
        Ok(_) => Ok(None),
        Err((_, end)) => Ok(Some(end)),
    }
}

/// What is wrong with these bytes: nothing, another journal's byte at a place, or a rotten entry that begins there.
#[derive(Clone, Copy, Debug, PartialEq, Eq)]
pub(crate) enum Found {
    Sound,
    NotOurs(u64),
    Rotten(u64),
    Other,
}

use Found::{NotOurs, Other, Rotten, Sound};

/// What the opening of a journal found.
fn shown(end: &Option<JournalEnd>) -> Found {
    match end {
        None => Sound,
        Some(JournalEnd::NotOurs { place }) => NotOurs(*place),
        Some(JournalEnd::Rotten { place, .. }) => Rotten(*place),
        Some(_) => Other,
    }
}

/// A place, the byte that stands there, and what is found.
const DAMAGED: [(usize, u8, Found); 16] = [
    (0, 0x42, NotOurs(0)),
    (7, 2, NotOurs(7)),
    (8, 1, NotOurs(8)),
    (11, 9, NotOurs(11)),
    (12, 1, NotOurs(12)),
    (16, 0, Sound),
    (16, 255, Sound),
    (19, 4, NotOurs(16)),
    (20, 0, NotOurs(16)),
    (20, 6, NotOurs(16)),
    (21, 2, Rotten(16)),
    (25, 2, Rotten(16)),
    (26, 0, Rotten(16)),
    (57, 0, Rotten(16)),
    (58, 0, Sound),
    (58, 7, Sound),
];

fn check_damaged(rt: &(impl Abort + AllocGlobal), rows: &[(usize, u8, Found)]) -> Result<(), Fail> {
    for (place, byte, found) in rows {
        let end = damaged(rt.alloc(), *place, *byte)?;
        assert_eq!(rt; shown(&end), *found, "place {place}, byte {byte}");
    }
    Ok(())
}

#[test]
fn a_damaged_byte_is_found_at_its_place(rt: HostRuntime) -> Result<(), Fail> {
    check_damaged(&rt, &DAMAGED)
}
