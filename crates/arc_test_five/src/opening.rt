//! Five disks that are opened: whole, damaged, exchanged, and with journals that no five nodes wrote.
ghost use Rattle.std.specs.Prelude.{◌≡◌, ◌<◌, true, IfSome};
ghost use Rattle.arc_data.specs.Valid.{IsValidRecord};
ghost use Rattle.arc_journal.specs.Image.{is_below};
ghost use Rattle.arc_cluster.specs.Cluster.{IsInOrder};

use crate::attempts::check;
use crate::five::End::Placed;
use crate::five::{Nodes, command, created, lists, set};
use Change::{Empty, Exchanged, Flipped, Longer, Unchanged, Written};
use Extra::{Closing, Nothing, Vote};
use Found::{Broken, Missing, Mixed, NotOurs, Opened, Rotten};
use arc_bytes::{Five, Memory};
use arc_cluster::{Cluster, OpenEnd};
use arc_courier::Fate::Mute;
use arc_courier::{Courier, Direct, Scripted};
use arc_data::{CommandId, Record};
use arc_disk::{Disk, MemoryDisk};
use arc_journal::Journal;
use std::alloc::Global;
use std::process::Abort;
use std::test::Fail;

/// What a journal has behind its first entry.
#[derive(Clone, Copy, Debug, PartialEq, Eq)]
enum Extra {
    Nothing,
    /// A vote at slot 0 in ballot 7.
    Vote,
    /// The closing of slot 0.
    Closing,
}

/// What is changed on five disks before they are opened.
#[derive(Clone, Copy, Debug, PartialEq, Eq)]
enum Change {
    Unchanged,
    /// The disks of two nodes are exchanged.
    Exchanged(u8, u8),
    /// The lowest bit of this byte of a node's disk is another one.
    Flipped(u8, usize),
    /// This node's disk is empty.
    Empty(u8),
    /// A new journal of this node, for twice as long a list.
    Longer(u8),
    /// A journal of this node whose first entry has this number of a start.
    Written(u8, u32, Extra),
}

/// What the opening of five disks found.
#[derive(Clone, Copy, Debug, PartialEq, Eq)]
enum Found {
    /// The length of each list, and the number of each node's start.
    Opened([u32; 5], [u32; 5]),
    Missing(u8),
    /// The node, and the place of the byte.
    NotOurs(u8, u64),
    /// The node, and the place of the entry.
    Rotten(u8, u64),
    /// The node, the greatest length of its list, and that of node 0.
    Mixed(u8, u32, u32),
    /// The node, the place of the entry, and the rule.
    Broken(u8, u32, u8),
    Disk(u8),
    Memory,
}

/// Why five disks weren't opened.
fn refusal(end: OpenEnd) -> Found {
    match end {
        OpenEnd::Disk { node } => Found::Disk(node),
        OpenEnd::Missing { node } => Missing(node),
        OpenEnd::NotOurs { node, place } => NotOurs(node, place),
        OpenEnd::Rotten { node, place, .. } => Rotten(node, place),
        OpenEnd::Mixed { node, have, first } => Mixed(node, have, first),
        OpenEnd::Breach(breach) => Broken(breach.node, breach.place, breach.rule),
        OpenEnd::Memory => Found::Memory,
    }
}

/// The number of each node's start.
fn starts<D: Disk, C: Courier + Drop>(nodes: &Cluster<D, C>) -> [u32; 5] {
    [
        nodes.node(0).inc(),
        nodes.node(1).inc(),
        nodes.node(2).inc(),
        nodes.node(3).inc(),
        nodes.node(4).inc(),
    ]
}

/// Opens five disks.
fn opening(alloc: Global, disks: Five<MemoryDisk>) -> Found {
    match Cluster::adopt(alloc, disks, Direct) {
        Ok(nodes) => {
            let found = Opened(lists(&nodes), starts(&nodes));
            drop(nodes);
            found
        }
        Err((disks, end)) => {
            drop(disks);
            refusal(end)
        }
    }
}

/// Five empty disks.
fn empty(alloc: Global) -> Five<MemoryDisk> {
    Five {
        d0: MemoryDisk::new(alloc, Vec::new(alloc)),
        d1: MemoryDisk::new(alloc, Vec::new(alloc)),
        d2: MemoryDisk::new(alloc, Vec::new(alloc)),
        d3: MemoryDisk::new(alloc, Vec::new(alloc)),
        d4: MemoryDisk::new(alloc, Vec::new(alloc)),
    }
}

/// The entry behind the first one.
fn entry(extra: Extra) -> Option<Record>
    ensures valid { IfSome result IsValidRecord }
    ensures below { IfSome result (λ r. is_below 64 r ≡ true) }
{
    let command = command(CommandId {
        node: 2,
        inc: 1,
        n: 0,
    });
    match extra {
        Nothing => {
            drop(command);
            None
        }
        Vote => Some(Record::Voted {
            slot: 0,
            ballot: 7,
            command,
        }),
        Closing => Some(Record::Closed { slot: 0, command }),
    }
}

/// A disk with a journal of this node for lists of up to 64 commands; none without memory.
fn written(alloc: Global, node: u8, inc: u32, extra: Extra) -> Option<MemoryDisk> {
    if node >= 5 {
        return None;
    }
    let disk = MemoryDisk::new(alloc, Vec::new(alloc));
    let Ok(mut journal) = Journal::create(alloc, disk, node, 64) else {
        return None;
    };
    let Ok(()) = journal.append(&Record::Opened { inc }) else {
        return None;
    };
    if let Some(entry) = entry(extra) {
        let done = journal.append(&entry).is_ok();
        drop(entry);
        if !done {
            return None;
        }
    }
    Some(journal.give_back())
}

/// A disk with a journal of this node for lists of up to 128 commands, without entries; none without memory.
fn longer(alloc: Global, node: u8) -> Option<MemoryDisk> {
    if node >= 5 {
        return None;
    }
    let disk = MemoryDisk::new(alloc, Vec::new(alloc));
    let Ok(journal) = Journal::create(alloc, disk, node, 128) else {
        return None;
    };
    Some(journal.give_back())
}

/// Whose disk this node gets.
fn source(node: u8, change: Change) -> u8 {
    match change {
        Exchanged(one, other) if node == one => other,
        Exchanged(one, other) if node == other => one,
        _ => node,
    }
}

/// The bytes that this node's disk has after the change, where it isn't written anew.
fn bytes_for(
    alloc: Global,
    disks: &Five<MemoryDisk>,
    node: u8,
    change: Change,
) -> Result<Vec<u8>, Memory> {
    let from = source(node, change);
    if from >= 5 || change == Empty(node) {
        return Ok(Vec::new(alloc));
    }
    let mut bytes = disks.get(from).bytes().to_vec(alloc)?;
    if let Flipped(of, place) = change
        && of == node
        && place < bytes.len()
    {
        bytes[place] ^= 1;
    }
    Ok(bytes)
}

/// This node's disk after the change.
fn disk_for(
    alloc: Global,
    disks: &Five<MemoryDisk>,
    node: u8,
    change: Change,
) -> Result<MemoryDisk, Memory> {
    match change {
        Longer(of) if of == node => longer(alloc, node).ok_or(Memory),
        Written(of, inc, extra) if of == node => written(alloc, node, inc, extra).ok_or(Memory),
        _ => {
            let bytes = bytes_for(alloc, disks, node, change)?;
            MemoryDisk::from_bytes(alloc, bytes, Vec::new(alloc))
        }
    }
}

/// Makes copies of five disks with a change.
fn copy(
    alloc: Global,
    disks: &Five<MemoryDisk>,
    change: Change,
    copies: &mut Five<MemoryDisk>,
) -> Result<(), Memory> {
    for node in 0..5u8 {
        let disk = disk_for(alloc, disks, node, change)?;
        *copies.get_mut(node) = disk;
    }
    Ok(())
}

/// What an opening of copies of five disks with this change finds.
fn found_with(alloc: Global, disks: &Five<MemoryDisk>, change: Change) -> Found {
    let mut copies = empty(alloc);
    match copy(alloc, disks, change, &mut copies) {
        Ok(()) => opening(alloc, copies),
        Err(Memory) => {
            drop(copies);
            Found::Memory
        }
    }
}

fn check_openings(
    rt: &(impl Abort + AllocGlobal),
    disks: &Five<MemoryDisk>,
    rows: &[(Change, Found)],
) {
    for (change, wanted) in rows {
        let found = found_with(rt.alloc(), disks, *change);
        assert_eq!(rt; found, *wanted, "{change:?}");
    }
}

/// Four nodes have two commands each. An entry of theirs begins at 16 (the start), 58 (the promise of ballot 5), 108 (the
/// vote of slot 0) and 193 (its closing) with its gate; then come four bytes of length, the body, and 32 of digest.
///
/// A gate that isn't 1 ends the journal, whatever follows. What is missing then is no damage by itself: a shorter list, or
/// no sound journals.
const USED: [(Change, Found); 14] = [
    (Unchanged, Opened([2, 2, 2, 2, 0], [2, 2, 2, 2, 2])),
    (Exchanged(1, 3), NotOurs(1, 8)),
    (Exchanged(4, 0), NotOurs(0, 8)),
    // In a body, and in a digest.
    (Flipped(1, 22), Rotten(1, 16)),
    (Flipped(2, 113), Rotten(2, 108)),
    (Flipped(3, 57), Rotten(3, 16)),
    (Flipped(0, 192), Rotten(0, 108)),
    // In a length, which names no entry then, or another.
    (Flipped(4, 17), NotOurs(4, 16)),
    // In a gate: the closing of slot 0 and what follows isn't there; no vote of the ballot's own node; no start.
    (Flipped(1, 193), Opened([2, 0, 2, 2, 0], [2, 2, 2, 2, 2])),
    (Flipped(0, 108), Broken(1, 2, 2)),
    (Flipped(3, 16), Broken(3, 0, 1)),
    (Empty(3), Missing(3)),
    (Longer(2), Mixed(2, 128, 64)),
    (Longer(0), Mixed(1, 64, 128)),
];

/// Five nodes that were started once.
const STARTED: [(Change, Found); 6] = [
    (Unchanged, Opened([0, 0, 0, 0, 0], [2, 2, 2, 2, 2])),
    (
        Written(3, 1, Nothing),
        Opened([0, 0, 0, 0, 0], [2, 2, 2, 2, 2]),
    ),
    // The first start has another number; nobody promised the ballot; nobody voted for what is closed.
    (Written(3, 2, Nothing), Broken(3, 0, 1)),
    (Written(2, 1, Vote), Broken(2, 1, 1)),
    (Written(2, 1, Closing), Broken(2, 1, 4)),
    (Empty(4), Missing(4)),
];

/// Places two commands at node 0, of which node 4 hears nothing.
fn use_four<D: Disk>(rt: &(impl Abort + AllocGlobal), nodes: &mut Cluster<D, Scripted>)
    requires { IsInOrder D.tells D.content D.may_leave nodes.old }
    ensures { IsInOrder D.tells D.content D.may_leave nodes.new }
{
    set(nodes, 4, true, [Mute].as_slice());
    check(rt, nodes, 0, [(Placed(0), 5)].as_slice());
    check(rt, nodes, 0, [(Placed(1), 10)].as_slice());
}

/// Opens the disks of five nodes with each change.
fn check_disks_of(rt: &(impl Abort + AllocGlobal), nodes: Nodes, rows: &[(Change, Found)]) {
    let disks = nodes.give_back();
    check_openings(rt, &disks, rows);
    drop(disks);
}

#[test]
fn disks_of_a_used_cluster(rt: HostRuntime) -> Result<(), Fail> {
    let Some(mut nodes) = created(rt.alloc()) else {
        assert!(rt; false);
        return Ok(());
    };
    use_four(&rt, &mut nodes);
    check_disks_of(&rt, nodes, USED.as_slice());
    Ok(())
}

#[test]
fn disks_of_nodes_that_were_started_once(rt: HostRuntime) -> Result<(), Fail> {
    let Some(nodes) = created(rt.alloc()) else {
        assert!(rt; false);
        return Ok(());
    };
    check_disks_of(&rt, nodes, STARTED.as_slice());
    Ok(())
}
