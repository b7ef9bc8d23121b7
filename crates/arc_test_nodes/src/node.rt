//! A new node, and one that is loaded.
use crate::journal::WORKED;
use arc_disk::MemoryDisk;
use arc_node::{Node, Restart};
use std::alloc::Global;
use std::test::Fail;

#[test]
fn the_bytes_of_a_new_node(rt: HostRuntime) -> Result<(), Fail> {
    let alloc = rt.alloc();
    let disk = MemoryDisk::new(alloc, Vec::new(alloc));
    let Ok(node) = Node::create(alloc, disk, 0, 4096) else {
        assert!(rt; false);
        return Ok(());
    };
    assert!(rt; node.is_up());
    assert_eq!(rt; node.inc(), 1);
    assert_eq!(rt; node.max_slots(), 4096);
    assert_eq!(rt; node.faults(), 0);
    assert_eq!(rt; node.applied_len(), 0);
    assert_eq!(rt; node.promise(), 0);
    assert_eq!(rt; node.records().len(), 1);
    let disk = node.give_back();
    assert_eq!(rt; disk.bytes(), WORKED.as_slice());
    Ok(())
}

/// The number of the start, where the node is up.
fn told(restart: &Restart) -> Option<u32> {
    match restart {
        Restart::Up { inc } => Some(*inc),
        _ => None,
    }
}

/// The disk of a node that was made, and not used.
fn used_disk(alloc: Global) -> Option<MemoryDisk> {
    let disk = MemoryDisk::new(alloc, Vec::new(alloc));
    match Node::create(alloc, disk, 2, 16) {
        Ok(node) => Some(node.give_back()),
        Err(_) => None,
    }
}

/// Loads a node from a disk and wakes it: whether it was up before, the number of its start, how many entries it has, and
/// how many behind its start.
fn woken(alloc: Global, disk: MemoryDisk) -> Option<(bool, Option<u32>, usize, u32)> {
    let Ok(mut node) = Node::load(alloc, disk, 2) else {
        return None;
    };
    let was_up = node.is_up();
    let start = node.wake();
    let inc = told(&start);
    drop(start);
    let woken = (was_up, inc, node.records().len(), node.next_id().n);
    drop(node);
    Some(woken)
}

#[test]
fn a_loaded_node_is_woken(rt: HostRuntime) -> Result<(), Fail> {
    let alloc = rt.alloc();
    let Some(disk) = used_disk(alloc) else {
        assert!(rt; false);
        return Ok(());
    };
    assert_eq!(rt; woken(alloc, disk), Some((false, Some(2), 2, 0)));
    Ok(())
}
