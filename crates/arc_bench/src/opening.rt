//! Five journals of 10,000 commands each, which five nodes placed, and their opening. The disks are in memory.
use crate::cluster::filled;
use crate::journal::{disk_of, write};
use arc_bytes::{Five, Memory};
use arc_cluster::Cluster;
use arc_courier::Direct;
use arc_disk::MemoryDisk;
use std::alloc::Global;
use std::rt::Files;

/// How many commands are placed.
const COMMANDS: u32 = 10_000;

/// The bytes of five disks, end to end.
fn joined(alloc: Global, disks: &Five<MemoryDisk>) -> Result<Vec<u8>, Memory> {
    let mut all = Vec::new(alloc);
    for node in 0..5u8 {
        all.extend_from_slice(disks.get(node).bytes())?;
    }
    Ok(all)
}

/// Lets five nodes place a batch with this body 10,000 times, writes the bytes of their journals, end to end, to the file
/// with this name, where there is one, and counts them.
pub fn write_journals(
    rt: &(impl AllocGlobal + Files),
    body: &[u8],
    path: Option<&String>,
) -> usize {
    let Some(nodes) = filled(rt.alloc(), body, COMMANDS) else {
        return 0;
    };
    let disks = nodes.give_back();
    let size = match joined(rt.alloc(), &disks) {
        Ok(bytes) => write(rt, path, &bytes),
        Err(Memory) => 0,
    };
    drop(disks);
    size
}

/// The first bytes, so many where there are as many, and those behind them.
fn split(bytes: &[u8], size: usize) -> (&[u8], &[u8]) {
    bytes.split_at(size.min(bytes.len()))
}

/// Five disks, each with a fifth of these bytes.
fn disks_with(alloc: Global, bytes: &[u8]) -> Result<Five<MemoryDisk>, Memory> {
    let size = bytes.len() / 5;
    let (b0, behind) = split(bytes, size);
    let (b1, behind) = split(behind, size);
    let (b2, behind) = split(behind, size);
    let (b3, b4) = split(behind, size);
    Ok(Five {
        d0: disk_of(alloc, b0)?,
        d1: disk_of(alloc, b1)?,
        d2: disk_of(alloc, b2)?,
        d3: disk_of(alloc, b3)?,
        d4: disk_of(alloc, b4)?,
    })
}

/// Makes five disks with these bytes, which are five journals of one length, and counts the bytes that they hold.
pub fn fill(alloc: Global, bytes: &[u8]) -> usize {
    let Ok(disks) = disks_with(alloc, bytes) else {
        return 0;
    };
    let mut count = 0usize;
    for node in 0..5u8 {
        count = count.saturating_add(disks.get(node).bytes().len());
    }
    drop(disks);
    count
}

/// Opens five disks with these bytes, which are five journals of one length, and counts the commands in the five lists;
/// 0 where they are refused.
pub fn open(alloc: Global, bytes: &[u8]) -> usize {
    let Ok(disks) = disks_with(alloc, bytes) else {
        return 0;
    };
    match Cluster::adopt(alloc, disks, Direct) {
        Ok(nodes) => {
            let count = commands_in(&nodes);
            drop(nodes);
            count
        }
        Err((disks, end)) => {
            drop(disks);
            drop(end);
            0
        }
    }
}

/// How many commands five lists have.
fn commands_in(nodes: &Cluster<MemoryDisk, Direct>) -> usize {
    let mut count = 0usize;
    for node in 0..5u8 {
        count = count.saturating_add(nodes.node(node).applied_len() as usize);
    }
    count
}
