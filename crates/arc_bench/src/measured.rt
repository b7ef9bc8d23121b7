//! What the words name.
use crate::{audit, cluster, engine, http, journal, json, node, opening, snapshot, turn};
use std::alloc::Global;
use std::env::Args;
use std::fs;
use std::rt::Files;
use std::sync::Wait;
use std::thread::Threads;
use std::time::Clock;

/// Does what the first word names with the bytes of the file that the second names, and counts what was done; none where
/// there is no word.
pub fn measured<R: AllocGlobal + Clock + Files + Threads + Wait + Sync>(
    rt: &R,
    words: Args,
) -> Option<usize> {
    let mut words = words.skip(1);
    let name = words.next()?;
    let bytes = bytes_of(rt, words.next());
    let path = words.next();
    Some(count_of(rt, name.as_str(), &bytes, path.as_ref()))
}

/// The bytes of the file at a path; none where there is no such file.
fn bytes_of(rt: &(impl AllocGlobal + Files), path: Option<String>) -> Vec<u8> {
    match path {
        Some(path) => match fs::read(rt, path.as_str()) {
            Ok(bytes) => bytes,
            Err(_) => Vec::new(rt.alloc()),
        },
        None => Vec::new(rt.alloc()),
    }
}

/// How much was done, by what takes turns, looks at a clock or writes a file, and else by what needs memory alone. What looks
/// at a clock tells its measure in place of a count.
fn count_of<R: AllocGlobal + Clock + Files + Threads + Wait + Sync>(
    rt: &R,
    name: &str,
    bytes: &[u8],
    path: Option<&String>,
) -> usize {
    let alloc = rt.alloc();
    match name {
        "adopt-first" => journal::adopt_alone(rt, alloc, bytes, 1),
        "adopt-again" => journal::adopt_alone(rt, alloc, bytes, 20),
        "append" => journal::append(rt, bytes, path),
        "opening-journals" => opening::write_journals(rt, bytes, path),
        "snapshot" => snapshot::snapshots(rt, alloc),
        "snapshot-lock" => snapshot::under_lock(rt, alloc),
        "turn" => turn::turns(rt, alloc, 1),
        "turns" => turn::turns(rt, alloc, 4),
        "lock" => turn::locks(rt, alloc, 1),
        "locks" => turn::locks(rt, alloc, 4),
        _ => count_in_memory(alloc, name, bytes),
    }
}

/// How much was done by what needs memory alone.
fn count_in_memory(alloc: Global, name: &str, bytes: &[u8]) -> usize {
    match name {
        "audit-shorter" => audit::audits(alloc, 667),
        "audit-longer" => audit::audits(alloc, 2667),
        "cluster-shorter" => cluster::attempts(alloc, bytes, 1024),
        "cluster-longer" => cluster::attempts(alloc, bytes, 4096),
        "cluster-bytes" => cluster::bytes(alloc, bytes, 4096),
        "engine-shorter" => engine::calls(alloc, bytes, 1024),
        "engine-longer" => engine::calls(alloc, bytes, 4096),
        "http" => http::read(alloc),
        "httparse" => http::parse(alloc),
        "adopt" => journal::adopt(alloc, bytes),
        "batch" => json::read(alloc, "UpdateRoutingControlStates", bytes),
        "node-shorter" => node::votes(alloc, 2500),
        "node-longer" => node::votes(alloc, 10_000),
        "open" => node::open(alloc, bytes),
        "opening" => opening::open(alloc, bytes),
        "opening-disks" => opening::fill(alloc, bytes),
        "rule" => json::read(alloc, "CreateSafetyRule", bytes),
        "json" => json::parse(alloc, bytes),
        _ => 0,
    }
}
