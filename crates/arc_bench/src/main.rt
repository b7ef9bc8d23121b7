//! Does parts of the program, and what they stand on, often enough to be timed. The first word names what is done, and the
//! second a file that it is done with; the scripts of `bench/` run it and print ratios. No promise rests on it.
#![tactic(auto)]

mod audit;
mod cluster;
mod engine;
mod http;
mod journal;
mod json;
mod measured;
mod node;
mod opening;
mod snapshot;
mod turn;

use crate::measured::measured;
use std::time::Instant;
use std::{env, io};

/// Prints the nanoseconds that it took, and how much was done; without a word what there is.
fn main(rt: HostRuntime) -> io::Result<()> {
    let start = Instant::now(&rt)?;
    let words = env::args(&rt)?;
    let Some(count) = measured(&rt, words) else {
        return println!(rt;
            "measurements: audit, cluster, engine, http, journal, json, node, opening, snapshot, turn"
        );
    };
    let nanos = start.elapsed(&rt)?.as_nanos();
    println!(rt; "nanoseconds {nanos} count {count}")
}
