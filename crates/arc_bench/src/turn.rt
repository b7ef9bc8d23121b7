//! Taking a turn and putting it back, beside a lock of `std`.
ghost use Rattle.std.specs.Prelude.{◌≡◌, ◌<◌, All, IfOk, IfSome};
ghost use mathlib.Core.List.{IsPrefix};
ghost use Rattle.arc_turn.specs.Known.{IsFree};
ghost use Rattle.arc_bench.specs.Ticks.{ticks};

use arc_turn::{Historied, Memory, Pass, Turn};
use std::alloc::Global;
use std::sync::{Mutex, Wait};
use std::thread;
use std::thread::Threads;

/// How often the value is changed, by all threads together.
const ROUNDS: usize = 1_000_000;

/// A number of ticks, each an entry with nothing in it.
#[derive(Drop)]
struct Ticks {
    count: u64,
}

impl Historied for Ticks {
    ghost use Rattle.std.specs.Prelude.{[]};
    ghost use Rattle.arc_bench.specs.Ticks.{ticks};

    ghost history = { λ t. ticks t.count };

    ghost name = { λ _. [] };

    fn length(&self) -> u64 {
        self.count
    }
}

impl Ticks {
    /// One tick more, up to 2^64 - 1.
    fn tick(&mut self)
        ensures { IsPrefix (ticks self.old.count) (ticks self.new.count) }
    {
        if self.count < u64::MAX {
            self.count += 1;
        }
    }
}

/// Takes the turn so often, and ticks each time.
fn take_turns<R: Wait>(rt: &R, turn: &Turn<Ticks>, mut pass: Pass, rounds: usize)
    requires { IsFree turn.now pass }
{
    for _ in 0..rounds {
        let mut held = turn.take(rt, &mut pass);
        held.value().tick();
        turn.put(held, &mut pass);
    }
}

/// Takes the lock so often, and counts each time.
fn take_locks<R: Wait>(rt: &R, lock: &Mutex<u64>, rounds: usize) {
    for _ in 0..rounds {
        let mut count = lock.lock(rt);
        *count = count.wrapping_add(1);
    }
}

/// So many passes of a turn, the first of which is given.
fn passes_of(
    alloc: Global,
    turn: &Turn<Ticks>,
    mut pass: Pass,
    threads: usize,
) -> Result<Vec<Pass>, Memory>
    requires { IsFree turn.now pass }
    ensures { IfOk result (λ passes. All (λ p. IsFree turn.now p) passes.items) }
{
    let mut passes = Vec::new(alloc);
    for _ in 1..threads {
        passes.push(turn.split(&mut pass)?)?;
    }
    passes.push(pass)?;
    Ok(passes)
}

/// So many threads take turns, a million in all, and how many threads they were.
pub fn turns<R: Threads + Wait + Sync>(rt: &R, alloc: Global, threads: usize) -> usize {
    let Ok((turn, pass)) = Turn::new(alloc, Ticks { count: 0 }) else {
        return 0;
    };
    let Ok(passes) = passes_of(alloc, &turn, pass, threads) else {
        return 0;
    };
    let rounds = ROUNDS / threads.max(1);
    let ends = thread::map_vec(
        rt,
        passes,
        &|pass: Pass|
            requires { IsFree turn pass }
        { take_turns(rt, &turn, pass, rounds) },
    );
    if ends.is_ok() { threads } else { 0 }
}

/// So many threads take the lock, a million times in all, and how many threads they were.
pub fn locks<R: Threads + Wait + Sync>(rt: &R, alloc: Global, threads: usize) -> usize {
    let lock = Mutex::new(0);
    let rounds = ROUNDS / threads.max(1);
    let ends = thread::map_indices(rt, alloc, threads, &|_| take_locks(rt, &lock, rounds));
    if ends.is_ok() { threads } else { 0 }
}
