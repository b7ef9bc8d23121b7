//! Reading published commands while one writer publishes, beside a lock of `std` over the plain cluster that these commands
//! make. The reader looks at a clock of its own, so that what is told is how often it reads while the writer is at work.
ghost use Rattle.std.specs.Prelude.{◌<◌};
ghost use Rattle.arc_data.specs.Valid.{IsValidCommand};

use arc_data::{Command, CommandId, Op};
use arc_snapshot::{Handles, ReadSide, WriteSide, sides};
use arc_state::{ReadOp, State};
use arc_token::Token;
use std::alloc::Global;
use std::slice;
use std::sync::atomic::{AtomicBool, Ordering};
use std::sync::{RwLock, Wait};
use std::thread::{Threads, join};
use std::time::{Clock, Instant};

/// How long the reader reads, in nanoseconds: a tenth of a second.
const SPAN: u128 = 100_000_000;

/// How often the reader reads between two looks at the clock.
const READS: usize = 100;

/// The most commands that the writer publishes.
const COMMANDS: u64 = 1_000_000;

/// The operation that is read.
const RESOURCES: ReadOp = ReadOp::ListManagedResources;

/// The call that is published: it changes nothing but the count and the list time.
fn call() -> Command
    ensures { IsValidCommand result }
{
    Command {
        id: CommandId {
            node: 0,
            inc: 1,
            n: 0,
        },
        at_ms: 1000,
        token: 0,
        op: Op::ListManagedResources,
    }
}

/// What reads, again and again.
trait Reads {
    /// Reads once, and tells whether that was answered.
    fn is_answered(&mut self) -> bool;
}

/// A reader of snapshots.
#[derive(Drop)]
struct Unlocked {
    alloc: Global,
    side: ReadSide,
}

impl Reads for Unlocked {
    fn is_answered(&mut self) -> bool {
        match self.side.read(self.alloc, Token(0), &RESOURCES) {
            Ok((reply, _)) => {
                drop(reply);
                true
            }
            Err(_) => false,
        }
    }
}

/// A reader that takes the lock each time.
#[derive(Drop)]
struct Locked<'a, R: Wait> {
    rt: &'a R,
    alloc: Global,
    lock: &'a RwLock<State>,
}

impl<'a, R: Wait> Reads for Locked<'a, R> {
    fn is_answered(&mut self) -> bool {
        let state = self.lock.read(self.rt);
        match state.answer_read(self.alloc, &RESOURCES) {
            Ok(reply) => {
                drop(reply);
                true
            }
            Err(_) => false,
        }
    }
}

/// Reads so often as it does between two looks at the clock, and counts the answers.
fn read_some<T: Reads>(reader: &mut T) -> usize {
    let mut count = 0usize;
    for _ in 0..READS {
        if reader.is_answered() {
            count = count.saturating_add(1);
        }
    }
    count
}

/// How many a second so many are in so many nanoseconds.
fn rate(count: usize, nanos: u128) -> usize
    requires { 0 < nanos }
{
    let rate = count as u128 * 1_000_000_000 / nanos;
    usize::try_from(rate).unwrap_or(0)
}

/// Reads for as long as the span, and tells how many reads a second that makes; 0 where the clock isn't to be had.
fn read_for_a_span<T: Reads, C: Clock>(clock: &C, reader: &mut T) -> usize {
    let Ok(start) = Instant::now(clock) else {
        return 0;
    };
    let mut count = 0usize;
    for _ in 0..u32::MAX {
        count = count.saturating_add(read_some(reader));
        let Ok(elapsed) = start.elapsed(clock) else {
            return 0;
        };
        let nanos = elapsed.as_nanos();
        if nanos >= SPAN {
            return rate(count, nanos);
        }
    }
    0
}

/// Publishes commands one by one until the reader is done, and tells whether it was still at work then.
fn publish_on<H: Wait + Drop>(
    alloc: Global,
    mut side: WriteSide<H>,
    is_done: &AtomicBool,
) -> (WriteSide<H>, bool) {
    let command = call();
    let mut is_on = true;
    for _ in 0..COMMANDS {
        if is_done.load(Ordering::SeqCst) {
            break;
        }
        is_on = side.taken() < COMMANDS && side.publish(alloc, slice::from_ref(&command)).is_ok();
        if !is_on {
            break;
        }
    }
    drop(command);
    (side, is_on)
}

/// Reads of snapshots a second, beside a writer that publishes; 0 where the writer came to its end first.
pub fn snapshots<R: Threads + Wait + Clock + Sync>(rt: &R, alloc: Global) -> usize {
    let Ok((side, mut reads)) = sides(alloc, rt, 1, &mut Handles::default()) else {
        return 0;
    };
    let reader = reads.pop();
    drop(reads);
    let Some(reader) = reader else {
        drop(side);
        return 0;
    };
    let is_done = AtomicBool::new(false);
    let is_done = &is_done;
    let (rate, (side, is_on)) = join(
        rt,
        move || read_snapshots(rt, alloc, reader, is_done),
        move || publish_on(alloc, side, is_done),
    );
    drop(side);
    if is_on { rate } else { 0 }
}

/// The reader of snapshots in its thread.
fn read_snapshots<C: Clock>(
    clock: &C,
    alloc: Global,
    side: ReadSide,
    is_done: &AtomicBool,
) -> usize {
    let mut reader = Unlocked { alloc, side };
    let rate = read_for_a_span(clock, &mut reader);
    is_done.store(true, Ordering::SeqCst);
    drop(reader);
    rate
}

/// Does one command on the cluster behind the lock, and tells whether that went well.
fn is_applied<R: Wait>(rt: &R, alloc: Global, lock: &RwLock<State>, command: &Command) -> bool
    requires { IsValidCommand command.now }
{
    let mut state = lock.write(rt);
    if state.count() >= COMMANDS {
        return false;
    }
    match state.apply(alloc, command) {
        Ok(reply) => {
            drop(reply);
            true
        }
        Err(_) => false,
    }
}

/// Does commands one by one under the lock until the reader is done, and tells whether it was still at work then.
fn apply_on<R: Wait>(rt: &R, alloc: Global, lock: &RwLock<State>, is_done: &AtomicBool) -> bool {
    let command = call();
    let mut is_on = true;
    for _ in 0..COMMANDS {
        if is_done.load(Ordering::SeqCst) {
            break;
        }
        is_on = is_applied(rt, alloc, lock, &command);
        if !is_on {
            break;
        }
    }
    drop(command);
    is_on
}

/// Reads under the lock a second, beside a writer that takes it too; 0 where the writer came to its end first.
pub fn under_lock<R: Threads + Wait + Clock + Sync>(rt: &R, alloc: Global) -> usize {
    let Ok(state) = State::fresh(alloc) else {
        return 0;
    };
    let lock = RwLock::new(state);
    let is_done = AtomicBool::new(false);
    let (rate, is_on) = join(
        rt,
        || read_locked(rt, alloc, &lock, &is_done),
        || apply_on(rt, alloc, &lock, &is_done),
    );
    if is_on { rate } else { 0 }
}

/// The reader under the lock in its thread.
fn read_locked<R: Wait + Clock>(
    rt: &R,
    alloc: Global,
    lock: &RwLock<State>,
    is_done: &AtomicBool,
) -> usize {
    let mut reader = Locked { rt, alloc, lock };
    let rate = read_for_a_span(rt, &mut reader);
    is_done.store(true, Ordering::SeqCst);
    drop(reader);
    rate
}
