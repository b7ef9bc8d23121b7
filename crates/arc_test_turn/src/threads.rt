//! Threads that take turns, and passes that meet.
ghost use Rattle.std.specs.Prelude.{◌≡◌, ◌<◌, IfOk};
ghost use mathlib.Core.List.{IsPrefix};
ghost use Rattle.std.specs.Thread.{IsSync};
ghost use Rattle.arc_turn.specs.Known.{IsFree};
ghost use Rattle.arc_test_turn.specs.Numbers.{entries_of};

use arc_turn::{Historied, Memory, Pass, Turn};
use std::alloc::Global;
use std::sync::Wait;
use std::test::Fail;
use std::thread::{Threads, join};

/// Numbers, each an entry of the history.
#[derive(Drop)]
struct Numbers {
    items: Vec<u64>,
}

impl Historied for Numbers {
    ghost use Rattle.std.specs.Prelude.{[]};
    ghost use Rattle.arc_test_turn.specs.Numbers.{entries_of};

    ghost history = { λ n. entries_of n.items.items };

    ghost name = { λ n. [] };

    fn length(&self) -> u64 {
        self.items.len() as u64
    }
}

impl Numbers {
    /// Adds a number, which is an entry.
    fn push(&mut self, number: u64) -> Result<(), Memory>
        ensures { IsPrefix (entries_of self.old.items.items) (entries_of self.new.items.items) }
    {
        self.items.push(number)?;
        Ok(())
    }
}

/// A turn of no numbers yet, and its first pass.
fn begin(alloc: Global) -> Result<(Turn<Numbers>, Pass), Memory>
    ensures { IfOk result (λ t. IsFree t.0 t.1) }
{
    Turn::new(
        alloc,
        Numbers {
            items: Vec::new(alloc),
        },
    )
}

/// Takes the turn, adds a number and puts the turn back.
fn add<R: Wait>(rt: &R, turn: &Turn<Numbers>, pass: &mut Pass, number: u64) -> Result<(), Memory>
    requires { IsFree turn.now pass.old }
    ensures { IsFree turn.now pass.new }
{
    let mut held = turn.take(rt, pass);
    let pushed = held.value().push(number);
    turn.put(held, pass);
    pushed
}

#[test]
fn a_pass_that_meets_another_has_seen_its_entry(rt: HostRuntime) -> Result<(), Fail> {
    let (turn, mut pass) = begin(rt.alloc())?;
    let mut other = turn.split(&mut pass)?;
    add(&rt, &turn, &mut pass, 7)?;
    turn.meet(&mut other, &mut pass)?;
    add(&rt, &turn, &mut other, 8)?;
    turn.join(&mut pass, other);
    let mut held = turn.take(&rt, &mut pass);
    assert_eq!(rt; held.value().items.as_slice(), [7, 8].as_slice());
    turn.put(held, &mut pass);
    Ok(())
}

/// Adds the thousand numbers of a thread, in order.
fn add_all<R: Wait>(
    rt: &R,
    turn: &Turn<Numbers>,
    mut pass: Pass,
    thread: u64,
) -> Result<Pass, Memory>
    requires { IsFree turn.now pass × (thread < 4) }
    ensures { IfOk result (λ p. IsFree turn.now p) }
{
    for i in 0..1000 {
        add(rt, turn, &mut pass, 1000 * thread + i)?;
    }
    Ok(pass)
}

/// Two threads at once.
fn add_in_two<R: Threads + Wait + Sync>(
    rt: &R,
    turn: &Turn<Numbers>,
    mut pass: Pass,
    thread: u64,
) -> Result<Pass, Memory>
    requires { IsFree turn.now pass × (thread < 3) }
    ensures { IfOk result (λ p. IsFree turn.now p) }
{
    let other = turn.split(&mut pass)?;
    let (pass, other) = join(
        rt,
        move || -> Result<Pass, Memory>
            requires { IsFree turn.now pass × (thread < 3) }
            ensures { IfOk result (λ p. IsFree turn.entry.now p) }
        { add_all(rt, turn, pass, thread) },
        move || -> Result<Pass, Memory>
            requires { IsFree turn.now other × (thread < 3) }
            ensures { IfOk result (λ p. IsFree turn.entry.now p) }
        { add_all(rt, turn, other, thread + 1) },
    );
    let mut pass = pass?;
    turn.join(&mut pass, other?);
    Ok(pass)
}

/// Four threads at once.
fn add_in_four<R: Threads + Wait + Sync>(
    rt: &R,
    turn: &Turn<Numbers>,
    mut pass: Pass,
) -> Result<Pass, Memory>
    requires { IsFree turn.now pass }
    ensures { IfOk result (λ p. IsFree turn.now p) }
{
    let other = turn.split(&mut pass)?;
    let (pass, other) = join(
        rt,
        move || -> Result<Pass, Memory>
            requires { IsFree turn.now pass × IsSync R.row }
            ensures { IfOk result (λ p. IsFree turn.entry.now p) }
        { add_in_two(rt, turn, pass, 0) },
        move || -> Result<Pass, Memory>
            requires { IsFree turn.now other × IsSync R.row }
            ensures { IfOk result (λ p. IsFree turn.entry.now p) }
        { add_in_two(rt, turn, other, 2) },
    );
    let mut pass = pass?;
    turn.join(&mut pass, other?);
    Ok(pass)
}

#[test]
fn each_entry_of_four_threads_stands_once_and_in_its_threads_order(
    rt: HostRuntime,
) -> Result<(), Fail> {
    let (turn, pass) = begin(rt.alloc())?;
    let mut pass = add_in_four(&rt, &turn, pass)?;
    let mut held = turn.take(&rt, &mut pass);
    let items = &held.value().items;
    assert_eq!(rt; items.len(), 4000);
    for thread in 0..4u64 {
        let mut next = 1000 * thread;
        for item in items {
            if *item / 1000 == thread {
                assert_eq!(rt; *item, next);
                next += 1;
            }
        }
        assert_eq!(rt; next, 1000 * thread + 1000);
    }
    turn.put(held, &mut pass);
    Ok(())
}
