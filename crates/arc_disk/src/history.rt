//! The bytes of a disk in memory, and what happened to them.
ghost use Rattle.std.specs.Prelude.{◌≡◌, ◌+◌, ◌<◌, ◌≤◌, [], ◌∷◌, ◌++◌, length, vec_len, vec_capacity, IfOk, OnErr, OnOk};
ghost use Rattle.arc_bytes.specs.Counts.{next_count};
ghost use Rattle.arc_disk.specs.Disk.{written};
ghost use Rattle.arc_disk.specs.Past.{all_filled, filled, standing};
ghost use Rattle.arc_disk.specs.Past.Event.{Write as wrote};
ghost use Rattle.arc_disk.specs.History.{IsInTime, crashed, grown, synced, ticked};

use crate::event::Event;
use crate::range::Range;
use std::alloc::{AllocError, Global};
use std::marker::Model;

/// The bytes that a disk had at first, what happened to it since, and how it stands now.
///
/// The bytes of all writes stand one after another in `log_bytes`, so that a write has no block of its own.
#[derive(Drop)]
pub(crate) struct History {
    alloc: Global,
    first: Vec<u8>,
    log: Vec<Event>,
    log_bytes: Vec<u8>,
    clock: u64,
    content: Vec<u8>,
    waiting: Vec<Range>,
}

impl Model for History {
    ghost use Rattle.arc_disk.specs.Past.{Past};

    ghost Value = { Past };

    ghost use Rattle.arc_disk.specs.History.{IsKept, past_of};

    ghost view = { past_of };

    ghost invariant = { IsKept };
}

impl History {
    /// An empty disk to which nothing happened.
    pub(crate) fn new(alloc: Global) -> History
        ensures { result ≡ record { first = []; events = []; clock = 0 } }
    {
        History {
            alloc,
            first: Vec::new(alloc),
            log: Vec::new(alloc),
            log_bytes: Vec::new(alloc),
            clock: 0,
            content: Vec::new(alloc),
            waiting: Vec::new(alloc),
        }
    }

    /// A disk with these bytes to which nothing happened.
    pub(crate) fn from_bytes(alloc: Global, bytes: Vec<u8>) -> Result<History, AllocError>
        ensures { IfOk result (λ h. h ≡ record { first = bytes.items; events = []; clock = 0 }) }
    {
        Ok(History {
            alloc,
            first: bytes.to_vec(alloc)?,
            log: Vec::new(alloc),
            log_bytes: Vec::new(alloc),
            clock: 0,
            content: bytes,
            waiting: Vec::new(alloc),
        })
    }

    /// What a read gives.
    pub(crate) fn content(&self) -> &[u8]
        ensures { result.now ≡ (standing self.now).content }
    {
        self.content.as_slice()
    }

    /// What the clock says.
    pub(crate) fn clock(&self) -> u64
        ensures { result ≡ self.now.clock }
    {
        self.clock
    }

    /// A device call begins: the clock moves on.
    pub(crate) fn tick(&mut self)
        ensures ticked { self.new ≡ ticked self.old }
        ensures in_time { IsInTime self.old.clock self.old.events }
        ensures later { self.old.clock ≤ next_count self.old.clock }
    {
        self.clock = self.clock.saturating_add(1);
    }

    /// Writes, and notes the write. After an `Err` nothing has changed.
    #[tactic(auto, using(crate::proofs::Logging::events_written))]
    pub(crate) fn write(&mut self, at: usize, bytes: &[u8]) -> Result<(), AllocError>
        requires { at ≤ length (standing self.old).content }
        ensures ok { OnOk result (self.new ≡ grown self.old (wrote self.old.clock at bytes.now)) }
        ensures err { OnErr result (self.new ≡ self.old) }
    {
        self.log.reserve(2)?;
        self.log_bytes.reserve(bytes.len())?;
        self.waiting.reserve(1)?;
        overwrite(&mut self.content, at, bytes)?;
        let range = Range {
            at,
            len: bytes.len(),
        };
        push_within(&mut self.waiting, range);
        extend_within(&mut self.log_bytes, bytes);
        let (time, len) = (self.clock, bytes.len());
        push_within(&mut self.log, Event::Write { time, at, len });
        Ok(())
    }

    /// Nothing waits any more.
    #[tactic(auto, using(crate::proofs::Logging::events_synced))]
    pub(crate) fn sync(&mut self)
        ensures { self.new ≡ synced self.old }
    {
        if self.waiting.is_empty() {
            return;
        }
        self.waiting.clear();
        push_within(&mut self.log, Event::Sync { time: self.clock });
    }

    /// What waits is lost, and `fill` stands in its place.
    #[tactic(auto, using(crate::proofs::Logging::events_crashed))]
    pub(crate) fn crash(&mut self, fill: u8)
        ensures crashed { self.new ≡ crashed fill self.old }
        ensures in_time { IsInTime self.old.clock self.old.events }
    {
        if self.waiting.is_empty() {
            return;
        }
        fill_all(&mut self.content, &self.waiting, fill);
        self.waiting.clear();
        let time = self.clock;
        push_within(&mut self.log, Event::Crash { time, fill });
    }
}

/// Pushes where there is room.
fn push_within<T: Drop>(items: &mut Vec<T>, item: T)
    requires { vec_len items.old < vec_capacity items.old }
    ensures items { items.new.items ≡ items.old.items ++ item ∷ [] }
    ensures len { vec_len items.new ≡ vec_len items.old + 1 }
    ensures room { vec_capacity items.old ≤ vec_capacity items.new }
{
    if items.push(item).is_err() {
        unreachable!()
    }
}

/// Puts bytes at the end where there is room.
fn extend_within(items: &mut Vec<u8>, bytes: &[u8])
    requires { vec_len items.old + length bytes.now ≤ vec_capacity items.old }
    ensures { items.new.items ≡ items.old.items ++ bytes.now }
{
    if items.extend_from_slice(bytes).is_err() {
        unreachable!()
    }
}

/// Writes over what is there, and past the end. After an `Err` nothing has changed.
fn overwrite(content: &mut Vec<u8>, at: usize, bytes: &[u8]) -> Result<(), AllocError>
    requires { at ≤ vec_len content.old }
    ensures ok { OnOk result (content.new.items ≡ written content.old.items at bytes.now) }
    ensures err { OnErr result (content.new.items ≡ content.old.items) }
{
    let inside = bytes.len().min(content.len() - at);
    content.extend_from_slice(&bytes[inside..])?;
    content[at..at + inside].copy_from_slice(&bytes[..inside]);
    Ok(())
}

/// Puts this byte into each of these ranges.
fn fill_all(content: &mut Vec<u8>, ranges: &[Range], fill: u8)
    ensures { content.new.items ≡ all_filled fill ranges.now content.old.items }
{
    for range in ranges {
        fill_range(content, range.at, range.len, fill);
    }
}

/// Puts this byte into `len` places from a place on, as far as there are places.
fn fill_range(content: &mut [u8], at: usize, len: usize, fill: u8)
    ensures { content.new ≡ filled fill at len content.old }
{
    let start = at.min(content.len());
    let len = len.min(content.len() - start);
    content[start..start + len].fill(fill);
}
