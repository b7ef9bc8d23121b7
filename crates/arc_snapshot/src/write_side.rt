//! The side of the writer.
ghost use Rattle.std.specs.Prelude.{◌≡◌, ◌+◌, ◌-◌, ◌^◌, ◌<◌, [], length, All, IfOk};
ghost use Rattle.arc_data.specs.Valid.{IsValidCommand};
ghost use Rattle.arc_snapshot.specs.Reading.{Hears};
ghost use Rattle.arc_snapshot.specs.Rule.{newcomer};
ghost use Rattle.arc_snapshot.specs.Writing.{Publishes};

use crate::read_side::ReadSide;
use crate::record::Record;
use crate::rule::{Name, SnapshotWriter};
use crate::snapshot::Snapshot;
use crate::writing::{prepare, show};
use arc_bytes::Memory;
use arc_data::Command;
use core::mem::replace_with;
use left_right::writer::Writer;
use std::alloc::Global;
use std::marker::Model;
use std::sync::Wait;

/// The writer of the published commands. It keeps a handle of the runtime, since it waits for readers when it publishes
/// and when it is dropped. A contract sees its two lists.
pub struct WriteSide<R: Wait + Drop> {
    writer: SnapshotWriter,
    kept: Record,
    /// How many commands were taken over.
    taken: u64,
    rt: R,
}

impl<R: Wait + Drop> Model for WriteSide<R> {
    ghost use Rattle.arc_snapshot.specs.declared.known.Lists.{Lists};
    ghost use Rattle.arc_snapshot.specs.Seats.{known_at};
    ghost use Rattle.arc_snapshot.specs.Writing.{Agree, lists, next_of};

    ghost Value = { Lists };

    ghost view = { λ w. lists w.writer.desk.shown.value
        (next_of w.writer.desk.shown.value w.writer.behind w.writer.log.items) };

    ghost invariant = { λ w. Agree w.writer.desk.shown.value
        (next_of w.writer.desk.shown.value w.writer.behind w.writer.log.items) (known_at w.writer.desk.place) w.kept w.taken };
}

impl<R: Wait + Drop> WriteSide<R> {
    /// The writer of no commands yet, with room for so many readers at once.
    pub(crate) fn new(alloc: Global, rt: R, readers: u32) -> Result<WriteSide<R>, Memory>
        requires { 0 < readers }
        ensures published { IfOk result (λ w. w.published ≡ []) }
        ensures taken { IfOk result (λ w. w.taken ≡ []) }
    {
        let kept = Record::open();
        let first = Snapshot::fresh(alloc, kept.front())?;
        let second = Snapshot::fresh(alloc, kept.front())?;
        let writer: SnapshotWriter = Writer::new(alloc, first, second, readers as usize)?;
        let (writer, shown) = show(writer, &rt);
        match shown {
            Ok(()) => Ok(WriteSide {
                writer,
                kept,
                taken: 0,
                rt,
            }),
            Err(Memory) => {
                drop(writer.take(&rt));
                Err(Memory)
            }
        }
    }

    /// A reader of these sides, which has entered nothing and was told of nothing.
    pub(crate) fn reader(&mut self) -> Result<ReadSide, Memory>
        ensures side { self.new ≡ self.old }
        ensures reader { IfOk result (λ r. r ≡ newcomer self.old.sides) }
    {
        let mut reader = self.writer.factory().reader()?;
        let note = self.writer.tell::<Name>();
        reader.learn::<Name>(note);
        Ok(ReadSide::of(reader))
    }

    /// How many commands readers see.
    pub fn published(&self) -> u64
        ensures { result ≡ length self.now.published }
    {
        self.writer.published().length()
    }

    /// How many commands were taken over: those that are published, and those after them.
    pub fn taken(&self) -> u64
        ensures { result ≡ length self.now.taken }
    {
        self.taken
    }

    /// Takes commands over, behind those that were taken, and shows readers all of them at once. May wait for readers.
    #[tactic(auto, using(crate::proofs::Adding::publishes_stay))]
    pub fn publish(&mut self, alloc: Global, new: &[Command]) -> Result<(), Memory>
        requires valid { All IsValidCommand new.now }
        requires room { length self.old.taken + length new.now < 2 ^ 64 - 1 }
        ensures publishes { Publishes self.old new.now result self.new }
        ensures sides { self.new.sides ≡ self.old.sides }
    {
        prepare(
            alloc,
            &mut self.writer,
            &mut self.kept,
            &mut self.taken,
            new,
        )?;
        replace_with(&mut self.writer, &self.rt, |writer, rt| show(writer, rt))
    }

    /// Tells a reader of these sides of all that is published.
    #[tactic(auto, using(crate::proofs::Adding::hears_stay))]
    pub fn tell(&mut self, reads: &mut ReadSide) -> Result<(), Memory>
        requires { reads.old.sides ≡ self.old.sides }
        ensures side { self.new ≡ self.old }
        ensures told { Hears reads.old self.old.published result reads.new }
        ensures sides { reads.new.sides ≡ reads.old.sides }
    {
        let Some((length, front)) = reads.hear() else {
            return Err(Memory);
        };
        self.kept.compare(&front);
        if length == self.published() {
            Ok(())
        } else {
            Err(Memory)
        }
    }
}

impl<R: Wait + Drop> Drop for WriteSide<R> {
    fn drop(self) {
        let Self {
            writer,
            kept: _,
            taken: _,
            rt,
        } = self;
        drop(writer.take(&rt));
    }
}
