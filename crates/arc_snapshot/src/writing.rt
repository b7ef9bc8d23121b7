//! What the writer does with its copies and its record.
ghost use Rattle.std.specs.Prelude.{◌≡◌, ◌+◌, ◌-◌, ◌^◌, ◌<◌, true, [], ◌∷◌, ◌++◌, length, drop, All, IfOk, MatchResult};
ghost use Rattle.arc_data.specs.Valid.{IsValidCommand};
ghost use Rattle.arc_snapshot.specs.declared.taken.Step.TheVariants.{Do};
ghost use Rattle.arc_snapshot.specs.Record.{Records};
ghost use Rattle.arc_snapshot.specs.Seats.{known_at};
ghost use Rattle.arc_snapshot.specs.Writing.{Agree, IsReady, Showed, TakesOver, lists, next_of};

use crate::record::Record;
use crate::rule::{Publish, SnapshotWriter};
use crate::taken::{Step, Taken};
use arc_bytes::Memory;
use arc_data::Command;
use std::alloc::Global;
use std::sync::Wait;

/// Hands a step to both copies.
fn hand_over(writer: &mut SnapshotWriter, step: Step) -> Result<(), Memory>
    ensures shown { writer.new.desk ≡ writer.old.desk }
    ensures handed { MatchResult result
        (λ _. drop writer.new.behind writer.new.log.items ≡ drop writer.old.behind writer.old.log.items ++ step ∷ [])
        (λ _. drop writer.new.behind writer.new.log.items ≡ drop writer.old.behind writer.old.log.items) }
{
    match writer.append(step) {
        Ok(()) => Ok(()),
        Err(refused) => {
            drop(refused);
            Err(Memory)
        }
    }
}

/// Takes one command over, and records it.
fn take_one(
    alloc: Global,
    writer: &mut SnapshotWriter,
    kept: &mut Record,
    command: &Command,
) -> Result<(), Memory>
    requires valid { IsValidCommand command.now }
    requires room { kept.old.whole ≡ true → length kept.old.list + 1 < 2 ^ 64 }
    ensures shown { writer.new.desk ≡ writer.old.desk }
    ensures taken { MatchResult result
        (λ _. (drop writer.new.behind writer.new.log.items ≡ drop writer.old.behind writer.old.log.items ++ Do command.now ∷ [])
        × Records kept.old command.now kept.new)
        (λ _. (drop writer.new.behind writer.new.log.items ≡ drop writer.old.behind writer.old.log.items)
        × (kept.new ≡ kept.old)) }
{
    let taken = Taken::copy_of(alloc, command)?;
    hand_over(writer, Step::Do(taken))?;
    kept.add(command);
    Ok(())
}

/// Takes commands over, until there is no memory.
pub(crate) fn take_over(
    alloc: Global,
    writer: &mut SnapshotWriter,
    kept: &mut Record,
    taken: &mut u64,
    new: &[Command],
) -> Result<(), Memory>
    requires valid { All IsValidCommand new.now }
    requires room { taken.old + length new.now < 2 ^ 64 - 1 }
    requires agree { Agree writer.old.desk.shown.value (next_of writer.old.desk.shown.value writer.old.behind writer.old.log.items)
        (known_at writer.old.desk.place) kept.old taken.old }
    ensures agree { Agree writer.new.desk.shown.value (next_of writer.new.desk.shown.value writer.new.behind writer.new.log.items)
        (known_at writer.new.desk.place) kept.new taken.new }
    ensures taken { TakesOver
        (lists writer.old.desk.shown.value (next_of writer.old.desk.shown.value writer.old.behind writer.old.log.items))
        new.now result
        (lists writer.new.desk.shown.value (next_of writer.new.desk.shown.value writer.new.behind writer.new.log.items)) }
{
    for command in new {
        take_one(alloc, writer, kept, command)?;
        *taken += 1;
    }
    Ok(())
}

/// Marks what is shown next with all that is recorded.
pub(crate) fn mark(writer: &mut SnapshotWriter, kept: &Record) -> Result<(), Memory>
    ensures shown { writer.new.desk ≡ writer.old.desk }
    ensures marked { MatchResult result
        (λ _. next_of writer.new.desk.shown.value writer.new.behind writer.new.log.items
        ≡ record (next_of writer.old.desk.shown.value writer.old.behind writer.old.log.items)
        { recorded = kept.now.list; sides = kept.now.sides })
        (λ _. next_of writer.new.desk.shown.value writer.new.behind writer.new.log.items
        ≡ next_of writer.old.desk.shown.value writer.old.behind writer.old.log.items) }
{
    hand_over(writer, Step::Mark(kept.front()))
}

/// Takes commands over, and marks what is shown next.
pub(crate) fn prepare(
    alloc: Global,
    writer: &mut SnapshotWriter,
    kept: &mut Record,
    taken: &mut u64,
    new: &[Command],
) -> Result<(), Memory>
    requires valid { All IsValidCommand new.now }
    requires room { taken.old + length new.now < 2 ^ 64 - 1 }
    requires agree { Agree writer.old.desk.shown.value (next_of writer.old.desk.shown.value writer.old.behind writer.old.log.items)
        (known_at writer.old.desk.place) kept.old taken.old }
    ensures agree { Agree writer.new.desk.shown.value (next_of writer.new.desk.shown.value writer.new.behind writer.new.log.items)
        (known_at writer.new.desk.place) kept.new taken.new }
    ensures taken { TakesOver
        (lists writer.old.desk.shown.value (next_of writer.old.desk.shown.value writer.old.behind writer.old.log.items))
        new.now result
        (lists writer.new.desk.shown.value (next_of writer.new.desk.shown.value writer.new.behind writer.new.log.items)) }
    ensures ready { IfOk result (λ _. (kept.new.whole ≡ true)
        × IsReady writer.new.desk.shown.value (next_of writer.new.desk.shown.value writer.new.behind writer.new.log.items)) }
{
    take_over(alloc, writer, kept, taken, new)?;
    if !kept.is_whole() {
        return Err(Memory);
    }
    mark(writer, kept)
}

/// Shows readers all that was taken over.
pub(crate) fn show<R: Wait>(writer: SnapshotWriter, rt: &R) -> (SnapshotWriter, Result<(), Memory>)
    requires { IsReady writer.desk.shown.value (next_of writer.desk.shown.value writer.behind writer.log.items) }
    ensures { Showed writer.desk.shown.value (next_of writer.desk.shown.value writer.behind writer.log.items)
        (known_at writer.desk.place) result.1 result.0.desk.shown.value
        (next_of result.0.desk.shown.value result.0.behind result.0.log.items) (known_at result.0.desk.place) }
{
    let (writer, shown) = writer.publish_as::<Publish, R>(rt);
    match shown {
        Ok(()) => (writer, Ok(())),
        Err(_) => (writer, Err(Memory)),
    }
}
