//! The report: each step is done, and its line written when it is.
ghost use Rattle.std.specs.Prelude.{◌≡◌, ◌≢◌, ◌≤◌, ◌<◌, [], ◌∷◌, List, ℕ, Some, Ok};
ghost use Rattle.std.specs.List.{All};
ghost use Rattle.arc_bytes.specs.Counts.{HasRisen};
ghost use Rattle.arc_data.specs.declared.record.Record.{Record};
ghost use Rattle.arc_drill.specs.Drilled.{LastsBy, Wrote};
ghost use Rattle.arc_drill.specs.Since.{Since};
ghost use Rattle.arc_drill.specs.Telling.{slots_of};
ghost use Rattle.arc_journal.specs.Image.{records_of};
ghost use Rattle.arc_journal.specs.Runs.{OpensInRun};
ghost use Rattle.arc_node.specs.Node.{HasVotesInPlace, IsInOrder, IsPossible, IsSameNode, disk_in};
ghost use Rattle.arc_node.specs.Starting.{IsCreated};
ghost use Rattle.arc_plain.specs.State.{fresh as fresh_state};
ghost use Rattle.arc_script.specs.Steps.{IsValidStep};
ghost use Rattle.arc_state.specs.Standing.{StandsFor};

use crate::Status;
use crate::step::do_step;
use arc_bytes::{Failed, Sink, write_all};
use arc_disk::Rig;
use arc_node::{JournalEnd, Node};
use arc_script::Step;
use arc_state::State;
use std::alloc::Global;

/// How many commands the list takes where no step says so.
const MAX_SLOTS: u32 = 4096;

/// Does the steps of a script in order, with a node on an empty disk, and writes the line of each. Gives the disk back.
pub(crate) fn report<K: Sink, D: Rig>(
    alloc: Global,
    out: &mut K,
    steps: &[Step],
    disk: D,
) -> (Status, D)
    requires valid { All IsValidStep steps.now }
    requires empty { D.tells → D.content disk ≡ [] }
    ensures wrote { D.tells → Wrote (HasRisen (D.faults disk) (D.faults result.1)) (records_of (D.content result.1))
        (K.taken out.old) (K.taken out.new) result.0 (Ok steps.now) }
    ensures lasting { D.tells → (image : List ℕ) → D.may_leave result.1 image →
        LastsBy (HasRisen (D.faults disk) (D.faults result.1)) image
        (K.taken out.old) (K.taken out.new) result.0 (Ok steps.now) }
    ensures read { result.0 ≢ Status.SourceFailed }
    ensures script { result.0 ≢ Status.BadScript }
    ensures sink_failed { result.0 ≡ Status.SinkFailed → HasRisen (K.faults out.old) (K.faults out.new) }
    ensures disk_failed { result.0 ≡ Status.DiskFailed → HasRisen (D.faults disk) (D.faults result.1) }
    ensures creating { result.0 ≡ Status.DiskFailed → OpensInRun D.moment D.faults D.stops_in D.is_tame 6
        disk result.1 (Some JournalEnd.Disk) }
    ensures since { Since D.faults D.stops_in D.is_tame disk result.1 }
{
    let Ok(mut state) = State::fresh(alloc) else {
        return (Status::Memory, disk);
    };
    match Node::create(alloc, disk, 0, slots_of(steps)) {
        Ok(node) => {
            let mut node = node;
            let status = do_steps(alloc, out, steps, &mut node, &mut state);
            (status, node.give_back())
        }
        Err((disk, JournalEnd::Disk)) => (Status::DiskFailed, disk),
        Err((disk, _)) => (Status::Memory, disk),
    }
}

/// Does the steps of a script in order, with a new node, and writes the line of each.
fn do_steps<K: Sink, D: Rig>(
    alloc: Global,
    out: &mut K,
    steps: &[Step],
    node: &mut Node<D>,
    state: &mut State,
) -> Status
    requires valid { All IsValidStep steps.now }
    requires in_order { IsInOrder D.tells D.content D.may_leave node.old }
    requires in_place { HasVotesInPlace node.old }
    requires created { IsCreated node.old 0 (slots_of steps.now) }
    requires fresh { StandsFor state.old fresh_state }
    ensures in_order { IsInOrder D.tells D.content D.may_leave node.new }
    ensures wrote { D.tells → (first : ℕ) → first ≤ D.faults (disk_in node.old) →
        (list : List Record) → IsPossible node.new list →
        Wrote (HasRisen first (D.faults (disk_in node.new))) list (K.taken out.old) (K.taken out.new) result (Ok steps.now) }
    ensures read { result ≢ Status.SourceFailed }
    ensures sink_failed { result ≡ Status.SinkFailed → HasRisen (K.faults out.old) (K.faults out.new) }
    ensures script { result ≢ Status.BadScript }
    ensures created { result ≢ Status.DiskFailed }
    ensures since { Since D.faults D.stops_in D.is_tame (disk_in node.old) (disk_in node.new) }
    ensures same { IsSameNode node.old node.new }
{
    for step in steps {
        let Ok(line) = do_step(alloc, node, state, step) else {
            return Status::Memory;
        };
        match write_all(out, &line) {
            Ok(()) => {}
            Err(Failed) => return Status::SinkFailed,
        }
    }
    Status::Done
}

/// How many commands the list takes.
fn slots_of(steps: &[Step]) -> u32
    requires { All IsValidStep steps.now }
    ensures value { result ≡ slots_of steps.now }
    ensures some { 1 ≤ result }
    ensures few { result ≤ 16384 }
{
    match steps {
        [Step::Slots { n }, ..] => *n,
        _ => MAX_SLOTS,
    }
}
