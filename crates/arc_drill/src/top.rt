//! The drill itself.
ghost use Rattle.std.specs.Prelude.{◌≡◌, ◌≢◌, List, ℕ, [], Some, IfSome, IfErr, Err, MatchResult};
ghost use Rattle.arc_bytes.specs.Counts.{HasRisen};
ghost use Rattle.arc_bytes.specs.Source.{AtEnd};
ghost use Rattle.arc_drill.specs.Drilled.{AreEmpty, Drilled, KeepsOthers, Lasts, LastsBy, Wrote};
ghost use Rattle.arc_drill.specs.Since.{Since};
ghost use Rattle.arc_drill.specs.Status.{IsStatus};
ghost use Rattle.arc_journal.specs.Image.{records_of};
ghost use Rattle.arc_journal.specs.Runs.{OpensInRun};
ghost use Rattle.arc_script.specs.Grammar.{steps_of};

use crate::report::report;
use crate::{Status, lines};
use arc_bytes::{Failed, Five, ReadEnd, Sink, Source, read_all, write_all};
use arc_disk::Rig;
use arc_node::JournalEnd;
use arc_script::{MAX_SCRIPT, ScriptCode, ScriptEnd, read_script};
use std::alloc::Global;

/// Reads a script from `src`, does its steps in order, writes the line of each to `out` when it is done, and answers
/// the status: 0 where all of that was done, 3 and 4 where the source or the sink failed, 5 for want of memory, 6 where
/// the text is no script, and 7 where the first disk failed while node 0 was created on it. Gives the disks back as they
/// stand; no call is made on the other four. The disks that are handed in are empty.
pub fn drill<S: Source, K: Sink, D: Rig>(
    alloc: Global,
    src: &mut S,
    out: &mut K,
    disks: Five<D>,
) -> (u8, Five<D>)
    requires empty { D.tells → AreEmpty D.content disks }
    // What went out is what the script's report tells, by the status, of the journal that the first disk reads as.
    ensures drilled { D.tells → IfSome (S.left src.old) (λ text.
        Drilled (HasRisen (D.faults disks.d0) (D.faults result.1.d0)) (records_of (D.content result.1.d0))
        (K.taken out.old) (K.taken out.new) result.0 (steps_of text)) }
    // It lasts: each image that a crash would leave there, the content among them, is a journal of which this holds too.
    ensures lasting { D.tells → (image : List ℕ) → D.may_leave result.1.d0 image →
        IfSome (S.left src.old) (λ text.
        Lasts (HasRisen (D.faults disks.d0) (D.faults result.1.d0)) image
        (K.taken out.old) (K.taken out.new) result.0 (steps_of text)) }
    // Over any disk: a script never ends with 6, and of any other text the end is told, and what went out.
    ensures by_text { IfSome (S.left src.old) (λ text. MatchResult (steps_of text)
        (λ steps. result.0 ≢ 6) (λ bad. Drilled ⊥ [] (K.taken out.old) (K.taken out.new) result.0 (Err bad))) }
    ensures status { IsStatus result.0 }
    ensures read_whole { result.0 ≡ 0 → AtEnd (S.left src.new) }
    ensures source_failed { result.0 ≡ 3 → HasRisen (S.faults src.old) (S.faults src.new) }
    ensures untouched { result.0 ≡ 3 → (out.new ≡ out.old) × (result.1 ≡ disks) }
    ensures sink_failed { result.0 ≡ 4 → HasRisen (K.faults out.old) (K.faults out.new) }
    // 7 where the disk failed in the device calls of a creation, of which there are six.
    ensures disk_failed { result.0 ≡ 7 → HasRisen (D.faults disks.d0) (D.faults result.1.d0) }
    ensures creating { result.0 ≡ 7 → OpensInRun D.moment D.faults D.stops_in D.is_tame 6
        disks.d0 result.1.d0 (Some JournalEnd.Disk) }
    // A disk that fails only where it is told to stop hasn't failed.
    ensures quiet { Since D.faults D.stops_in D.is_tame disks.d0 result.1.d0 }
    ensures others { KeepsOthers disks result.1 }
    // No disk was changed where the text is no script.
    ensures not_begun { result.0 ≡ 6 → result.1 ≡ disks }
    ensures no_script { IfSome (S.left src.old) (λ text. IfErr (steps_of text) (λ bad. result.1 ≡ disks)) }
{
    let Five { d0, d1, d2, d3, d4 } = disks;
    let (status, d0) = read_and_report(alloc, src, out, d0);
    (status.number(), Five { d0, d1, d2, d3, d4 })
}

/// The drill with the first disk, and its end by name.
fn read_and_report<S: Source, K: Sink, D: Rig>(
    alloc: Global,
    src: &mut S,
    out: &mut K,
    disk: D,
) -> (Status, D)
    requires empty { D.tells → D.content disk ≡ [] }
    ensures wrote { D.tells → IfSome (S.left src.old) (λ text.
        Wrote (HasRisen (D.faults disk) (D.faults result.1)) (records_of (D.content result.1))
        (K.taken out.old) (K.taken out.new) result.0 (steps_of text)) }
    ensures lasting { D.tells → (image : List ℕ) → D.may_leave result.1 image → IfSome (S.left src.old) (λ text.
        LastsBy (HasRisen (D.faults disk) (D.faults result.1)) image
        (K.taken out.old) (K.taken out.new) result.0 (steps_of text)) }
    ensures by_text { IfSome (S.left src.old) (λ text. MatchResult (steps_of text)
        (λ steps. result.0 ≢ Status.BadScript)
        (λ bad. Wrote ⊥ [] (K.taken out.old) (K.taken out.new) result.0 (Err bad))) }
    ensures read_whole { result.0 ≡ Status.Done → AtEnd (S.left src.new) }
    ensures source_failed { result.0 ≡ Status.SourceFailed →
        HasRisen (S.faults src.old) (S.faults src.new) × (out.new ≡ out.old) × (result.1 ≡ disk) }
    ensures sink_failed { result.0 ≡ Status.SinkFailed → HasRisen (K.faults out.old) (K.faults out.new) }
    ensures disk_failed { result.0 ≡ Status.DiskFailed → HasRisen (D.faults disk) (D.faults result.1) }
    ensures creating { result.0 ≡ Status.DiskFailed → OpensInRun D.moment D.faults D.stops_in D.is_tame 6
        disk result.1 (Some JournalEnd.Disk) }
    ensures not_begun { result.0 ≡ Status.BadScript → result.1 ≡ disk }
    ensures no_script { IfSome (S.left src.old) (λ text. IfErr (steps_of text) (λ bad. result.1 ≡ disk)) }
    ensures since { Since D.faults D.stops_in D.is_tame disk result.1 }
{
    match read_all(alloc, src, MAX_SCRIPT) {
        Ok(text) => drill_text(alloc, out, &text, disk),
        Err(ReadEnd::Failed) => (Status::SourceFailed, disk),
        Err(ReadEnd::TooLong { .. }) => (refuse(alloc, out, 0, ScriptCode::TooLong), disk),
        Err(ReadEnd::Memory) => (Status::Memory, disk),
    }
}

/// The drill of a text that was read whole.
fn drill_text<K: Sink, D: Rig>(alloc: Global, out: &mut K, text: &[u8], disk: D) -> (Status, D)
    requires empty { D.tells → D.content disk ≡ [] }
    ensures wrote { D.tells → Wrote (HasRisen (D.faults disk) (D.faults result.1)) (records_of (D.content result.1))
        (K.taken out.old) (K.taken out.new) result.0 (steps_of text.now) }
    ensures lasting { D.tells → (image : List ℕ) → D.may_leave result.1 image →
        LastsBy (HasRisen (D.faults disk) (D.faults result.1)) image
        (K.taken out.old) (K.taken out.new) result.0 (steps_of text.now) }
    ensures by_text { MatchResult (steps_of text.now) (λ steps. result.0 ≢ Status.BadScript)
        (λ bad. Wrote ⊥ [] (K.taken out.old) (K.taken out.new) result.0 (Err bad)) }
    ensures read { result.0 ≢ Status.SourceFailed }
    ensures sink_failed { result.0 ≡ Status.SinkFailed → HasRisen (K.faults out.old) (K.faults out.new) }
    ensures disk_failed { result.0 ≡ Status.DiskFailed → HasRisen (D.faults disk) (D.faults result.1) }
    ensures creating { result.0 ≡ Status.DiskFailed → OpensInRun D.moment D.faults D.stops_in D.is_tame 6
        disk result.1 (Some JournalEnd.Disk) }
    ensures not_begun { result.0 ≡ Status.BadScript → result.1 ≡ disk }
    ensures no_script { IfErr (steps_of text.now) (λ bad. result.1 ≡ disk) }
    ensures since { Since D.faults D.stops_in D.is_tame disk result.1 }
{
    match read_script(alloc, text) {
        Ok(steps) => report(alloc, out, &steps, disk),
        Err(ScriptEnd::BadScript { line, code }) => (refuse(alloc, out, line, code), disk),
        Err(ScriptEnd::Memory) => (Status::Memory, disk),
    }
}

/// Tells why a text is no script.
fn refuse<K: Sink>(alloc: Global, out: &mut K, line: u32, code: ScriptCode) -> Status
    ensures wrote { Wrote ⊥ [] (K.taken out.old) (K.taken out.new) result (Err (line, code)) }
    ensures read { result ≢ Status.SourceFailed }
    ensures no_disk { result ≢ Status.DiskFailed }
    ensures not_done { result ≢ Status.Done }
    ensures sink_failed { result ≡ Status.SinkFailed → HasRisen (K.faults out.old) (K.faults out.new) }
{
    let Ok(text) = lines::of_bad_script(alloc, line, code) else {
        return Status::Memory;
    };
    match write_all(out, &text) {
        Ok(()) => Status::BadScript,
        Err(Failed) => Status::SinkFailed,
    }
}
