//! The task that the program's words name.
ghost use Rattle.std.specs.Prelude.{◌≡◌, ◌≢◌, ◌↔◌, ℕ, List, [], Option, Some, None, false, Err, IfErr, IfSome, IsTrue, MatchResult};
ghost use Rattle.arc_bytes.specs.Counts.{HasRisen};
ghost use Rattle.arc_drill.specs.Drilled.{AreEmpty, Drilled, KeepsOthers, Lasts};
ghost use Rattle.arc_drill.specs.Since.{Since};
ghost use Rattle.arc_drill.specs.Status.{IsStatus};
ghost use Rattle.arc_journal.specs.Image.{records_of};
ghost use Rattle.arc_journal.specs.Runs.{OpensInRun};
ghost use Rattle.arc_main.specs.Words.{IsDrill, TellsUsage};
ghost use Rattle.arc_script.specs.Grammar.{steps_of};

use crate::outside::Outside;
use arc_bytes::{Failed, Five, Sink, write_all};
use arc_disk::Rig;
use arc_drill::drill;
use arc_journal::JournalEnd;
use std::alloc::Global;

const USAGE: &str = "usage: arc drill\n";

/// Does what the words ask for, and answers the exit status. The one word `drill` drills the script on standard input
/// over five empty disks, and gives these back as they stand; any other words write the usage line on the notes and answer
/// 2, also where the notes fail.
pub fn run<E: Outside, K: Sink, N: Sink, D: Rig>(
    alloc: Global,
    words: &[String],
    outside: &mut E,
    out: &mut K,
    notes: &mut N,
    disks: Five<D>,
) -> (u8, Five<D>)
    requires empty { D.tells → AreEmpty D.content disks }
    // The drill's theorem, over the bytes that the outside tells and the disks.
    ensures drilled { IsDrill words.now → D.tells → IfSome (E.named outside.old None) (λ text.
        Drilled (HasRisen (D.faults disks.d0) (D.faults result.1.d0)) (records_of (D.content result.1.d0))
        (K.taken out.old) (K.taken out.new) result.0 (steps_of text)) }
    // It lasts: each image that a crash would leave there, the content among them, is a journal of which this holds too.
    ensures lasting { IsDrill words.now → D.tells → (image : List ℕ) → D.may_leave result.1.d0 image →
        IfSome (E.named outside.old None) (λ text.
        Lasts (HasRisen (D.faults disks.d0) (D.faults result.1.d0)) image
        (K.taken out.old) (K.taken out.new) result.0 (steps_of text)) }
    // Over any disk: a script never ends with 6, and of any other text the end is told, and what went out.
    ensures by_text { IsDrill words.now → IfSome (E.named outside.old None) (λ text. MatchResult (steps_of text)
        (λ steps. result.0 ≢ 6) (λ bad. Drilled ⊥ [] (K.taken out.old) (K.taken out.new) result.0 (Err bad))) }
    ensures status { IsDrill words.now → IsStatus result.0 }
    // 3 where the script can't be opened, and only where the outside failed.
    ensures unopened { IsDrill words.now → E.opens outside.old None ≡ Some false → result.0 ≡ 3 }
    ensures source_failed { result.0 ≡ 3 → HasRisen (E.faults outside.old) (E.faults outside.new) }
    ensures sink_failed { result.0 ≡ 4 → HasRisen (K.faults out.old) (K.faults out.new) }
    // 7 where the disk failed in the device calls of a creation, of which there are six.
    ensures disk_failed { result.0 ≡ 7 → HasRisen (D.faults disks.d0) (D.faults result.1.d0) }
    ensures creating { result.0 ≡ 7 → OpensInRun D.moment D.faults D.stops_in D.is_tame 6
        disks.d0 result.1.d0 (Some JournalEnd.Disk) }
    ensures quiet { Since D.faults D.stops_in D.is_tame disks.d0 result.1.d0 }
    ensures other_disks { KeepsOthers disks result.1 }
    ensures untouched { result.0 ≡ 3 → (out.new ≡ out.old) × (result.1 ≡ disks) }
    // No disk was changed where the text is no script.
    ensures not_begun { result.0 ≡ 6 → result.1 ≡ disks }
    ensures no_script { IsDrill words.now → IfSome (E.named outside.old None) (λ text.
        IfErr (steps_of text) (λ bad. result.1 ≡ disks)) }
    // It opens standard input alone.
    ensures others { (path : Option (List ℕ)) → path ≢ None →
        E.named outside.new path ≡ E.named outside.old path }
    // Other words are no task.
    ensures usage { (result.0 ≡ 2) ↔ (IsDrill words.now → ⊥) }
    ensures no_task { result.0 ≡ 2 → (out.new ≡ out.old) × (outside.new ≡ outside.old) × (result.1 ≡ disks)
        × TellsUsage (N.taken notes.old) (N.taken notes.new) (N.faults notes.old) (N.faults notes.new) }
    ensures no_notes { result.0 ≢ 2 → notes.new ≡ notes.old }
{
    if !is_drill(words) {
        let _ = write_all(notes, USAGE.as_bytes());
        return (2, disks);
    }
    let mut src = match outside.script(None) {
        Ok(src) => src,
        Err(Failed) => return (3, disks),
    };
    let (status, disks) = drill(alloc, &mut src, out, disks);
    outside.done(src);
    (status, disks)
}

fn is_drill(words: &[String]) -> bool
    ensures { IsTrue result ↔ IsDrill words.now }
{
    match words {
        [word] => word.as_str() == "drill",
        _ => false,
    }
}
