//! An append to a journal and to the list of its entries.
ghost use Rattle.std.specs.Prelude.{◌≡◌, ◌<◌, ◌++◌, ◌∷◌, [], ◌+◌, ◌^◌, true, length};
ghost use Rattle.arc_data.specs.Valid.{IsValidRecord};
ghost use Rattle.arc_disk.specs.Disk.{LeavesOnly};
ghost use Rattle.arc_journal.specs.Image.{is_below};
ghost use Rattle.arc_journal.specs.Journal.{IsBeforeOrWith, IsOfSame, disk_of, node_of, slots_of};
ghost use Rattle.arc_node.specs.Appending.{AppendsInCalls, AppendsTo};
ghost use Rattle.arc_node.specs.Node.{HasEntries};

use arc_bytes::Memory;
use arc_data::Record;
use arc_disk::Disk;
use arc_journal::{AppendEnd, Journal};
use arc_voting::Indexed;

/// How an append ended.
#[derive(Drop)]
pub(crate) enum Appended {
    /// The entry is on the disk, and in the list.
    Done,
    /// The disk failed: whether the entry is on it is in doubt.
    Doubtful(Record),
    /// The journal has as many entries as it takes.
    Full { count: u32 },
    /// There was no memory left, though the journal has room, and nothing has changed.
    Memory,
}

/// How an up node kept an entry.
#[derive(Clone, Copy)]
pub(crate) enum Kept {
    /// The entry is on the disk, and in the list.
    Done,
    /// The node isn't up any more: its disk failed, or its journal is full.
    Fallen,
    /// There was no memory left, though the journal has room, and nothing has changed.
    Memory,
}

/// Puts an entry behind a list that has room for it.
fn push_within(list: &mut Indexed, entry: Record)
    requires room { list.old.has_room ≡ true }
    requires few { length list.old.entries + 1 < 2 ^ 32 }
    ensures { list.new.entries ≡ list.old.entries ++ entry ∷ [] }
{
    match list.push(entry) {
        Ok(()) => {}
        Err(_) => unreachable!(),
    }
}

/// Appends an entry to a journal, and then to the list of its entries. A full journal is told before any memory is asked
/// for. The list has room for the entry before the journal has it, so that no entry is on the disk that the list lacks.
pub(crate) fn append_entry<D: Disk>(
    journal: &mut Journal<D>,
    list: &mut Indexed,
    entry: Record,
) -> Appended
    requires has { HasEntries D.tells D.content D.may_leave journal.old list.old.entries }
    requires valid { IsValidRecord entry }
    requires below { is_below (slots_of journal.old) entry ≡ true }
    requires few { length list.old.entries + 1 < 2 ^ 32 }
    ensures entries { AppendsTo D.tells D.content D.may_leave D.faults journal.old journal.new
        list.old.entries list.new.entries entry result }
    ensures any_moment { D.tells → LeavesOnly D.moment D.left_since (disk_of journal.old) (disk_of journal.new)
        (IsBeforeOrWith (node_of journal.old) (slots_of journal.old) list.old.entries entry) }
    ensures calls { AppendsInCalls D.moment D.faults D.stops_in D.is_tame
        (disk_of journal.old) (disk_of journal.new) result }
    ensures same { IsOfSame journal.old journal.new }
{
    let count = journal.count();
    if journal.is_full() {
        drop(entry);
        return Appended::Full { count };
    }
    match list.reserve() {
        Ok(()) => {}
        Err(Memory) => {
            drop(entry);
            return Appended::Memory;
        }
    }
    match journal.append(&entry) {
        Ok(()) => {}
        Err(AppendEnd::Disk) => return Appended::Doubtful(entry),
        Err(AppendEnd::Full { .. }) => unreachable!(),
        Err(AppendEnd::Memory) => {
            drop(entry);
            return Appended::Memory;
        }
    }
    push_within(list, entry);
    Appended::Done
}
