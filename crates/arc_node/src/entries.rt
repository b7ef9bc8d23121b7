//! The entries that a node keeps, with what they come to.
ghost use Rattle.std.specs.Prelude.{◌≡◌, ◌<◌, ◌+◌, ◌^◌, [], true, length, IfOk};
ghost use Rattle.std.specs.List.{slice_get};
ghost use Rattle.std.specs.Option.{option_copied};
ghost use Rattle.arc_data.specs.Entries.{closed_len, promise};
ghost use Rattle.arc_data.specs.Valid.{IsValidRecord};
ghost use Rattle.arc_disk.specs.Disk.{LeavesOnly};
ghost use Rattle.arc_journal.specs.Image.{is_below};
ghost use Rattle.arc_journal.specs.Journal.{IsBeforeOrWith, IsOfSame, disk_of, node_of, slots_of};
ghost use Rattle.arc_node.specs.Appending.{AppendsInCalls, AppendsTo};
ghost use Rattle.arc_node.specs.Node.{HasEntries};
ghost use Rattle.arc_node.specs.Totals.{after, totals_at_end, totals_of};
ghost use Rattle.arc_voting.specs.Journals.{last_inc, since_opened};
ghost use Rattle.arc_voting.specs.Lists.{applied};
ghost use Rattle.arc_voting.specs.Tails.{tail_of};

use crate::appending::{Appended, append_entry};
use crate::starts::{last_inc, since_opened};
use arc_bytes::Memory;
use arc_data::{Command, Record};
use arc_disk::Disk;
use arc_journal::Journal;
use arc_voting::Indexed;
use std::alloc::Global;
use std::marker::Model;

/// Entries in order, which contracts see as a list, with a table of the slots that they close. Their starts are counted as
/// they are appended, so that an identifier is drawn without a walk over them.
#[derive(Drop)]
pub(crate) struct Entries {
    list: Indexed,
    totals: Totals,
}

/// What a list of entries says of the starts of its node.
#[derive(Clone, Copy)]
pub(crate) struct Totals {
    /// The number of the last start.
    pub inc: u32,
    /// How many entries stand behind the last start.
    pub since: u32,
}

impl Model for Entries {
    ghost use Rattle.std.specs.Prelude.{List};
    ghost use Rattle.arc_data.specs.declared.record.Record.{Record};
    ghost use Rattle.arc_node.specs.Totals.{AreCounted};

    ghost Value = { List Record };

    ghost view = { λ e. e.list.entries };

    ghost invariant = { λ e. AreCounted e.list.entries e.totals };
}

impl Entries {
    /// No entries.
    pub(crate) fn none(alloc: Global) -> Entries
        ensures { result ≡ [] }
    {
        Entries {
            list: Indexed::new(alloc),
            totals: Totals { inc: 0, since: 0 },
        }
    }

    /// These entries.
    pub(crate) fn of(alloc: Global, records: Vec<Record>) -> Result<Entries, Memory>
        requires { length records.items < 2 ^ 32 }
        ensures { IfOk result (λ entries. entries ≡ records.items) }
    {
        let totals = count_all(&records);
        match Indexed::of(alloc, records) {
            Ok(list) => Ok(Entries { list, totals }),
            Err(Memory) => Err(Memory),
        }
    }

    /// The entries.
    pub(crate) fn as_slice(&self) -> &[Record]
        ensures { result.now ≡ self.now }
    {
        self.list.records()
    }

    /// How many of them close a slot.
    pub(crate) fn closed_len(&self) -> u32
        ensures { result ≡ closed_len self.now }
    {
        self.list.closed_len()
    }

    /// The last promised ballot, or 0.
    pub(crate) fn promise(&self) -> u64
        ensures { result ≡ promise self.now }
    {
        self.list.promise()
    }

    /// The command that is closed at this slot, or `None` where the list ends before it.
    pub(crate) fn applied_at(&self, slot: u32) -> Option<&Command>
        ensures { option_copied result ≡ slice_get (applied self.now) slot }
    {
        self.list.applied_at(slot)
    }

    /// The entries behind the last one that closes a slot.
    pub(crate) fn tail(&self) -> &[Record]
        ensures { result.now ≡ tail_of self.now }
    {
        self.list.tail()
    }

    /// The number of the last start, or 0 without one.
    pub(crate) fn inc(&self) -> u32
        ensures { result ≡ last_inc self.now }
    {
        self.totals.inc
    }

    /// How many entries stand behind the last start.
    pub(crate) fn since(&self) -> u32
        ensures { result ≡ since_opened self.now }
    {
        self.totals.since
    }

    /// Appends an entry to the journal that has these entries, and then to them.
    pub(crate) fn append<D: Disk>(&mut self, journal: &mut Journal<D>, entry: Record) -> Appended
        requires has { HasEntries D.tells D.content D.may_leave journal.old self.old }
        requires valid { IsValidRecord entry }
        requires below { is_below (slots_of journal.old) entry ≡ true }
        requires few { length self.old + 1 < 2 ^ 32 }
        ensures entries { AppendsTo D.tells D.content D.may_leave D.faults journal.old journal.new
            self.old self.new entry result }
        ensures any_moment { D.tells → LeavesOnly D.moment D.left_since (disk_of journal.old) (disk_of journal.new)
            (IsBeforeOrWith (node_of journal.old) (slots_of journal.old) self.old entry) }
        ensures calls { AppendsInCalls D.moment D.faults D.stops_in D.is_tame
            (disk_of journal.old) (disk_of journal.new) result }
        ensures same { IsOfSame journal.old journal.new }
    {
        let more = count_one(self.totals, &entry);
        let appended = append_entry(journal, &mut self.list, entry);
        self.totals = count_by_end(&appended, self.totals, more);
        appended
    }
}

/// What a list of entries says of the starts, by a walk over them.
fn count_all(records: &[Record]) -> Totals
    requires { length records.now < 2 ^ 32 }
    ensures { result ≡ totals_of records.now }
{
    Totals {
        inc: last_inc(records),
        since: since_opened(records),
    }
}

/// What entries come to at the end of an append: these totals, or where the entry is among them those with one more.
fn count_by_end(appended: &Appended, totals: Totals, more: Totals) -> Totals
    ensures { result ≡ totals_at_end totals more appended.now }
{
    match appended {
        Appended::Done => more,
        _ => totals,
    }
}

/// What entries come to with this one behind them.
fn count_one(totals: Totals, entry: &Record) -> Totals
    requires { totals.since + 1 < 2 ^ 32 }
    ensures { result ≡ after totals entry.now }
{
    let Totals { inc, since } = totals;
    match entry {
        Record::Opened { inc } => Totals {
            inc: *inc,
            since: 0,
        },
        _ => Totals {
            inc,
            since: since + 1,
        },
    }
}
