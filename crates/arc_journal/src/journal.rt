//! A journal.
ghost use Rattle.std.specs.Prelude.{◌≡◌, ◌≢◌, ◌≤◌, nat_le, ◌+◌, ◌<◌, ◌++◌, ◌∷◌, ◌↔◌, ℕ, List, [], true, length, IfOk, IfErr, OnOk, OnErr, MatchResult, Some, None};
ghost use Rattle.arc_bytes.specs.Counts.{HasRisen};
ghost use Rattle.arc_disk.specs.Calls.{IsNoCall};
ghost use Rattle.arc_disk.specs.Disk.{Crashes, Elapses, IsUntouched, Keeps, LeavesOnly, Only};
ghost use Rattle.arc_data.specs.Valid.{IsValidRecord};
ghost use Rattle.arc_journal.specs.Image.{AreWithin, IsCausedBy, IsJournalOf, IsNoRefusal, first_fault, is_below, own_fault, records_of};
ghost use Rattle.arc_journal.specs.Runs.{OpensInRun, ending_of};
ghost use Rattle.arc_journal.specs.Layout.{entry_limit, head};
ghost use Rattle.arc_journal.specs.Journal.{AnswersAppend, AppendsInRun, AppendsOne, IsBeforeOrWith, IsNew, IsOfSame, IsSettled, IsUnchanged, count_of, disk_of, node_of, slots_of};

use crate::bodies::seal;
use crate::device::{read_image, write_entry, write_synced};
use crate::reading::{Opening, entry_limit, read_journal, read_own, signature};
use crate::{AppendEnd, JournalEnd};
use arc_bytes::{Memory, put_u32};
use arc_command::Record;
use arc_disk::{Disk, Rig, WriteEnd};
use std::alloc::Global;

/// The journal of one node, on a disk of its own.
#[derive(Drop)]
pub struct Journal<D: Disk> {
    disk: D,
    node: u8,
    max_slots: u32,
    count: u32,
    place: u64,
    entry: Vec<u8>,
}

/// How much room an entry takes behind its gate, with the next gate: four bytes for the length of the body, at most
/// 1,037 for the body, 32 for its digest, and one.
const ENTRY_ROOM: usize = 1074;

impl<D: Disk> Journal<D> {
    /// Makes a journal without entries on an empty disk: writes the head and a closed gate, and syncs.
    pub fn create(
        alloc: Global,
        disk: D,
        node: u8,
        max_slots: u32,
    ) -> Result<Journal<D>, (D, JournalEnd)>
        requires node { node < 5 }
        requires some { 1 ≤ max_slots }
        requires most { max_slots ≤ 16384 }
        requires empty { D.tells → D.content disk ≡ [] }
        ensures created { IfOk result (λ j. IsNew D.tells D.content D.may_leave j node max_slots) }
        ensures answer { IfErr result (λ e. IsNoRefusal e.1) }
        ensures fault { IfErr result (λ e. e.1 ≡ JournalEnd.Disk → HasRisen (D.faults disk) (D.faults e.0)) }
        ensures memory { D.tells → IfErr result (λ e. e.1 ≡ JournalEnd.Memory →
            IsUntouched D.content D.may_leave disk e.0) }
        ensures calls { MatchResult result
            (λ j. OpensInRun D.moment D.faults D.stops_in D.is_tame 2 disk (disk_of j) None)
            (λ e. OpensInRun D.moment D.faults D.stops_in D.is_tame 2 disk e.0 (Some e.1)) }
    {
        let mut disk = disk;
        let mut entry = match new_image(alloc, node, max_slots) {
            Ok(entry) => entry,
            Err(Memory) => return Err((disk, JournalEnd::Memory)),
        };
        match write_synced(&mut disk, 0, &entry) {
            Ok(()) => {}
            Err(WriteEnd::Failed) => return Err((disk, JournalEnd::Disk)),
            Err(WriteEnd::Memory) => return Err((disk, JournalEnd::Memory)),
        }
        entry.clear();
        Ok(Journal {
            disk,
            node,
            max_slots,
            count: 0,
            place: 16,
            entry,
        })
    }

    /// Reads the journal of this node that is on a disk, and its records, and changes nothing of it. It begins with a
    /// sync, so that a crash afterwards leaves what was read.
    pub fn adopt(
        alloc: Global,
        disk: D,
        node: u8,
    ) -> Result<(Journal<D>, Vec<Record>), (D, JournalEnd)>
        requires { node < 5 }
        ensures settled { IfOk result (λ r. IsSettled D.tells D.content D.may_leave r.0) }
        ensures node { IfOk result (λ r. node_of r.0 ≡ node) }
        ensures count { IfOk result (λ r. count_of r.0 ≡ length r.1.items) }
        // Whatever the disk tells.
        ensures within { IfOk result (λ r. AreWithin (slots_of r.0) r.1.items) }
        ensures records { D.tells → IfOk result (λ r. r.1.items ≡ records_of (D.content disk)) }
        ensures refused { D.tells → IfErr result (λ e. e.1 ≢ JournalEnd.Disk → IsCausedBy (Some e.1) (first_fault node (D.content disk))) }
        ensures found { D.tells → (slots : ℕ) (records : List Record) → IsJournalOf node slots records (D.content disk) →
            MatchResult result (λ r. (slots_of r.0 ≡ slots) × (r.1.items ≡ records)) (λ e. IsNoRefusal e.1) }
        ensures fault { IfErr result (λ e. e.1 ≡ JournalEnd.Disk → HasRisen (D.faults disk) (D.faults e.0)) }
        ensures kept { D.tells → MatchResult result (λ r. Keeps D.content D.may_leave disk (disk_of r.0))
            (λ e. Keeps D.content D.may_leave disk e.0) }
        ensures any_moment { D.tells → MatchResult result
            (λ r. LeavesOnly D.moment D.left_since disk (disk_of r.0) (D.may_leave disk))
            (λ e. LeavesOnly D.moment D.left_since disk e.0 (D.may_leave disk)) }
        ensures calls { MatchResult result
            (λ r. OpensInRun D.moment D.faults D.stops_in D.is_tame 3 disk (disk_of r.0) None)
            (λ e. OpensInRun D.moment D.faults D.stops_in D.is_tame 3 disk e.0 (Some e.1)) }
    {
        let mut disk = disk;
        let Ok(entry) = Vec::with_capacity(alloc, ENTRY_ROOM) else {
            return Err((disk, JournalEnd::Memory));
        };
        let image = match read_image(alloc, &mut disk) {
            Ok(image) => image,
            Err(end) => return Err((disk, end)),
        };
        let Opening {
            max_slots,
            records,
            end: place,
        } = match read_journal(alloc, &image, node) {
            Ok(opening) => opening,
            Err(end) => return Err((disk, end)),
        };
        let journal = Journal {
            disk,
            node,
            max_slots,
            count: records.len() as u32,
            place,
            entry,
        };
        Ok((journal, records))
    }

    /// Reads again what is on its own disk, as `adopt` does, and changes nothing of it. A head that names another
    /// greatest length of the list is refused at its place.
    pub fn reopen(&mut self, alloc: Global) -> Result<Vec<Record>, JournalEnd>
        requires { node_of self.old < 5 }
        ensures settled { OnOk result (IsSettled D.tells D.content D.may_leave self.new) }
        ensures count { IfOk result (λ r. count_of self.new ≡ length r.items) }
        // Whatever the disk tells.
        ensures within { IfOk result (λ r. AreWithin (slots_of self.old) r.items) }
        ensures records { D.tells → IfOk result (λ r. r.items ≡ records_of (D.content (disk_of self.old))) }
        ensures caused { D.tells → ending_of result ≢ Some JournalEnd.Disk → IsCausedBy (ending_of result)
            (own_fault (node_of self.old) (slots_of self.old) (D.content (disk_of self.old))) }
        ensures found { D.tells → (records : List Record) →
            IsJournalOf (node_of self.old) (slots_of self.old) records (D.content (disk_of self.old)) →
            MatchResult result (λ r. r.items ≡ records) IsNoRefusal }
        ensures fault { IfErr result (λ e. e ≡ JournalEnd.Disk →
            HasRisen (D.faults (disk_of self.old)) (D.faults (disk_of self.new))) }
        ensures kept { D.tells → Keeps D.content D.may_leave (disk_of self.old) (disk_of self.new) }
        ensures any_moment { D.tells → LeavesOnly D.moment D.left_since (disk_of self.old) (disk_of self.new)
            (D.may_leave (disk_of self.old)) }
        ensures calls { OpensInRun D.moment D.faults D.stops_in D.is_tame 3
            (disk_of self.old) (disk_of self.new) (ending_of result) }
        ensures same { IsOfSame self.old self.new }
        ensures unchanged { OnErr result (IsUnchanged self.old self.new) }
    {
        let image = match read_image(alloc, &mut self.disk) {
            Ok(image) => image,
            Err(end) => return Err(end),
        };
        let Opening {
            max_slots: _,
            records,
            end: place,
        } = match read_own(alloc, &image, self.node, self.max_slots) {
            Ok(opening) => opening,
            Err(end) => return Err(end),
        };
        self.count = records.len() as u32;
        self.place = place;
        Ok(records)
    }

    /// Appends a record. After an Ok each crash leaves a journal that has it.
    ///
    /// It writes the entry behind the closed gate, with the closed gate of the next one, syncs, opens the gate, and
    /// syncs.
    pub fn append(&mut self, entry: &Record) -> Result<(), AppendEnd>
        // No earlier append failed.
        requires settled { IsSettled D.tells D.content D.may_leave self.old }
        requires valid { IsValidRecord entry.now }
        requires below { is_below (slots_of self.old) entry.now ≡ true }
        ensures entries { AppendsOne D.tells D.content D.may_leave self.old self.new entry.now result }
        ensures any_moment { D.tells → LeavesOnly D.moment D.left_since (disk_of self.old) (disk_of self.new)
            (IsBeforeOrWith (node_of self.old) (slots_of self.old) (records_of (D.content (disk_of self.old))) entry.now) }
        ensures answer { AnswersAppend (count_of self.old) (entry_limit (slots_of self.old))
            (D.faults (disk_of self.old)) (D.faults (disk_of self.new)) result }
        ensures calls { AppendsInRun D.moment D.faults D.stops_in D.is_tame
            (disk_of self.old) (disk_of self.new) result }
        ensures same { IsOfSame self.old self.new }
    {
        if self.count >= entry_limit(self.max_slots) {
            return Err(AppendEnd::Full { count: self.count });
        }
        match seal(entry, &mut self.entry) {
            Ok(()) => {}
            Err(Memory) => return Err(AppendEnd::Memory),
        }
        match write_entry(&mut self.disk, self.place, &self.entry) {
            Ok(()) => {}
            Err(WriteEnd::Failed) => return Err(AppendEnd::Disk),
            Err(WriteEnd::Memory) => return Err(AppendEnd::Memory),
        }
        self.count += 1;
        self.place += self.entry.len() as u64;
        Ok(())
    }

    /// The node whose journal it is.
    pub fn node(&self) -> u8
        ensures { result ≡ node_of self.now }
    {
        self.node
    }

    /// How many entries it has.
    pub fn count(&self) -> u32
        ensures { result ≡ count_of self.now }
    {
        self.count
    }

    /// Whether it has as many entries as it takes.
    pub fn is_full(&self) -> bool
        requires { slots_of self.now ≤ 16384 }
        ensures { result ≡ nat_le (entry_limit (slots_of self.now)) (count_of self.now) }
    {
        self.count >= entry_limit(self.max_slots)
    }

    /// The greatest length of the node's list.
    pub fn max_slots(&self) -> u32
        ensures { result ≡ slots_of self.now }
    {
        self.max_slots
    }

    /// How often its disk has failed, up to 2^64 - 1.
    pub fn faults(&self) -> u64
        ensures { result ≡ D.faults (disk_of self.now) }
    {
        self.disk.faults()
    }

    /// Its disk.
    pub fn give_back(self) -> D
        ensures { result ≡ disk_of self }
    {
        self.disk
    }

    /// Tells its disk to stop in the device call with this number from now on.
    pub fn arm(&mut self, calls: u32, fill: u8)
    where
        D: Rig,
        ensures armed { D.armed (disk_of self.old) calls fill (disk_of self.new) }
        ensures stop { D.stops_in (disk_of self.new) ≡ Some calls }
        ensures untouched { D.tells → IsUntouched D.content D.may_leave (disk_of self.old) (disk_of self.new) }
        ensures since { D.tells → (t : ℕ) (image : List ℕ) →
            D.left_since (disk_of self.new) t image ↔ D.left_since (disk_of self.old) t image }
        ensures no_call { IsNoCall D.moment D.faults D.is_tame (disk_of self.old) (disk_of self.new) }
        ensures same { IsOfSame self.old self.new }
        ensures unchanged { IsUnchanged self.old self.new }
        ensures settled { IsSettled D.tells D.content D.may_leave self.old →
            IsSettled D.tells D.content D.may_leave self.new }
    {
        self.disk.arm(calls, fill);
    }

    /// Crashes the disk. What it then reads as has to be read again.
    pub fn crash(&mut self)
    where
        D: Rig,
        ensures crashed { D.crashed (disk_of self.old) (disk_of self.new) }
        ensures stop { D.stops_in (disk_of self.new) ≡ None }
        ensures crashes { D.tells → Crashes D.content D.may_leave (disk_of self.old) (disk_of self.new) }
        ensures time { D.tells → Elapses D.moment D.may_leave D.left_since
            (disk_of self.old) (disk_of self.new) }
        ensures no_call { IsNoCall D.moment D.faults D.is_tame (disk_of self.old) (disk_of self.new) }
        ensures same { IsOfSame self.old self.new }
        ensures unchanged { IsUnchanged self.old self.new }
    {
        self.disk.crash();
    }
}

/// The image of a journal without entries, in a buffer that has room for an entry.
fn new_image(alloc: Global, node: u8, max_slots: u32) -> Result<Vec<u8>, Memory>
    ensures { IfOk result (λ v. v.items ≡ head node max_slots ++ 0 ∷ []) }
{
    let Ok(mut image) = Vec::with_capacity(alloc, ENTRY_ROOM) else {
        return Err(Memory);
    };
    match image.extend_from_slice(&signature(node)) {
        Ok(()) => {}
        Err(_) => return Err(Memory),
    }
    match put_u32(&mut image, max_slots) {
        Ok(()) => {}
        Err(Memory) => return Err(Memory),
    }
    match image.push(0) {
        Ok(()) => Ok(image),
        Err(_) => Err(Memory),
    }
}
