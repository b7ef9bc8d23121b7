//! A node.
ghost use Rattle.std.specs.Prelude.{◌≡◌, ◌≢◌, ◌≤◌, ◌<◌, ◌^◌, ◌↔◌, ℕ, List, [], Option, Some, None, true, false, IsTrue, length, IfErr, IfOk, IfSome, MatchResult};
ghost use Rattle.std.specs.List.{slice_get};
ghost use Rattle.std.specs.Option.{option_copied};
ghost use Rattle.arc_bytes.specs.Counts.{HasRisen};
ghost use Rattle.arc_data.specs.Entries.{closed_len, promise};
ghost use Rattle.arc_disk.specs.Calls.{IsNoCall};
ghost use Rattle.arc_disk.specs.Disk.{Crashes, Elapses, IsUntouched, Keeps, LeavesOnly};
ghost use Rattle.arc_journal.specs.Image.{AreWithin, IsCausedBy, IsJournalOf, IsNoRefusal, first_fault, is_below, records_of};
ghost use Rattle.arc_journal.specs.Journal.{IsBeforeOrWith};
ghost use Rattle.arc_data.specs.Valid.{IsValidCommand, IsValidRecord};
ghost use Rattle.arc_data.specs.declared.message.Answer.{Answer};
ghost use Rattle.arc_journal.specs.Runs.{OpensInRun};
ghost use Rattle.arc_voting.specs.Journals.{last_inc, since_opened};
ghost use Rattle.arc_voting.specs.Lists.{applied};
ghost use Rattle.arc_voting.specs.Tails.{VotesAreInPlace};
ghost use Rattle.arc_node.specs.Calls.{HandlesInRun, StartsInRun};
ghost use Rattle.arc_node.specs.Handling.{EndsForMemory, EndsHandling, IsReceivable, LeavesHandled, TellsValid};
ghost use Rattle.arc_node.specs.Keeping.{KeepsEntry, KeepsInRun};
ghost use Rattle.arc_node.specs.Node.{HasEntries, HasLimits, HasVotesInPlace, IsAsleep, IsInOrder, IsPossible, IsSameNode, KeepsList, MayRead, disk_in, doubt_of, is_up, kept, number_of, slots_in};
ghost use Rattle.arc_node.specs.Starting.{IsCreated, IsDamage, IsNoAccusation, LeavesStarted, Restarts, Starts, Wakes, restart_of};

use crate::answering::turn_behind;
use crate::appending::{Appended, Kept};
use crate::comparing::{agreement, copy_at, is_kept_or_with};
use crate::entries::Entries;
use crate::standing::Standing;
use crate::starts::opened_count;
use crate::{HandleEnd, Restart};
use arc_acceptor::Turned;
use arc_bytes::Memory;
use arc_data::{Command, CommandId, Message, Record};
use arc_disk::{Disk, Rig};
use arc_journal::{Journal, JournalEnd};
use std::alloc::Global;
use std::mem;

/// A node of the cluster: its journal, and the entries of that.
#[derive(Drop)]
pub struct Node<D: Disk> {
    journal: Journal<D>,
    entries: Entries,
    /// The entry of which the node doesn't know whether its disk has it.
    doubt: Option<Record>,
    standing: Standing,
}

impl<D: Disk> Node<D> {
    /// Makes a node on an empty disk, and starts it for the first time.
    pub fn create(
        alloc: Global,
        disk: D,
        node: u8,
        max_slots: u32,
    ) -> Result<Node<D>, (D, JournalEnd)>
        requires node { node < 5 }
        requires some { 1 ≤ max_slots }
        requires most { max_slots ≤ 16384 }
        requires empty { D.tells → D.content disk ≡ [] }
        ensures in_order { IfOk result (λ n. IsInOrder D.tells D.content D.may_leave n) }
        ensures created { IfOk result (λ n. IsCreated n node max_slots) }
        ensures in_place { IfOk result (λ n. HasVotesInPlace n) }
        ensures answer { IfErr result (λ e. IsNoRefusal e.1) }
        ensures fault { IfErr result (λ e. e.1 ≡ JournalEnd.Disk → HasRisen (D.faults disk) (D.faults e.0)) }
        // Where there was no memory, the disk has no entry.
        ensures memory { D.tells → IfErr result (λ e. e.1 ≡ JournalEnd.Memory → records_of (D.content e.0) ≡ []) }
        ensures calls { MatchResult result
            (λ n. OpensInRun D.moment D.faults D.stops_in D.is_tame 6 disk (disk_in n) None)
            (λ e. OpensInRun D.moment D.faults D.stops_in D.is_tame 6 disk e.0 (Some e.1)) }
    {
        let journal = match Journal::create(alloc, disk, node, max_slots) {
            Ok(journal) => journal,
            Err(end) => return Err(end),
        };
        first_start(Node {
            journal,
            entries: Entries::none(alloc),
            doubt: None,
            standing: Standing::Asleep,
        })
    }

    /// Reads the journal of this node that is on a disk, and appends nothing. The node isn't up until it is woken.
    pub fn load(alloc: Global, disk: D, node: u8) -> Result<Node<D>, (D, JournalEnd)>
        requires { node < 5 }
        ensures in_order { IfOk result (λ n. IsInOrder D.tells D.content D.may_leave n) }
        ensures asleep { IfOk result (λ n. IsAsleep n) }
        ensures number { IfOk result (λ n. number_of n ≡ node) }
        ensures records { D.tells → IfOk result (λ n. kept n ≡ records_of (D.content disk)) }
        ensures refused { D.tells → IfErr result (λ e. e.1 ≢ JournalEnd.Disk →
            IsCausedBy (Some e.1) (first_fault node (D.content disk))) }
        ensures found { D.tells → (slots : ℕ) (records : List Record) →
            IsJournalOf node slots records (D.content disk) →
            MatchResult result (λ n. (slots_in n ≡ slots) × (kept n ≡ records)) (λ e. IsNoRefusal e.1) }
        ensures fault { IfErr result (λ e. e.1 ≡ JournalEnd.Disk → HasRisen (D.faults disk) (D.faults e.0)) }
        ensures same { D.tells → MatchResult result (λ n. Keeps D.content D.may_leave disk (disk_in n))
            (λ e. Keeps D.content D.may_leave disk e.0) }
        ensures any_moment { D.tells → MatchResult result
            (λ n. LeavesOnly D.moment D.left_since disk (disk_in n) (D.may_leave disk))
            (λ e. LeavesOnly D.moment D.left_since disk e.0 (D.may_leave disk)) }
        ensures calls { MatchResult result
            (λ n. OpensInRun D.moment D.faults D.stops_in D.is_tame 3 disk (disk_in n) None)
            (λ e. OpensInRun D.moment D.faults D.stops_in D.is_tame 3 disk e.0 (Some e.1)) }
    {
        let (journal, records) = match Journal::adopt(alloc, disk, node) {
            Ok(adopted) => adopted,
            Err(end) => return Err(end),
        };
        let entries = match Entries::of(alloc, records) {
            Ok(entries) => entries,
            Err(Memory) => return Err((journal.give_back(), JournalEnd::Memory)),
        };
        Ok(Node {
            journal,
            entries,
            doubt: None,
            standing: Standing::Asleep,
        })
    }

    /// Starts a node that was loaded: appends `Opened` with the next number.
    pub fn wake(&mut self) -> Restart
        requires in_order { IsInOrder D.tells D.content D.may_leave self.old }
        requires asleep { IsAsleep self.old }
        ensures in_order { IsInOrder D.tells D.content D.may_leave self.new }
        ensures wakes { Wakes D.faults self.old self.new result }
        ensures in_place { HasVotesInPlace self.old → HasVotesInPlace self.new }
        ensures any_moment { D.tells → LeavesStarted D.moment D.left_since self.old self.new }
        ensures calls { StartsInRun D.moment D.faults D.stops_in D.is_tame 0
            (disk_in self.old) (disk_in self.new) result }
        ensures same { IsSameNode self.old self.new }
    {
        let inc = opened_count(self.entries.as_slice()) + 1;
        match self
            .entries
            .append(&mut self.journal, Record::Opened { inc })
        {
            Appended::Done => {
                self.standing = Standing::Up;
                Restart::Up { inc }
            }
            Appended::Doubtful(entry) => {
                put(&mut self.doubt, entry);
                self.standing = Standing::Down;
                Restart::Disk
            }
            Appended::Full { count } => {
                self.standing = Standing::Retired;
                Restart::Full { count }
            }
            Appended::Memory => Restart::Memory,
        }
    }

    /// Handles a message. What it appends is on its disk before it answers. A node that isn't up does nothing. It looks at
    /// the votes behind its last closed slot alone, so each vote has to stand at the slot that was open when it was given.
    pub fn handle(&mut self, alloc: Global, message: &Message) -> HandleEnd
        requires in_order { IsInOrder D.tells D.content D.may_leave self.old }
        requires message { IsReceivable (slots_in self.old) message.now }
        requires in_place { VotesAreInPlace (kept self.old) }
        ensures in_order { IsInOrder D.tells D.content D.may_leave self.new }
        ensures handles { EndsHandling D.faults self.old self.new message.now result }
        ensures memory { EndsForMemory self.old message.now result }
        ensures valid { (reply : Answer) → result ≡ HandleEnd.Answered reply → TellsValid reply }
        ensures in_place { HasVotesInPlace self.old → HasVotesInPlace self.new }
        ensures any_moment { D.tells → LeavesHandled D.moment D.left_since self.old self.new message.now }
        ensures calls { HandlesInRun D.moment D.faults D.stops_in D.is_tame (kept self.old) (kept self.new)
            (disk_in self.old) (disk_in self.new) result }
        ensures same { IsSameNode self.old self.new }
    {
        match self.standing {
            Standing::Up => self.take_turn(alloc, message),
            _ => HandleEnd::Down,
        }
    }

    /// Handles a message as an up node does.
    fn take_turn(&mut self, alloc: Global, message: &Message) -> HandleEnd
        requires in_order { IsInOrder D.tells D.content D.may_leave self.old }
        requires up { is_up self.old ≡ true }
        requires message { IsReceivable (slots_in self.old) message.now }
        requires in_place { VotesAreInPlace (kept self.old) }
        ensures in_order { IsInOrder D.tells D.content D.may_leave self.new }
        ensures handles { EndsHandling D.faults self.old self.new message.now result }
        ensures memory { EndsForMemory self.old message.now result }
        ensures any_moment { D.tells → LeavesHandled D.moment D.left_since self.old self.new message.now }
        ensures calls { HandlesInRun D.moment D.faults D.stops_in D.is_tame (kept self.old) (kept self.new)
            (disk_in self.old) (disk_in self.new) result }
        ensures same { IsSameNode self.old self.new }
    {
        let Turned { append, reply } = match turn_behind(alloc, &self.entries, message) {
            Ok(turned) => turned,
            Err(Memory) => return HandleEnd::Memory,
        };
        let entry = match append {
            Some(entry) => entry,
            None => return HandleEnd::Answered(reply),
        };
        match self.keep_entry(entry) {
            Kept::Done => HandleEnd::Answered(reply),
            Kept::Fallen => {
                drop(reply);
                HandleEnd::Down
            }
            Kept::Memory => {
                drop(reply);
                HandleEnd::Memory
            }
        }
    }

    /// Appends an entry to the journal of an up node and to the list that it keeps, or takes the node down.
    fn keep_entry(&mut self, entry: Record) -> Kept
        requires in_order { IsInOrder D.tells D.content D.may_leave self.old }
        requires up { is_up self.old ≡ true }
        requires valid { IsValidRecord entry }
        requires below { is_below (slots_in self.old) entry ≡ true }
        ensures in_order { IsInOrder D.tells D.content D.may_leave self.new }
        ensures keeps { KeepsEntry D.faults self.old self.new entry result }
        ensures any_moment { D.tells → LeavesOnly D.moment D.left_since (disk_in self.old) (disk_in self.new)
            (IsBeforeOrWith (number_of self.old) (slots_in self.old) (kept self.old) entry) }
        ensures calls { KeepsInRun D.moment D.faults D.stops_in D.is_tame
            (disk_in self.old) (disk_in self.new) result }
        ensures same { IsSameNode self.old self.new }
    {
        match self.entries.append(&mut self.journal, entry) {
            Appended::Done => Kept::Done,
            Appended::Doubtful(entry) => {
                put(&mut self.doubt, entry);
                self.standing = Standing::Down;
                Kept::Fallen
            }
            Appended::Full { .. } => {
                self.standing = Standing::Retired;
                Kept::Fallen
            }
            Appended::Memory => Kept::Memory,
        }
    }

    /// Starts the node again from what is on its disk. An up node is closed first. The journal is read, its entries are
    /// compared with those that the node keeps, and only then is `Opened` appended with the next number.
    pub fn restart(&mut self, alloc: Global) -> Restart
        requires limits { HasLimits self.old }
        ensures limits { HasLimits self.new }
        ensures in_order { IsInOrder D.tells D.content D.may_leave self.old →
            IsInOrder D.tells D.content D.may_leave self.new }
        ensures restarts { Restarts D.tells D.content D.faults self.old self.new result }
        ensures in_place { HasVotesInPlace self.old → HasVotesInPlace self.new }
        ensures honest { D.tells → MayRead self.old (D.content (disk_in self.old)) → IsNoAccusation result }
        ensures any_moment { D.tells → IsInOrder D.tells D.content D.may_leave self.old →
            LeavesStarted D.moment D.left_since self.old self.new }
        ensures calls { StartsInRun D.moment D.faults D.stops_in D.is_tame 3
            (disk_in self.old) (disk_in self.new) result }
        ensures same { IsSameNode self.old self.new }
    {
        self.standing = Standing::Down;
        let found = match self.journal.reopen(alloc) {
            Ok(found) => found,
            Err(end) => return refused(end),
        };
        if !is_kept_or_with(self.entries.as_slice(), &self.doubt, &found) {
            return damaged(alloc, self.entries.as_slice(), &found);
        }
        match Entries::of(alloc, found) {
            Ok(found) => self.start_behind(found),
            Err(Memory) => Restart::Memory,
        }
    }

    /// Starts a node that is down behind the list that its journal has, and keeps that list instead of its own unless
    /// there is no memory.
    fn start_behind(&mut self, found: Entries) -> Restart
        requires limits { HasLimits self.old }
        requires down { self.old.standing ≡ Standing.Down }
        requires has { HasEntries D.tells D.content D.may_leave self.old.journal found }
        requires possible { IsPossible self.old found }
        requires within { AreWithin (slots_in self.old) found }
        ensures in_order { IsInOrder D.tells D.content D.may_leave self.new }
        ensures starts { Starts D.faults self.old self.new found result }
        ensures any_moment { D.tells → LeavesStarted D.moment D.left_since self.old self.new }
        ensures calls { StartsInRun D.moment D.faults D.stops_in D.is_tame 0
            (disk_in self.old) (disk_in self.new) result }
        ensures same { IsSameNode self.old self.new }
    {
        let mut list = found;
        let inc = opened_count(list.as_slice()) + 1;
        match list.append(&mut self.journal, Record::Opened { inc }) {
            Appended::Done => {
                keep(&mut self.entries, list);
                drop(self.doubt.take());
                self.standing = Standing::Up;
                Restart::Up { inc }
            }
            Appended::Doubtful(entry) => {
                keep(&mut self.entries, list);
                put(&mut self.doubt, entry);
                Restart::Disk
            }
            Appended::Full { count } => {
                keep(&mut self.entries, list);
                drop(self.doubt.take());
                self.standing = Standing::Retired;
                Restart::Full { count }
            }
            Appended::Memory => {
                drop(list);
                Restart::Memory
            }
        }
    }

    /// Takes the node down and crashes its disk.
    pub fn crash(&mut self)
    where
        D: Rig,
        ensures crashed { D.crashed (disk_in self.old) (disk_in self.new) }
        ensures not_up { is_up self.new ≡ false }
        ensures down { self.new.standing ≡ Standing.Down }
        ensures same { IsSameNode self.old self.new }
        ensures kept { KeepsList self.old self.new }
        ensures in_place { HasVotesInPlace self.old → HasVotesInPlace self.new }
        ensures limits { HasLimits self.old → HasLimits self.new }
        ensures in_order { IsInOrder D.tells D.content D.may_leave self.old →
            IsInOrder D.tells D.content D.may_leave self.new }
        ensures stop { D.stops_in (disk_in self.new) ≡ None }
        ensures crashes { D.tells → Crashes D.content D.may_leave (disk_in self.old) (disk_in self.new) }
        ensures time { D.tells → Elapses D.moment D.may_leave D.left_since
            (disk_in self.old) (disk_in self.new) }
        ensures no_call { IsNoCall D.moment D.faults D.is_tame (disk_in self.old) (disk_in self.new) }
    {
        self.standing = Standing::Down;
        self.journal.crash();
    }

    /// Tells the disk to stop in the device call with this number from now on, and what to fill in at its crash.
    pub fn arm(&mut self, calls: u32, fill: u8)
    where
        D: Rig,
        ensures armed { D.armed (disk_in self.old) calls fill (disk_in self.new) }
        ensures standing { self.new.standing ≡ self.old.standing }
        ensures same { IsSameNode self.old self.new }
        ensures kept { KeepsList self.old self.new }
        ensures in_place { HasVotesInPlace self.old → HasVotesInPlace self.new }
        ensures limits { HasLimits self.old → HasLimits self.new }
        ensures in_order { IsInOrder D.tells D.content D.may_leave self.old →
            IsInOrder D.tells D.content D.may_leave self.new }
        ensures stop { D.stops_in (disk_in self.new) ≡ Some calls }
        ensures untouched { D.tells → IsUntouched D.content D.may_leave (disk_in self.old) (disk_in self.new) }
        ensures since { D.tells → (t : ℕ) (image : List ℕ) →
            D.left_since (disk_in self.new) t image ↔ D.left_since (disk_in self.old) t image }
        ensures no_call { IsNoCall D.moment D.faults D.is_tame (disk_in self.old) (disk_in self.new) }
    {
        self.journal.arm(calls, fill);
    }

    /// The greatest length of its list.
    pub fn max_slots(&self) -> u32
        ensures { result ≡ slots_in self.now }
    {
        self.journal.max_slots()
    }

    /// How often its disk has failed, up to 2^64 - 1.
    pub fn faults(&self) -> u64
        ensures { result ≡ D.faults (disk_in self.now) }
    {
        self.journal.faults()
    }

    /// Whether it handles messages.
    pub fn is_up(&self) -> bool
        ensures { result ≡ is_up self.now }
    {
        match self.standing {
            Standing::Up => true,
            _ => false,
        }
    }

    /// The number of its last start.
    pub fn inc(&self) -> u32
        ensures { result ≡ last_inc (kept self.now) }
    {
        self.entries.inc()
    }

    /// How many commands are in its list.
    pub fn applied_len(&self) -> u32
        ensures { result ≡ closed_len (kept self.now) }
    {
        self.entries.closed_len()
    }

    /// The ballot that it promised last, or 0.
    pub fn promise(&self) -> u64
        ensures { result ≡ promise (kept self.now) }
    {
        self.entries.promise()
    }

    /// The command at this slot of its list, or `None` where the list ends before it.
    pub fn command_at(&self, slot: u32) -> Option<&Command>
        ensures told { option_copied result ≡ slice_get (applied (kept self.now)) slot }
        ensures valid { HasLimits self.now → IfSome result (λ command. IsValidCommand command.now) }
    {
        self.entries.applied_at(slot)
    }

    /// The entries that it keeps.
    pub fn records(&self) -> &[Record]
        ensures { result.now ≡ kept self.now }
    {
        self.entries.as_slice()
    }

    /// The identifier of the next command that begins at this node: its number, its last start, and how many entries it
    /// has appended since. One under which nothing was appended is given again.
    pub fn next_id(&self) -> CommandId
        requires { HasLimits self.now }
        ensures node { result.node ≡ number_of self.now }
        ensures inc { result.inc ≡ last_inc (kept self.now) }
        ensures n { result.n ≡ since_opened (kept self.now) }
    {
        CommandId {
            node: self.journal.node(),
            inc: self.entries.inc(),
            n: self.entries.since(),
        }
    }

    /// Its disk.
    pub fn give_back(self) -> D
        ensures { result ≡ disk_in self }
    {
        let Node {
            journal,
            entries,
            doubt,
            ..
        } = self;
        drop(entries);
        drop(doubt);
        journal.give_back()
    }
}

/// Starts a node for the first time, or gives its disk back.
fn first_start<D: Disk>(node: Node<D>) -> Result<Node<D>, (D, JournalEnd)>
    requires in_order { IsInOrder D.tells D.content D.may_leave node }
    requires asleep { IsAsleep node }
    requires empty { kept node ≡ [] }
    ensures in_order { IfOk result (λ n. IsInOrder D.tells D.content D.may_leave n) }
    ensures created { IfOk result (λ n. IsCreated n (number_of node) (slots_in node)) }
    ensures in_place { IfOk result (λ n. HasVotesInPlace n) }
    ensures answer { IfErr result (λ e. IsNoRefusal e.1) }
    ensures fault { IfErr result (λ e. e.1 ≡ JournalEnd.Disk → HasRisen (D.faults (disk_in node)) (D.faults e.0)) }
    ensures memory { D.tells → IfErr result (λ e. e.1 ≡ JournalEnd.Memory → records_of (D.content e.0) ≡ []) }
    ensures calls { MatchResult result
        (λ n. OpensInRun D.moment D.faults D.stops_in D.is_tame 4 (disk_in node) (disk_in n) None)
        (λ e. OpensInRun D.moment D.faults D.stops_in D.is_tame 4 (disk_in node) e.0 (Some e.1)) }
{
    let mut node = node;
    match node.wake() {
        Restart::Up { .. } => Ok(node),
        Restart::Disk => Err((node.give_back(), JournalEnd::Disk)),
        Restart::Memory => Err((node.give_back(), JournalEnd::Memory)),
        _ => unreachable!(),
    }
}

/// Keeps these entries in place of those that were kept.
fn keep(kept: &mut Entries, entries: Entries)
    ensures { kept.new ≡ entries }
{
    drop(mem::replace(kept, entries));
}

/// Leaves an entry in doubt.
fn put(doubt: &mut Option<Record>, entry: Record)
    ensures { doubt.new ≡ Some entry }
{
    drop(doubt.replace(entry));
}

/// How a restart ends whose journal was refused, or not read.
fn refused(end: JournalEnd) -> Restart
    ensures { result ≡ restart_of end }
{
    match end {
        JournalEnd::Disk => Restart::Disk,
        JournalEnd::NotOurs { place } => Restart::NotOurs { place },
        JournalEnd::Rotten {
            place,
            stored,
            computed,
        } => Restart::Rotten {
            place,
            stored,
            computed,
        },
        JournalEnd::Memory => Restart::Memory,
    }
}

/// How a restart ends where another list was found than the kept one.
fn damaged(alloc: Global, kept: &[Record], found: &[Record]) -> Restart
    requires length { length kept.now < 2 ^ 32 }
    requires differ { found.now ≢ kept.now }
    ensures { IsDamage kept.now found.now result }
{
    let place = agreement(kept, found);
    let Ok(its) = copy_at(alloc, kept, place) else {
        return Restart::Memory;
    };
    let Ok(other) = copy_at(alloc, found, place) else {
        drop(its);
        return Restart::Memory;
    };
    Restart::Damaged {
        place: place as u32,
        kept: its,
        found: other,
    }
}
