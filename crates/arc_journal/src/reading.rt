//! What the bytes of an image say.
ghost use Rattle.std.specs.Prelude.{◌≡◌, ◌++◌, ◌∷◌, [], ◌+◌, ◌*◌, ◌≤◌, ◌<◌, ℕ, length, map, vec_len, slice_index, ◌≢◌, Some, IfErr, IfOk, OnErr, OnOk};
ghost use Rattle.arc_journal.specs.Faults.{end_of, end_of_look};
ghost use Rattle.arc_journal.specs.Views.{BeginsWithHead, record_fault, seen_by};
ghost use Rattle.arc_journal.specs.Bodies.{record_of};
ghost use Rattle.arc_journal.specs.Image.{AreKept, AreWithin, IsCausedBy, IsJournalOf, IsReadTo, IsWithin, common, entries_of, fault_in, first_fault, head_fault, own_fault, is_below, slots_in};
ghost use Rattle.arc_journal.specs.Layout.{entries, entry_limit, head, signature};
ghost use Rattle.arc_journal.specs.Runs.{ending_of};
ghost use Rattle.arc_command.specs.Spelling.{record_bytes};

use crate::bodies::{BodyEnd, read_body};
use crate::image::Records;
use crate::view::RecordView;
use crate::{ImageFault, JournalEnd};
use arc_bytes::{Memory, take_u32};
use arc_command::Record;
use std::alloc::Global;

/// The length of the head, in bytes.
pub(crate) const HEAD_LEN: usize = 16;

/// The byte of an open gate.
pub(crate) const OPEN: u8 = 1;

/// The greatest `max_slots`.
pub(crate) const MOST_SLOTS: u32 = 16_384;

/// The bytes with which each journal of this node begins.
pub(crate) fn signature(node: u8) -> [u8; 12]
    ensures { result ≡ signature node }
{
    [b'A', b'R', b'C', b'J', b'R', b'N', b'L', 1, node, 0, 0, 0]
}

/// How many entries a journal takes.
pub(crate) fn entry_limit(max_slots: u32) -> u32
    requires { max_slots ≤ 16384 }
    ensures { result ≡ entry_limit max_slots }
{
    16 * max_slots + 64
}

/// How many bytes two slices have in common at their front.
fn common(left: &[u8], right: &[u8]) -> usize
    ensures { result ≡ common left.now right.now }
{
    for i in 0..left.len() {
        if i == right.len() {
            return i;
        }
        if left[i] != right[i] {
            return i;
        }
    }
    left.len()
}

/// The greatest length of the list, as the head has it, whatever stands behind the head.
#[tactic(auto, unfolding(crate::specs::Image::head_fault, arc_bytes::specs::Numbers::number_at))]
pub(crate) fn read_slots(image: &[u8], node: u8) -> Result<u32, ImageFault>
    ensures fault { IfErr result (λ e. Some (end_of e) ≡ head_fault node image.now) }
    ensures slots { IfOk result (λ n. n ≡ slots_in image.now) }
    ensures head { IfOk result (λ n. BeginsWithHead node n image.now) }
    ensures other { OnErr result ((slots : ℕ) → BeginsWithHead node slots image.now → ⊥) }
{
    let same = common(&signature(node), image);
    if same < 12 {
        return Err(ImageFault::NotOurs { place: same as u64 });
    }
    let Ok((max_slots, _)) = take_u32(image, 12) else {
        let place = image.len() as u64;
        return Err(ImageFault::NotOurs { place });
    };
    if max_slots == 0 || max_slots > MOST_SLOTS {
        return Err(ImageFault::NotOurs { place: 12 });
    }
    Ok(max_slots)
}

/// The same, where a gate stands behind the head.
pub(crate) fn read_head(image: &[u8], node: u8) -> Result<u32, ImageFault>
    ensures fault { end_of_look result ≡ head_fault node image.now }
    ensures slots { IfOk result (λ n. n ≡ slots_in image.now) }
    ensures head { IfOk result (λ n. BeginsWithHead node n image.now) }
    ensures gate { OnOk result (16 < length image.now) }
{
    let max_slots = match read_slots(image, node) {
        Ok(max_slots) => max_slots,
        Err(fault) => return Err(fault),
    };
    if image.len() == HEAD_LEN {
        return Err(ImageFault::NotOurs { place: 16 });
    }
    Ok(max_slots)
}

/// Whether the record closes no slot from this one on.
pub(crate) fn is_below(entry: &Record, max_slots: u32) -> bool
    ensures { result ≡ is_below max_slots entry.now }
{
    match entry {
        Record::Closed { slot, .. } => *slot < max_slots,
        _ => true,
    }
}

/// The record of an entry that is seen, and before which so many stand.
#[tactic(auto, unfolding(crate::specs::Views::record_fault))]
fn read_view(
    alloc: Global,
    view: &RecordView<'_>,
    max_slots: u32,
    count: u32,
) -> Result<Record, JournalEnd>
    requires { max_slots ≤ 16384 }
    ensures own { IfErr result (λ e. e ≢ JournalEnd.Disk) }
    ensures fault { IsCausedBy (ending_of result) (record_fault max_slots count (seen_by view.now)) }
    ensures read { IfOk result (λ r. record_of view.now.body.now ≡ Some r) }
    ensures spelled { IfOk result (λ r. view.now.body.now ≡ record_bytes r) }
    ensures within { IfOk result (IsWithin max_slots) }
    ensures room { OnOk result (count < entry_limit max_slots) }
{
    let RecordView { place, body } = *view;
    let entry = match read_body(alloc, body) {
        Ok(entry) => entry,
        Err(BodyEnd::NoRecord) => return Err(JournalEnd::NotOurs { place }),
        Err(BodyEnd::Memory) => return Err(JournalEnd::Memory),
    };
    if !is_below(&entry, max_slots) {
        drop(entry);
        return Err(JournalEnd::NotOurs { place });
    }
    if count >= entry_limit(max_slots) {
        drop(entry);
        return Err(JournalEnd::NotOurs { place });
    }
    Ok(entry)
}

/// Keeps one item more.
fn keep<T: Drop>(items: &mut Vec<T>, item: T) -> Result<(), Memory>
    ensures { OnOk result (items.new.items ≡ items.old.items ++ item ∷ []) }
{
    match items.push(item) {
        Ok(()) => Ok(()),
        Err(_) => Err(Memory),
    }
}

/// Reads the records of an image, each where it lies, and gives the place of the gate that ends them.
fn read_records(
    alloc: Global,
    image: &[u8],
    max_slots: u32,
    records: &mut Vec<Record>,
) -> Result<usize, JournalEnd>
    requires none { records.old.items ≡ [] }
    requires gate { 16 < length image.now }
    requires most { max_slots ≤ 16384 }
    ensures own { IfErr result (λ e. e ≢ JournalEnd.Disk) }
    ensures fault { IsCausedBy (ending_of result) (fault_in max_slots 0 (entries_of image.now)) }
    ensures read { IfOk result (λ end. IsReadTo max_slots records.new.items end image.now) }
    ensures within { OnOk result (AreWithin max_slots records.new.items) }
    ensures closed { IfOk result (λ end. slice_index image.now end ≢ 1) }
{
    let mut views = Records::behind_head(image);
    loop {
        let Some(view) = views.step() else {
            return match views.fault {
                None => Ok(views.place),
                Some(fault) => Err(JournalEnd::of(fault)),
            };
        };
        let count = records.len() as u32;
        let entry = match read_view(alloc, &view, max_slots, count) {
            Ok(entry) => entry,
            Err(end) => return Err(end),
        };
        match keep(records, entry) {
            Ok(()) => {}
            Err(Memory) => return Err(JournalEnd::Memory),
        }
    }
}

/// The records of an image, and the place of the gate that ends them.
fn read_entries(
    alloc: Global,
    image: &[u8],
    max_slots: u32,
) -> Result<(Vec<Record>, usize), JournalEnd>
    requires gate { 16 < length image.now }
    requires most { max_slots ≤ 16384 }
    ensures own { IfErr result (λ e. e ≢ JournalEnd.Disk) }
    ensures fault { IsCausedBy (ending_of result) (fault_in max_slots 0 (entries_of image.now)) }
    ensures read { IfOk result (λ r. IsReadTo max_slots r.0.items r.1 image.now) }
    ensures within { IfOk result (λ r. AreWithin max_slots r.0.items) }
    ensures closed { IfOk result (λ r. slice_index image.now r.1 ≢ 1) }
{
    let mut records = Vec::new(alloc);
    match read_records(alloc, image, max_slots, &mut records) {
        Ok(end) => Ok((records, end)),
        Err(end) => Err(end),
    }
}

/// What an image says that is a journal of this node.
#[derive(Drop)]
pub(crate) struct Opening {
    /// The greatest length of the node's list.
    pub(crate) max_slots: u32,
    /// The records of its entries.
    pub(crate) records: Vec<Record>,
    /// The place of the gate behind them.
    pub(crate) end: u64,
}

/// Reads an image as a journal of this node.
#[tactic(auto, unfolding(crate::specs::Image::first_fault))]
pub(crate) fn read_journal(alloc: Global, image: &[u8], node: u8) -> Result<Opening, JournalEnd>
    ensures own { IfErr result (λ e. e ≢ JournalEnd.Disk) }
    ensures fault { IsCausedBy (ending_of result) (first_fault node image.now) }
    ensures journal { IfOk result (λ o. IsJournalOf node o.max_slots o.records.items image.now) }
    ensures within { IfOk result (λ o. AreWithin o.max_slots o.records.items) }
    ensures end { IfOk result (λ o. o.end ≡ 16 + length (entries (map record_bytes o.records.items))) }
{
    let max_slots = match read_head(image, node) {
        Ok(max_slots) => max_slots,
        Err(fault) => return Err(JournalEnd::of(fault)),
    };
    let (records, end) = match read_entries(alloc, image, max_slots) {
        Ok(read) => read,
        Err(end) => return Err(end),
    };
    Ok(Opening {
        max_slots,
        records,
        end: end as u64,
    })
}

/// Reads an image as a journal of this node and this greatest length of its list.
pub(crate) fn read_own(
    alloc: Global,
    image: &[u8],
    node: u8,
    max_slots: u32,
) -> Result<Opening, JournalEnd>
    ensures own { IfErr result (λ e. e ≢ JournalEnd.Disk) }
    ensures fault { IsCausedBy (ending_of result) (own_fault node max_slots image.now) }
    ensures journal { IfOk result (λ o. IsJournalOf node max_slots o.records.items image.now) }
    ensures within { IfOk result (λ o. AreWithin max_slots o.records.items) }
    ensures end { IfOk result (λ o. o.end ≡ 16 + length (entries (map record_bytes o.records.items))) }
{
    let opening = match read_journal(alloc, image, node) {
        Ok(opening) => opening,
        Err(end) => return Err(end),
    };
    if opening.max_slots != max_slots {
        return Err(JournalEnd::NotOurs { place: 12 });
    }
    Ok(opening)
}
