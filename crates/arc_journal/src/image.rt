//! Images: what the bytes of a disk show of a journal, where they lie.
ghost use Rattle.std.specs.Prelude.{◌≡◌, ◌==◌, ◌+◌, ◌<◌, ℕ, drop, length, slice_index, None, IfNone, IfSome, MatchOption};
ghost use Rattle.std.specs.Iterator.{YieldsFirstBy};
ghost use Rattle.std.specs.List.{filter_map};
ghost use Rattle.arc_journal.specs.Bodies.{record_of};
ghost use Rattle.arc_journal.specs.Faults.{end_of_found};
ghost use Rattle.arc_journal.specs.Image.{first_fault, records_of};
ghost use Rattle.arc_journal.specs.Views.{AreRanges, BeginsWithHead, HasNoHead, Passes, Stops, bytes_of, image_fault, node_in, seen_by, seen_of_image, still_faulty, still_seen};

use crate::ImageFault;
use crate::reading::{HEAD_LEN, OPEN, read_head, read_slots};
use crate::view::{RecordView, view_entry};

/// The bytes of a disk, looked at as those of a journal of whatever node its head names.
///
/// It takes no memory and reads no record: the head, the lengths and the digests of entries are tested, but not what their
/// bodies say.
#[derive(Clone, Copy)]
pub struct Image<'a> {
    bytes: &'a [u8],
}

/// The records of an image, one after the other, up to the first gate that isn't open or the first fault.
#[derive(Drop)]
pub struct Records<'a> {
    bytes: &'a [u8],
    /// The place of the gate that is next.
    pub(crate) place: usize,
    /// The fault that ended the walk.
    pub(crate) fault: Option<ImageFault>,
}

/// The node that the head names, if it is there.
fn node_in(image: &[u8]) -> u8
    ensures { result ≡ node_in image.now }
{
    match image.get(8) {
        Some(node) => *node,
        None => 0,
    }
}

/// Whether an open gate is at this place.
fn is_open(bytes: &[u8], place: usize) -> bool
    ensures { result ≡ (slice_index bytes.now place == 1) }
{
    match bytes.get(place) {
        Some(gate) => *gate == OPEN,
        None => false,
    }
}

/// The bytes behind the gate at this place.
fn behind_gate(bytes: &[u8], place: usize) -> &[u8]
    requires { place < length bytes.now }
    ensures { result.now ≡ drop (place + 1) bytes.now }
{
    &bytes[place + 1..]
}

impl<'a> Image<'a> {
    /// These bytes as an image.
    pub fn of(bytes: &'a [u8]) -> Image<'a>
        ensures { bytes_of result ≡ bytes.now }
    {
        Image { bytes }
    }

    /// The node and the greatest length of the list that the head names; `None` where the image doesn't begin with a head.
    pub fn head(&self) -> Option<(u8, u32)>
        ensures { MatchOption result (HasNoHead (bytes_of self.now))
            (λ h. BeginsWithHead h.0 h.1 (bytes_of self.now)) }
    {
        let node = node_in(self.bytes);
        match read_slots(self.bytes, node) {
            Ok(max_slots) => Some((node, max_slots)),
            Err(_) => None,
        }
    }

    /// A walk over the records, behind the head.
    fn walk(&self) -> Records<'a>
        ensures seen { still_seen result ≡ seen_of_image (bytes_of self.now) }
        ensures fault { still_faulty result ≡ image_fault (bytes_of self.now) }
    {
        let fault = match read_head(self.bytes, node_in(self.bytes)) {
            Ok(_) => None,
            Err(fault) => Some(fault),
        };
        Records {
            bytes: self.bytes,
            place: HEAD_LEN,
            fault,
        }
    }

    /// Views of the records, in order. There are none where the head is at fault.
    pub fn records(&self) -> Records<'a>
        ensures seen { still_seen result ≡ seen_of_image (bytes_of self.now) }
        ensures ranges { AreRanges (bytes_of self.now) 16 (still_seen result) }
        // Of an image that opens they show what is read.
        ensures read { (node : ℕ) → first_fault node (bytes_of self.now) ≡ None →
            filter_map (λ entry. record_of entry.body) (still_seen result) ≡ records_of (bytes_of self.now) }
    {
        self.walk()
    }

    /// The first fault of the head, of the length of an entry, or of its digest.
    pub fn fault(&self) -> Option<ImageFault>
        ensures fault { end_of_found result ≡ image_fault (bytes_of self.now) }
        // An image that opens has none.
        ensures none { (node : ℕ) → first_fault node (bytes_of self.now) ≡ None → result ≡ None }
    {
        let mut records = self.walk();
        loop {
            match records.step() {
                Some(_) => {}
                None => return records.fault,
            }
        }
    }
}

impl<'a> Records<'a> {
    /// Views of the records behind the head.
    pub(crate) fn behind_head(bytes: &'a [u8]) -> Records<'a>
        ensures bytes { result.bytes.now ≡ bytes.now }
        ensures place { result.place ≡ 16 }
        ensures fault { result.fault ≡ None }
    {
        Records {
            bytes,
            place: HEAD_LEN,
            fault: None,
        }
    }

    /// The view of the next record, or nothing: at a gate that isn't open, and at a fault, which is kept.
    pub(crate) fn step(&mut self) -> Option<RecordView<'a>>
        ensures next { YieldsFirstBy seen_by still_seen self.old result self.new }
        ensures fault { still_faulty self.new ≡ still_faulty self.old }
        ensures bytes { self.new.bytes.now ≡ self.old.bytes.now }
        ensures passes { IfSome result (Passes self.old self.new) }
        ensures stops { self.old.fault ≡ None → IfNone result (Stops self.old self.new) }
        ensures ended { IfNone result (still_faulty self.old ≡ end_of_found self.new.fault) }
    {
        if self.fault.is_some() {
            return None;
        }
        let bytes = self.bytes;
        if !is_open(bytes, self.place) {
            return None;
        }
        match view_entry(behind_gate(bytes, self.place), self.place) {
            Ok(view) => {
                self.place += 37 + view.body.len();
                Some(view)
            }
            Err(fault) => {
                self.fault = Some(fault);
                None
            }
        }
    }
}

impl<'a> Iterator for Records<'a> {
    ghost use Rattle.std.specs.Iterator.{YieldsFirstBy, item_count};
    ghost use Rattle.arc_journal.specs.Views.{seen_by, still_seen};

    type Item = RecordView<'a>;

    ghost next_gives = { YieldsFirstBy seen_by still_seen };

    ghost remaining = { item_count still_seen };

    fn next(&mut self) -> Option<RecordView<'a>> {
        self.step()
    }
}
