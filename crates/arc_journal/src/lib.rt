//! Journals: the entries of one node, each on its disk before anybody hears of it.
//!
//! It stands on `arc_disk` for the disk, on `arc_command` for the bytes of records, and on `sha2` for digests. A node
//! stands on it.
//!
//! The law that it keeps: at each moment since an append began, a crash leaves a journal with the entries from before, or
//! with the new one behind them; after its Ok, with the new one alone. Opening a journal finds exactly those entries.
//!
//! An image is what the bytes of a disk show of a journal: its head, and views of its records, each a range of the image, in
//! order and apart. The walk over them tests the head, and of each entry its length and its digest; what a body says it doesn't
//! read. Opening a journal is that walk, and reads each body where it lies. So an opening holds one image, that which the disk
//! gives, and the records: `Image`, `Records` and `RecordView` are lent the bytes and are handed no allocator, so that they
//! can't take memory; what is handed one is the reading of the image, once, and that of each record. `bench/journal` shows the
//! bytes that are held.
//!
//! What the caller owes: a node below 5 and 1 to 16,384 slots; an empty disk for a new journal; entries within their
//! limits, with slots below the greatest length of the list; and no append behind one that met a fault of the disk.
//!
//! The bytes: a head of 16 (`ARCJRNL`, the version 1, the node, three bytes 0, and the greatest length of the list in
//! four bytes), and behind it entries. An entry is a gate byte, the length of its body in four bytes, the body, and the
//! SHA-256 of the body. It counts where its gate byte is 1. The first gate byte that isn't 1 ends the entries, and what
//! follows it is ignored. Numbers stand with the highest byte first.
//!
//! No digest is trusted to end the entries: the gate stands closed on the disk before anything is written behind it, and
//! is opened by a write of its own after a sync.
#![tactic(auto)]

mod bodies;
mod device;
mod end;
mod image;
mod journal;
mod reading;
mod view;

pub use end::{AppendEnd, ImageFault, JournalEnd};
pub use image::{Image, Records};
pub use journal::Journal;
pub use view::RecordView;
