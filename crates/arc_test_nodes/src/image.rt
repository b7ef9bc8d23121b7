//! What is seen of an image of two entries, whole and with one byte of it changed.
use crate::journal::Found::{self, NotOurs, Rotten, Sound};
use crate::journal::WORKED;
use arc_bytes::Memory;
use arc_journal::{Image, ImageFault, RecordView};
use std::alloc::Global;
use std::process::Abort;
use std::test::Fail;

/// The worked journal with its entry twice: gates are at 16, 58 and 100, the last of them closed.
fn two_entries(alloc: Global) -> Result<Vec<u8>, Memory> {
    let mut bytes = WORKED[..58].to_vec(alloc)?;
    bytes.extend_from_slice(&WORKED[16..])?;
    Ok(bytes)
}

/// The place of the last record that is seen and the length of its body; 0 where none is.
fn last_of(image: Image<'_>) -> (u64, usize) {
    let mut last = (0, 0);
    for view in image.records() {
        last = (view.place, view.body.len());
    }
    last
}

/// What is wrong with the image.
fn found_in(image: Image<'_>) -> Found {
    match image.fault() {
        None => Sound,
        Some(ImageFault::NotOurs { place }) => NotOurs(place),
        Some(ImageFault::Rotten { place, .. }) => Rotten(place),
    }
}

/// A place and the byte that stands there; then the head, the last record that is seen, and what is found.
type Row = (usize, u8, Option<(u8, u32)>, (u64, usize), Found);

const ROWS: [Row; 8] = [
    (100, 0, Some((0, 4096)), (58, 5), Sound),
    (100, 9, Some((0, 4096)), (58, 5), Sound),
    (58, 0, Some((0, 4096)), (16, 5), Sound),
    (16, 2, Some((0, 4096)), (0, 0), Sound),
    (63, 2, Some((0, 4096)), (16, 5), Rotten(58)),
    (62, 6, Some((0, 4096)), (16, 5), NotOurs(58)),
    (8, 3, Some((3, 4096)), (58, 5), Sound),
    (12, 1, None, (0, 0), NotOurs(12)),
];

/// What is seen when one byte of the image is another.
fn check_row(
    rt: &(impl Abort + AllocGlobal),
    bytes: &mut [u8],
    (place, byte, head, last, found): Row,
) {
    if place < bytes.len() {
        bytes[place] = byte;
    }
    let image = Image::of(bytes);
    assert_eq!(rt; image.head(), head, "place {place}, byte {byte}");
    assert_eq!(rt; last_of(image), last, "place {place}, byte {byte}");
    assert_eq!(rt; found_in(image), found, "place {place}, byte {byte}");
}

#[test]
fn an_image_shows_its_records_up_to_a_closed_gate_or_a_fault(rt: HostRuntime) -> Result<(), Fail> {
    for row in ROWS {
        let mut bytes = two_entries(rt.alloc())?;
        check_row(&rt, &mut bytes, row);
    }
    Ok(())
}

#[test]
fn a_view_is_the_body_where_it_lies(rt: HostRuntime) -> Result<(), Fail> {
    let bytes = two_entries(rt.alloc())?;
    let image = Image::of(&bytes);
    for RecordView { place, body } in image.records() {
        assert_eq!(rt; body, [1, 0, 0, 0, 1].as_slice(), "place {place}");
    }
    Ok(())
}
