//! Views of entries: each where it lies, in the bytes of an image.
ghost use Rattle.std.specs.Prelude.{◌≡◌, ◌+◌, ◌<◌, true, false, length, IfOk, MatchOption};
ghost use Rattle.arc_journal.specs.Faults.{end_of_look};
ghost use Rattle.arc_journal.specs.Image.{body_in, is_whole};
ghost use Rattle.arc_journal.specs.Views.{bytes_fault, seen_by, seen_of};

use crate::ImageFault;
use arc_bytes::take_u32;
use sha2::{Digest, Sha256};

/// A record of an image, seen where it lies.
#[derive(Clone, Copy)]
pub struct RecordView<'a> {
    /// The place of its gate. Behind the gate stand the length of the body in four bytes, the body, and its digest of 32.
    pub place: u64,
    /// Its body, lent by the image.
    pub body: &'a [u8],
}

/// The body behind a gate, where its length is in its range and the whole entry and a gate behind it are there.
#[tactic(auto, unfolding(arc_bytes::specs::Numbers::number_at))]
fn whole_body(bytes: &[u8]) -> Option<&[u8]>
    ensures { MatchOption result (is_whole bytes.now ≡ false)
        (λ body. (is_whole bytes.now ≡ true) × (body.now ≡ body_in bytes.now)) }
{
    let Ok((len, _)) = take_u32(bytes, 0) else {
        return None;
    };
    let len = len as usize;
    if len == 0 || len > 1037 || bytes.len() <= len + 36 {
        return None;
    }
    Some(&bytes[4..4 + len])
}

/// The view of an entry whose gate is at this place, by the bytes behind the gate. Its record isn't read.
pub(crate) fn view_entry(bytes: &[u8], place: usize) -> Result<RecordView<'_>, ImageFault>
    ensures seen { IfOk result (λ view. seen_by view ≡ seen_of (record { place = place; bytes = bytes.now })) }
    ensures within { IfOk result (λ view. length view.body.now + 36 < length bytes.now) }
    ensures fault { end_of_look result ≡ bytes_fault (record { place = place; bytes = bytes.now }) }
{
    let place = place as u64;
    let Some(body) = whole_body(bytes) else {
        return Err(ImageFault::NotOurs { place });
    };
    let mut stored = [0u8; 32];
    stored.copy_from_slice(&bytes[4 + body.len()..36 + body.len()]);
    let computed = Sha256::digest(body);
    if stored != computed {
        return Err(ImageFault::Rotten {
            place,
            stored,
            computed,
        });
    }
    Ok(RecordView { place, body })
}
