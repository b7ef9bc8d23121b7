//! Fields: how one is put at the end of the bytes, and how it is read at a place.
ghost use Rattle.std.specs.Prelude.{◌≡◌, ℕ, ◌<◌, ◌≤◌, ◌^◌, ◌&&◌, ◌∷◌, [], List, length, take, true, false, nat_le, All, IfOk, IfSome, IfNone, OnOk};
ghost use Rattle.std.specs.Int.{w16, w32, w64};
ghost use Rattle.std.specs.List.{AllByRecursion, flat_map};
ghost use Rattle.std.specs.Str.{IsUtf8, is_utf8};
ghost use Rattle.arc_command.specs.Reader.{Reader, byte_at, uint_at, text_at, items_at, list_at};
ghost use Rattle.arc_command.specs.Reading.{Gives};
ghost use Rattle.arc_command.specs.Spelling.{text_bytes, list_bytes};
ghost use Rattle.arc_bytes.specs.Adding.{Adds};

use crate::{CommandEnd, List, Text};
use arc_bytes::{Memory, put_u16, take_u16, take_u32, take_u64};
use std::alloc::Global;

/// A value that stands in the bytes as an item of a list.
pub(crate) trait Field: Drop {
    // The bytes of a value.
    ghost spelling: { Self → List ℕ };

    // What stands at a place, behind these items of the list.
    ghost reading: { List Self → Reader Self };

    // The limits that the bytes need.
    ghost IsShort: { Self → Type 0 };

    // What is known of every value of the type.
    ghost IsTyped: { Self → Type 0 };

    /// Puts the bytes of the value at the end.
    fn put(&self, out: &mut Vec<u8>) -> Result<(), Memory>
        requires { IsShort self.now }
        ensures adds { Adds out.old out.new (spelling self.now) result }
        ensures typed { OnOk result (IsTyped self.now) };

    /// The value that begins at a place, behind the earlier items of its list, and the place after it.
    fn read(
        alloc: Global,
        bytes: &[u8],
        at: usize,
        earlier: &[Self],
    ) -> Result<(Self, usize), CommandEnd>
        ensures { Gives result (reading earlier.now bytes.now at) };
}

/// One byte.
#[tactic(auto, unfolding(crate::specs::Reader::byte_at))]
pub(crate) fn read_byte(bytes: &[u8], at: usize) -> Result<(u8, usize), CommandEnd>
    ensures { Gives result (byte_at bytes.now at) }
{
    match bytes.get(at) {
        Some(b) => Ok((*b, at + 1)),
        None => Err(CommandEnd::BadCommand { place: at }),
    }
}

/// A number of two bytes.
#[tactic(auto, unfolding(crate::specs::Reader::uint_at, arc_bytes::specs::Numbers::number_at))]
pub(crate) fn read_u16(bytes: &[u8], at: usize) -> Result<(u16, usize), CommandEnd>
    ensures gives { Gives result (uint_at w16 bytes.now at) }
    ensures place { IfOk result (λ x. x.1 ≤ length bytes.now) }
{
    match take_u16(bytes, at) {
        Ok(found) => Ok(found),
        Err(_) => Err(CommandEnd::BadCommand { place: at }),
    }
}

/// A number of four bytes.
#[tactic(auto, unfolding(crate::specs::Reader::uint_at))]
pub(crate) fn read_u32(bytes: &[u8], at: usize) -> Result<(u32, usize), CommandEnd>
    ensures { Gives result (uint_at w32 bytes.now at) }
{
    match take_u32(bytes, at) {
        Ok(found) => Ok(found),
        Err(_) => Err(CommandEnd::BadCommand { place: at }),
    }
}

/// A number of eight bytes.
#[tactic(auto, unfolding(crate::specs::Reader::uint_at))]
pub(crate) fn read_u64(bytes: &[u8], at: usize) -> Result<(u64, usize), CommandEnd>
    ensures { Gives result (uint_at w64 bytes.now at) }
{
    match take_u64(bytes, at) {
        Ok(found) => Ok(found),
        Err(_) => Err(CommandEnd::BadCommand { place: at }),
    }
}

/// A text of so few and so many bytes.
#[tactic(auto, unfolding(crate::specs::Reader::text_at))]
pub(crate) fn read_text(
    alloc: Global,
    bytes: &[u8],
    at: usize,
    least: u16,
    most: u16,
) -> Result<(Text, usize), CommandEnd>
    ensures { Gives result (text_at least most bytes.now at) }
{
    let (len, start) = read_u16(bytes, at)?;
    if len < least || most < len {
        return Err(CommandEnd::BadCommand { place: at });
    }
    let Some(text) = text_in(&bytes[start..], len as usize) else {
        return Err(CommandEnd::BadCommand { place: at });
    };
    let text = Text::of(alloc, text)?;
    Ok((text, start + len as usize))
}

/// The text of so many bytes at the front, where they are there and are UTF-8.
fn text_in(bytes: &[u8], len: usize) -> Option<&str>
    ensures some { IfSome result (λ s. (s.now ≡ take len bytes.now) × (len ≤ length bytes.now) × (is_utf8 (take len bytes.now) ≡ true)) }
    ensures none { IfNone result ((nat_le len (length bytes.now) && is_utf8 (take len bytes.now)) ≡ false) }
{
    if bytes.len() < len {
        return None;
    }
    match str::from_utf8(&bytes[..len]) {
        Ok(text) => Some(text),
        Err(_) => None,
    }
}

/// A list with so few and so many items.
#[tactic(auto, unfolding(crate::specs::Reader::list_at))]
pub(crate) fn read_list<T: Field>(
    alloc: Global,
    bytes: &[u8],
    at: usize,
    least: u16,
    most: u16,
) -> Result<(List<T>, usize), CommandEnd>
    ensures { Gives result (list_at least most T.reading bytes.now at) }
{
    let (count, start) = read_u16(bytes, at)?;
    if count < least || most < count {
        return Err(CommandEnd::BadCommand { place: at });
    }
    read_items(alloc, bytes, start, count)
}

/// So many items, one after the other.
fn read_items<T: Field>(
    alloc: Global,
    bytes: &[u8],
    start: usize,
    count: u16,
) -> Result<(List<T>, usize), CommandEnd>
    ensures { Gives result (items_at T.reading [] count bytes.now start) }
{
    let mut items = Vec::with_capacity(alloc, count as usize)?;
    let mut at = start;
    for _ in 0..count {
        let (item, after) = T::read(alloc, bytes, at, items.as_slice())?;
        items.push(item)?;
        at = after;
    }
    Ok((List::of(items), at))
}

/// Puts one byte at the end.
pub(crate) fn put_byte(out: &mut Vec<u8>, b: u8) -> Result<(), Memory>
    ensures { Adds out.old out.new (b ∷ []) result }
{
    out.push(b)?;
    Ok(())
}

/// Puts a text at the end.
#[tactic(auto, unfolding(crate::specs::Spelling::text_bytes))]
pub(crate) fn put_text(out: &mut Vec<u8>, text: &Text) -> Result<(), Memory>
    requires { length text.now < 2 ^ 16 }
    ensures adds { Adds out.old out.new (text_bytes text.now) result }
    ensures typed { IsUtf8 text.now }
{
    let text = text.as_str();
    put_u16(out, text.len() as u16)?;
    out.extend_from_slice(text.as_bytes())?;
    Ok(())
}

/// Puts a list at the end: its count, and its items.
#[tactic(auto, unfolding(crate::specs::Spelling::list_bytes))]
pub(crate) fn put_list<T: Field>(out: &mut Vec<u8>, items: &List<T>) -> Result<(), Memory>
    requires count { length items.now < 2 ^ 16 }
    requires short { All T.IsShort items.now }
    ensures adds { Adds out.old out.new (list_bytes T.spelling items.now) result }
    ensures typed { OnOk result (AllByRecursion T.IsTyped items.now) }
{
    let items = items.as_slice();
    put_u16(out, items.len() as u16)?;
    put_items(out, items)
}

/// Puts items at the end, one after the other.
pub(crate) fn put_items<T: Field>(out: &mut Vec<u8>, items: &[T]) -> Result<(), Memory>
    requires { All T.IsShort items.now }
    ensures adds { Adds out.old out.new (flat_map T.spelling items.now) result }
    ensures typed { OnOk result (AllByRecursion T.IsTyped items.now) }
{
    for item in items {
        item.put(out)?;
    }
    Ok(())
}
