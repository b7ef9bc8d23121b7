//! Numbers in bytes, the highest byte first.
ghost use Rattle.std.specs.Prelude.{◌≡◌, OnErr};
ghost use Rattle.std.specs.Int.{w16, w32, w64};
ghost use Rattle.arc_bytes.specs.Adding.{Adds};
ghost use Rattle.arc_bytes.specs.Numbers.{number_at, number_bytes};

use crate::Memory;

/// Too few bytes remain for a number.
#[derive(Clone, Copy, Debug, PartialEq, Eq)]
pub struct Short {
    /// How many bytes remain at the place, 0 past the end.
    pub have: usize,
    /// How many bytes the number has.
    pub need: usize,
}

/// The number in the two bytes at a place, and the place after it.
#[tactic(auto, unfolding(crate::specs::Numbers::number_at))]
pub fn take_u16(bytes: &[u8], at: usize) -> Result<(u16, usize), Short>
    ensures { result ≡ number_at w16 bytes.now at }
{
    let have = bytes.len().saturating_sub(at);
    if have < 2 {
        return Err(Short { have, need: 2 });
    }
    let number = u16::from_be_bytes([bytes[at], bytes[at + 1]]);
    Ok((number, at + 2))
}

/// The number in the four bytes at a place, and the place after it.
#[tactic(auto, unfolding(crate::specs::Numbers::number_at))]
pub fn take_u32(bytes: &[u8], at: usize) -> Result<(u32, usize), Short>
    ensures { result ≡ number_at w32 bytes.now at }
{
    let have = bytes.len().saturating_sub(at);
    if have < 4 {
        return Err(Short { have, need: 4 });
    }
    let rest = &bytes[at..];
    let number = u32::from_be_bytes([rest[0], rest[1], rest[2], rest[3]]);
    Ok((number, at + 4))
}

/// The number in the eight bytes at a place, and the place after it.
#[tactic(auto, unfolding(crate::specs::Numbers::number_at))]
pub fn take_u64(bytes: &[u8], at: usize) -> Result<(u64, usize), Short>
    ensures { result ≡ number_at w64 bytes.now at }
{
    let have = bytes.len().saturating_sub(at);
    if have < 8 {
        return Err(Short { have, need: 8 });
    }
    let rest = &bytes[at..];
    let number = u64::from_be_bytes([
        rest[0], rest[1], rest[2], rest[3], rest[4], rest[5], rest[6], rest[7],
    ]);
    Ok((number, at + 8))
}

/// Puts a number in two bytes at the end. After `Memory` the bytes are as they were.
#[tactic(auto, unfolding(crate::specs::Numbers::number_bytes))]
pub fn put_u16(out: &mut Vec<u8>, v: u16) -> Result<(), Memory>
    ensures adds { Adds out.old out.new (number_bytes w16 v) result }
    ensures kept { OnErr result (out.new.items ≡ out.old.items) }
{
    out.extend_from_slice(&v.to_be_bytes())?;
    Ok(())
}

/// Puts a number in four bytes at the end. After `Memory` the bytes are as they were.
#[tactic(auto, unfolding(crate::specs::Numbers::number_bytes))]
pub fn put_u32(out: &mut Vec<u8>, v: u32) -> Result<(), Memory>
    ensures adds { Adds out.old out.new (number_bytes w32 v) result }
    ensures kept { OnErr result (out.new.items ≡ out.old.items) }
{
    out.extend_from_slice(&v.to_be_bytes())?;
    Ok(())
}

/// Puts a number in eight bytes at the end. After `Memory` the bytes are as they were.
#[tactic(auto, unfolding(crate::specs::Numbers::number_bytes))]
pub fn put_u64(out: &mut Vec<u8>, v: u64) -> Result<(), Memory>
    ensures adds { Adds out.old out.new (number_bytes w64 v) result }
    ensures kept { OnErr result (out.new.items ≡ out.old.items) }
{
    out.extend_from_slice(&v.to_be_bytes())?;
    Ok(())
}
