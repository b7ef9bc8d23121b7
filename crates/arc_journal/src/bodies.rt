//! The bodies of entries: the spellings of records.
ghost use Rattle.std.specs.Prelude.{◌≡◌, ◌≤◌, ◌++◌, ◌∷◌, [], ℕ, true, length, drop, Some, None, IfOk, OnOk, IsErrOf};
ghost use Rattle.std.specs.Int.{w32};
ghost use Rattle.sha2.specs.Sha256.{sha256};
ghost use Rattle.arc_bytes.specs.Numbers.{number_bytes};
ghost use Rattle.arc_command.specs.Spelling.{record_bytes};
ghost use Rattle.arc_data.specs.Valid.{IsValidRecord};
ghost use Rattle.arc_journal.specs.Bodies.{record_of};
ghost use Rattle.arc_journal.specs.Image.{IsKept, is_below};
ghost use Rattle.arc_journal.specs.Layout.{sealed};

use arc_bytes::{Memory, put_u32};
use arc_command::{CommandEnd, Record, decode_record, encode_record, spelled_entries_are_read};
use sha2::{Digest, Sha256};
use std::alloc::Global;

/// Why a body was not read.
#[derive(Clone, Copy)]
pub(crate) enum BodyEnd {
    /// It spells no record.
    NoRecord,
    /// There was no memory left.
    Memory,
}

/// The record that a body spells.
pub(crate) fn read_body(alloc: Global, body: &[u8]) -> Result<Record, BodyEnd>
    ensures read { IfOk result (λ r. record_of body.now ≡ Some r) }
    ensures spelled { IfOk result (λ r. body.now ≡ record_bytes r) }
    ensures valid { IfOk result IsValidRecord }
    ensures none { IsErrOf result BodyEnd.NoRecord → record_of body.now ≡ None }
{
    match decode_record(alloc, body) {
        Ok(entry) => Ok(entry),
        Err(CommandEnd::BadCommand { .. }) => Err(BodyEnd::NoRecord),
        Err(CommandEnd::Memory) => Err(BodyEnd::Memory),
    }
}

/// Appends the body of an entry.
#[tactic(auto, unfolding(arc_command::specs::Spelling::record_bytes))]
pub(crate) fn write_body(entry: &Record, out: &mut Vec<u8>) -> Result<(), Memory>
    requires { IsValidRecord entry.now }
    ensures appended { OnOk result (out.new.items ≡ out.old.items ++ record_bytes entry.now) }
    ensures some { OnOk result (1 ≤ length (record_bytes entry.now)) }
    ensures short { OnOk result (length (record_bytes entry.now) ≤ 1037) }
    ensures reads { OnOk result (record_of (record_bytes entry.now) ≡ Some entry.now) }
{
    spelled_entries_are_read();
    match encode_record(entry, out) {
        Ok(()) => Ok(()),
        Err(Memory) => Err(Memory),
    }
}

/// Puts a number over the first four bytes.
#[tactic(auto, unfolding(arc_bytes::specs::Numbers::number_bytes))]
fn put_over(bytes: &mut [u8], number: u32)
    requires { 4 ≤ length bytes.old }
    ensures { bytes.new ≡ number_bytes w32 number ++ drop 4 bytes.old }
{
    bytes[..4].copy_from_slice(&number.to_be_bytes());
}

/// Puts a number over the first four bytes of the buffer.
fn set_number(out: &mut Vec<u8>, number: u32)
    requires { 4 ≤ length out.old.items }
    ensures { out.new.items ≡ number_bytes w32 number ++ drop 4 out.old.items }
{
    put_over(out, number);
}

/// Appends the digest of what stands behind the first four bytes, and a closed gate.
fn close(out: &mut Vec<u8>) -> Result<(), Memory>
    requires { 4 ≤ length out.old.items }
    ensures { OnOk result (out.new.items ≡ out.old.items ++ sha256 (drop 4 out.old.items) ++ 0 ∷ []) }
{
    let digest = Sha256::digest(&out[4..]);
    match out.extend_from_slice(&digest) {
        Ok(()) => {}
        Err(_) => return Err(Memory),
    }
    out.push(0)?;
    Ok(())
}

/// Puts what stands behind the gate of an entry, and the closed gate behind it, into the buffer.
pub(crate) fn seal(entry: &Record, out: &mut Vec<u8>) -> Result<(), Memory>
    requires { IsValidRecord entry.now }
    ensures sealed { OnOk result (out.new.items ≡ sealed (record_bytes entry.now) ++ 0 ∷ []) }
    ensures kept { (slots : ℕ) → is_below slots entry.now ≡ true → OnOk result (IsKept slots entry.now) }
{
    out.clear();
    match put_u32(out, 0) {
        Ok(()) => {}
        Err(Memory) => return Err(Memory),
    }
    match write_body(entry, out) {
        Ok(()) => {}
        Err(Memory) => return Err(Memory),
    }
    let len = (out.len() - 4) as u32;
    set_number(out, len);
    match close(out) {
        Ok(()) => Ok(()),
        Err(Memory) => Err(Memory),
    }
}
