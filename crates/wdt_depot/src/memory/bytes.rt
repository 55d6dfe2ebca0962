// Bytes put over bytes.
ghost use Rattle.std.specs.Prelude.{◌≡◌, ◌⊎◌, ℕ, ◌+◌, ◌-◌, ◌%◌, ◌≤◌, ◌<◌, ◌^◌, ◌++◌, length, take, drop, slice_index, OnErr, OnOk, IfOk, vec_len};
ghost use Rattle.wdt_depot.specs.Disk.{spliced};

use std::alloc::{AllocError, Global};

// The bytes of a range, as far as there are any.
pub fn overwritten(
    alloc: Global,
    bytes: &[u8],
    offset: usize,
    end: usize,
) -> Result<Vec<u8>, AllocError>
    requires { offset ≤ end }
    ensures { IfOk result (λ before. before.items ≡ take (end - offset) (drop offset bytes.now)) }
{
    if offset >= bytes.len() {
        return Ok(Vec::new(alloc));
    }
    if end >= bytes.len() {
        return Vec::from_slice(alloc, &bytes[offset..]);
    }
    Vec::from_slice(alloc, &bytes[offset..end])
}

// Puts the bytes at the offset, over what is there; the length reaches to their end already.
fn put_over(bytes: &mut Vec<u8>, offset: usize, piece: &[u8])
    requires { offset + length piece.now ≤ vec_len bytes.old }
    ensures items { bytes.new.items ≡ take offset bytes.old.items ++ piece.now ++ drop (offset + length piece.now) bytes.old.items }
{
    bytes[offset..offset + piece.len()].copy_from_slice(piece);
}

// Puts the bytes at the offset; a gap before them is filled with 0.
pub fn put_bytes(bytes: &mut Vec<u8>, offset: usize, piece: &[u8]) -> Result<(), AllocError>
    requires { offset + length piece.now < 2 ^ 64 }
    ensures ok { OnOk result (bytes.new.items ≡ spliced bytes.old.items offset piece.now) }
    ensures err { OnErr result (bytes.new.items ≡ bytes.old.items) }
{
    let end = offset + piece.len();
    if bytes.len() < end {
        bytes.resize(end, 0)?;
    }
    put_over(bytes, offset, piece);
    Ok(())
}

// Puts the piece over the bytes from the offset on, as far as there are bytes.
pub fn put_within(bytes: &mut Vec<u8>, offset: usize, piece: &[u8])
    ensures { bytes.new.items ≡ take (length bytes.old.items) (take offset bytes.old.items ++ piece.now ++ drop (offset + length piece.now) bytes.old.items) }
{
    if offset >= bytes.len() {
        return;
    }
    let count = piece.len().min(bytes.len() - offset);
    put_over(bytes, offset, &piece[..count]);
}

// Makes each byte of the range the pick and its place, modulo 256.
pub fn fill(bytes: &mut [u8], from: usize, to: usize, pick: u64)
    requires { to ≤ length bytes.old }
    ensures within { (k : ℕ) → from ≤ k → k < to → slice_index bytes.new k ≡ (pick + k) % 256 }
    ensures others { (k : ℕ) → (k < from) ⊎ (to ≤ k) → slice_index bytes.new k ≡ slice_index bytes.old k }
{
    for o in from..to {
        bytes[o] = ((pick % 256 + o as u64 % 256) % 256) as u8;
    }
}
