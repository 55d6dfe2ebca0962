//! Writing a batch.
ghost use Rattle.std.specs.Prelude.{◌≡◌, ◌∷◌, ◌++◌, ◌<◌, ◌≤◌, ◌^◌, length, take, OnOk, OnErr};
ghost use Rattle.byteorder.specs.Endian.{big_bytes};
ghost use Rattle.wdt_logfmt.specs.Spelling.{batch_body, closed_batch, spell, spell_all, AllFit, Fits};

use crate::entry::LogEntry;
use byteorder::{BigEndian, ByteOrder};
use wdt_units::{MAX_PATH, NoMemory};

/// Appends the batch of these entries with a closed gate behind it. The entries have fewer than 2^32
/// bytes together. After `NoMemory` nothing is appended.
pub fn write_batch(entries: &[LogEntry], into: &mut Vec<u8>) -> Result<(), NoMemory>
    requires { length (spell_all entries.now) < 2 ^ 32 }
    ensures spelled { OnOk result (into.new.items ≡ into.old.items ++ closed_batch entries.now) }
    ensures unchanged { OnErr result (into.new.items ≡ into.old.items) }
    ensures fits { OnOk result (AllFit entries.now) }
{
    let before = into.len();
    match append_batch(entries, into) {
        Ok(()) => Ok(()),
        Err(fail) => {
            into.truncate(before);
            Err(fail)
        }
    }
}

// The length comes before the entries, so they are counted first.
fn append_batch(entries: &[LogEntry], into: &mut Vec<u8>) -> Result<(), NoMemory>
    requires { length (spell_all entries.now) < 2 ^ 32 }
    ensures spelled { OnOk result (into.new.items ≡ into.old.items ++ closed_batch entries.now) }
    ensures begun { OnErr result (take (length into.old.items) into.new.items ≡ into.old.items) }
    ensures fits { OnOk result (AllFit entries.now) }
{
    append(into, &length_text(length_of(entries)))?;
    for entry in entries {
        append_entry(into, entry)?;
    }
    append(into, &[0])
}

// How many bytes the entries have together.
fn length_of(entries: &[LogEntry]) -> u32
    requires { length (spell_all entries.now) < 2 ^ 32 }
    ensures { result ≡ length (spell_all entries.now) }
{
    let mut total = 0;
    for entry in entries {
        total += entry_length(entry);
    }
    total
}

fn entry_length(entry: &LogEntry) -> u32
    ensures { result ≡ length (spell entry.now) }
{
    match entry {
        LogEntry::File { path, .. } => 23 + path.bytes().len() as u32,
        LogEntry::Covered { .. } => 17,
    }
}

fn length_text(length: u32) -> [u8; 4]
    ensures { result ≡ big_bytes 4 length }
{
    let mut text = [0; 4];
    BigEndian::write_u32(&mut text, length);
    text
}

// A failure leaves a front of the entry's bytes.
fn append_entry(into: &mut Vec<u8>, entry: &LogEntry) -> Result<(), NoMemory>
    ensures spelled { OnOk result (into.new.items ≡ into.old.items ++ spell entry.now) }
    ensures begun { OnErr result (take (length into.old.items) into.new.items ≡ into.old.items) }
    ensures fits { Fits entry.now }
{
    match entry {
        LogEntry::File {
            number,
            path,
            size,
            stamp,
        } => append_file(into, *number, path.bytes(), *size, *stamp),
        LogEntry::Covered {
            number,
            offset,
            length,
        } => append(into, &covered_text(*number, *offset, *length)),
    }
}

fn append_file(
    into: &mut Vec<u8>,
    number: u32,
    path: &[u8],
    size: u64,
    stamp: u64,
) -> Result<(), NoMemory>
    requires { length path.now ≤ MAX_PATH }
    ensures spelled { OnOk result (into.new.items ≡ into.old.items ++ spell (LogEntry.File number path.now size stamp)) }
    ensures begun { OnErr result (take (length into.old.items) into.new.items ≡ into.old.items) }
    ensures fits { Fits (LogEntry.File number path.now size stamp) }
{
    append(into, &front_text(number, path.len() as u16))?;
    append(into, path)?;
    append(into, &size_text(size, stamp))
}

fn front_text(number: u32, length: u16) -> [u8; 7]
    ensures { result ≡ 0x46 ∷ (big_bytes 4 number ++ big_bytes 2 length) }
{
    let mut text = [0x46; 7];
    BigEndian::write_u32(&mut text[1..], number);
    BigEndian::write_u16(&mut text[5..], length);
    text
}

fn size_text(size: u64, stamp: u64) -> [u8; 16]
    ensures { result ≡ big_bytes 8 size ++ big_bytes 8 stamp }
{
    let mut text = [0; 16];
    BigEndian::write_u64(&mut text, size);
    BigEndian::write_u64(&mut text[8..], stamp);
    text
}

fn covered_text(number: u32, offset: u64, length: u32) -> [u8; 17]
    ensures { result ≡ spell (LogEntry.Covered number offset length) }
{
    let mut text = [0x4D; 17];
    BigEndian::write_u32(&mut text[1..], number);
    BigEndian::write_u64(&mut text[5..], offset);
    BigEndian::write_u32(&mut text[13..], length);
    text
}

fn append(into: &mut Vec<u8>, text: &[u8]) -> Result<(), NoMemory>
    ensures spelled { OnOk result (into.new.items ≡ into.old.items ++ text.now) }
    ensures unchanged { OnErr result (into.new.items ≡ into.old.items) }
{
    match into.extend_from_slice(text) {
        Ok(()) => Ok(()),
        Err(_) => Err(NoMemory),
    }
}
