//! Reading the entries of a batch.
ghost use Rattle.std.specs.Prelude.{◌≡◌, ◌+◌, ◌<◌, ◌≤◌, ◌^◌, Ok, length, IfOk, IfErr, IfSome};
ghost use Rattle.wdt_logfmt.specs.Meaning.{covered_entry, file_entry, read_added, with_entries, IsRefused};
ghost use Rattle.wdt_logfmt.specs.Parts.{front_added, with_kind, with_rest};

use crate::fails::ReadLogFail;
use crate::files::Files;
use byteorder::{BigEndian, ByteOrder};
use wdt_units::NoMemory;

/// The bytes with which the two kinds of entries begin.
const FILE: u8 = 0x46;

const COVERED: u8 = 0x4D;

/// The files with the entries of a batch, whose first byte stands at a place of the log.
pub fn read_entries<'a>(
    body: &'a [u8],
    place: usize,
    files: Files<'a>,
) -> Result<Files<'a>, ReadLogFail>
    requires { place + length body.now < 2 ^ 64 }
    ensures files { IfOk result (λ after. with_entries 1 (length body.now) place files.entry body.now ≡ Ok after) }
    ensures refused { IfErr result (λ e. IsRefused (with_entries 1 (length body.now) place files.entry body.now) e) }
{
    let mut files = files;
    let mut at = 0;
    while at < body.len() {
        let read = read_entry(&body[at..], files)?;
        let Some((length, more)) = read else {
            return Err(ReadLogFail::BadLog {
                at: (place + at) as u64,
            });
        };
        files = more;
        at += length;
    }
    Ok(files)
}

// How many bytes the entry at the front has, and the files with it; or None where it has no reading
// or doesn't continue the files.
fn read_entry<'a>(bytes: &'a [u8], files: Files<'a>) -> Result<Option<(usize, Files<'a>)>, NoMemory>
    requires { 0 < length bytes.now }
    ensures entry { IfOk result (λ read. with_rest bytes.now read ≡ front_added 1 files.entry bytes.now) }
    ensures length { IfOk result (λ read. IfSome read (λ x. (0 < x.0) × (x.0 ≤ length bytes.now))) }
{
    let fields = &bytes[1..];
    let kind = bytes[0];
    if kind == FILE {
        return Ok(behind_kind(read_file(fields, files)?));
    }
    if kind == COVERED {
        return Ok(behind_kind(read_covered(fields, files)?));
    }
    Ok(None)
}

// What was read behind the byte of the kind, with that byte.
fn behind_kind<'a>(read: Option<(usize, Files<'a>)>) -> Option<(usize, Files<'a>)>
    requires { IfSome read (λ x. x.0 < 2 ^ 63) }
    ensures { result ≡ with_kind read.entry }
{
    match read {
        Some((length, files)) => Some((length + 1, files)),
        None => None,
    }
}

// The same of the fields of a file's entry.
fn read_file<'a>(fields: &'a [u8], files: Files<'a>) -> Result<Option<(usize, Files<'a>)>, NoMemory>
    ensures entry { IfOk result (λ read. with_rest fields.now read ≡ read_added 1 files.entry (file_entry fields.now)) }
    ensures length { IfOk result (λ read. IfSome read (λ x. x.0 ≤ length fields.now)) }
{
    if fields.len() < 6 {
        return Ok(None);
    }
    let number = BigEndian::read_u32(fields);
    let length = BigEndian::read_u16(&fields[4..]) as usize;
    let text = &fields[6..];
    if text.len() < length + 16 {
        return Ok(None);
    }
    let path = &text[..length];
    let size = BigEndian::read_u64(&text[length..]);
    let stamp = BigEndian::read_u64(&text[length + 8..]);
    match files.naming(number, path, size, stamp)? {
        Some(more) => Ok(Some((length + 22, more))),
        None => Ok(None),
    }
}

// The same of the fields of a covered span.
fn read_covered<'a>(fields: &[u8], files: Files<'a>) -> Result<Option<(usize, Files<'a>)>, NoMemory>
    ensures entry { IfOk result (λ read. with_rest fields.now read ≡ read_added 1 files.entry (covered_entry fields.now)) }
    ensures length { IfOk result (λ read. IfSome read (λ x. x.0 ≤ length fields.now)) }
{
    if fields.len() < 16 {
        return Ok(None);
    }
    let number = BigEndian::read_u32(fields);
    let offset = BigEndian::read_u64(&fields[4..]);
    let length = BigEndian::read_u32(&fields[12..]);
    match files.covering(number, offset, length)? {
        Some(more) => Ok(Some((16, more))),
        None => Ok(None),
    }
}
