//! The spelling of what a receiver has.
ghost use Rattle.std.specs.Prelude.{◌≡◌, ◌∷◌, ◌++◌, ◌≤◌, ◌<◌, length, take, map, OnOk, OnErr};
ghost use Rattle.byteorder.specs.Endian.{big_bytes};
ghost use Rattle.wdt_codec.specs.Chunks.{FitsFile, FitFiles, FitsChunks, spell_span, spell_spans, spell_file, spell_files, spell_chunks};
ghost use Rattle.wdt_ranges.specs.Files.{have_file};
ghost use Rattle.wdt_ranges.specs.Spans.{plain_span};

use crate::append::{append, append_all};
use byteorder::{BigEndian, ByteOrder};
use wdt_ranges::{FileHave, Have, Span, Spans};
use wdt_units::{MAX_PATH, MAX_SPANS, NoMemory};

/// Appends a Chunks. A failure on the way takes back what is there of it.
pub fn append_chunks(into: &mut Vec<u8>, have: &Have) -> Result<(), NoMemory>
    requires { FitsChunks have.now }
    ensures spelled { OnOk result (into.new.items ≡ into.old.items ++ 0x43 ∷ spell_chunks have.now) }
    ensures unchanged { OnErr result (into.new.items ≡ into.old.items) }
{
    let before = into.len();
    match append_files(into, have.files()) {
        Ok(()) => Ok(()),
        Err(fail) => {
            into.truncate(before);
            Err(fail)
        }
    }
}

fn append_files(into: &mut Vec<u8>, files: &[FileHave]) -> Result<(), NoMemory>
    requires { FitsChunks (map have_file files.now) }
    ensures spelled { OnOk result (into.new.items ≡ into.old.items ++ 0x43 ∷ spell_chunks (map have_file files.now)) }
    ensures begun { OnErr result (take (length into.old.items) into.new.items ≡ into.old.items) }
{
    append(into, &count_text(files.len() as u32))?;
    for file in files {
        append_file(into, file)?;
    }
    Ok(())
}

fn count_text(count: u32) -> [u8; 5]
    ensures { result ≡ 0x43 ∷ big_bytes 4 count }
{
    let mut text = [0x43; 5];
    BigEndian::write_u32(&mut text[1..], count);
    text
}

fn append_file(into: &mut Vec<u8>, file: &FileHave) -> Result<(), NoMemory>
    requires path { length file.now.path ≤ MAX_PATH }
    requires spans { length file.now.spans ≤ MAX_SPANS }
    ensures spelled { OnOk result (into.new.items ≡ into.old.items ++ spell_file (have_file file.now)) }
    ensures begun { OnErr result (take (length into.old.items) into.new.items ≡ into.old.items) }
{
    let path = file.path.bytes();
    append_all(
        into,
        &length_text(path.len() as u16),
        path,
        &file_text(file.size, file.stamp, file.spans.count() as u32),
    )?;
    append_spans(into, file.spans.spans())
}

fn length_text(length: u16) -> [u8; 2]
    ensures { result ≡ big_bytes 2 length }
{
    let mut text = [0; 2];
    BigEndian::write_u16(&mut text, length);
    text
}

fn file_text(size: u64, stamp: u64, count: u32) -> [u8; 20]
    ensures { result ≡ big_bytes 8 size ++ (big_bytes 8 stamp ++ big_bytes 4 count) }
{
    let mut text = [0; 20];
    BigEndian::write_u64(&mut text, size);
    BigEndian::write_u64(&mut text[8..], stamp);
    BigEndian::write_u32(&mut text[16..], count);
    text
}

fn append_spans(into: &mut Vec<u8>, spans: Spans<'_>) -> Result<(), NoMemory>
    ensures spelled { OnOk result (into.new.items ≡ into.old.items ++ spell_spans spans.entry) }
    ensures begun { OnErr result (take (length into.old.items) into.new.items ≡ into.old.items) }
{
    for span in spans {
        append(into, &span_text(&span))?;
    }
    Ok(())
}

fn span_text(span: &Span) -> [u8; 16]
    ensures { result ≡ spell_span (plain_span span.now) }
{
    let mut text = [0; 16];
    BigEndian::write_u64(&mut text, span.offset);
    BigEndian::write_u64(&mut text[8..], span.length);
    text
}
