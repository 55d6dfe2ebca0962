//! What a receiver has, file by file.
ghost use Rattle.std.specs.Prelude.{◌≡◌, ◌≤◌, length, drop, map, IfOk, IfErr, IfSome, OnOk, Ok, Err, None};
ghost use Rattle.wdt_codec.specs.Chunks.{chunks_at};
ghost use Rattle.wdt_codec.specs.Partial.{Stands};
ghost use Rattle.wdt_codec.specs.Reading.{Fails, Gives};
ghost use Rattle.wdt_ranges.specs.Files.{have_file};

use crate::fails::ReadFail;
use crate::files::read_file;
use crate::numbers::number;
use crate::stop::Stop;
use std::alloc::Global;
use wdt_ranges::{FileHave, Have};
use wdt_units::{MAX_FILES, MAX_SPANS};

/// The files of a Chunks that have come so far.
#[derive(Debug, Drop)]
pub struct Partial {
    pub files: Vec<FileHave>,
    /// How many spans they have together.
    pub used: u32,
    /// How many files are still to come.
    pub left: u32,
    /// How many bytes were read.
    pub taken: usize,
}

/// The files of a Chunks. Goes on where `before` ended, and leaves in `partial` what has come where
/// they aren't complete.
pub fn read_chunks<'a>(
    alloc: Global,
    before: Option<Partial>,
    partial: &mut Option<Partial>,
    bytes: &'a [u8],
) -> Result<(Have, &'a [u8]), ReadFail>
    requires stands { IfSome before (λ p. Stands p bytes.now) }
    requires none { partial.old ≡ None }
    ensures reads { Gives (λ x. (x.0, x.1.now)) result (chunks_at bytes.now) }
    ensures whole { OnOk result (partial.new ≡ None) }
    ensures stands { IfSome partial.new (λ p. Stands p bytes.now) }
{
    let mut part = match before {
        Some(part) => part,
        None => begin(alloc, bytes)?,
    };
    match go_on(alloc, &mut part, bytes) {
        Ok(()) => {
            let taken = part.taken;
            Ok((Have::of(part.files), &bytes[taken..]))
        }
        Err(fail) => {
            *partial = Some(part);
            Err(fail)
        }
    }
}

/// No file yet, but how many are to come.
pub fn begin(alloc: Global, bytes: &[u8]) -> Result<Partial, Stop>
    ensures stands { IfOk result (λ p. Stands p bytes.now) }
    ensures fails { IfErr result (λ e. chunks_at bytes.now ≡ Err e) }
{
    let (count, rest) = number(bytes, 4, 0, MAX_FILES as u64)?;
    Ok(Partial {
        files: Vec::new(alloc),
        used: 0,
        left: count as u32,
        taken: bytes.len() - rest.len(),
    })
}

/// Reads on where the last call ended.
pub fn go_on(alloc: Global, partial: &mut Partial, bytes: &[u8]) -> Result<(), ReadFail>
    requires { Stands partial.old bytes.now }
    ensures stands { Stands partial.new bytes.now }
    ensures whole { OnOk result (chunks_at bytes.now ≡ Ok (map have_file partial.new.files.items, drop partial.new.taken bytes.now)) }
    ensures fails { IfErr result (λ e. Fails e (chunks_at bytes.now)) }
{
    while partial.left > 0 {
        let (file, after) = read_file(alloc, &bytes[partial.taken..], MAX_SPANS - partial.used)?;
        let count = span_count(&file);
        partial.files.push(file)?;
        partial.used += count;
        partial.left -= 1;
        partial.taken = bytes.len() - after.len();
    }
    Ok(())
}

fn span_count(file: &FileHave) -> u32
    requires { length file.now.spans ≤ MAX_SPANS }
    ensures { result ≡ length file.now.spans }
{
    file.spans.count() as u32
}
