//! Reading a log.
ghost use Rattle.std.specs.Prelude.{◌≡◌, ◌≤◌, ◌<◌, Ok, drop, length, IfOk, IfErr, IsTrue};
ghost use Rattle.wdt_logfmt.specs.View.{is_view, meaning_of, named_files};
ghost use Rattle.wdt_logfmt.specs.Meaning.{log_meaning, number, sized_batch, IsRefused};
ghost use Rattle.wdt_logfmt.specs.Parts.{gate_at};

use crate::entries::read_entries;
use crate::fails::ReadLogFail;
use crate::files::Files;
use crate::view::LogView;
use byteorder::{BigEndian, ByteOrder};
use std::alloc::Global;

/// What stands before the first gate byte.
const HEADER: [u8; 6] = [0x57, 0x44, 0x54, 0x4C, 0, 1];

/// What the log of these bytes says. `BadLog` names the earliest part that has no reading, and comes
/// exactly where there is one.
pub fn read_log(alloc: Global, bytes: &[u8]) -> Result<LogView, ReadLogFail>
    ensures meaning { IfOk result (λ view. log_meaning bytes.now ≡ Ok (meaning_of view)) }
    ensures view { IfOk result (λ view. IsTrue (is_view (named_files view.files.items))) }
    ensures refused { IfErr result (λ e. IsRefused (log_meaning bytes.now) e) }
{
    if bytes.len() <= 6 {
        return Err(ReadLogFail::BadLog { at: 0 });
    }
    if &bytes[..6] != HEADER.as_slice() {
        return Err(ReadLogFail::BadLog { at: 0 });
    }
    let mut files = Files::none(alloc);
    let mut gate = 6;
    while bytes[gate] == 1 {
        let (next, more) = read_batch(bytes, gate + 1, files)?;
        gate = next;
        files = more;
    }
    let files = files.into_list(alloc)?;
    Ok(LogView {
        files,
        end: gate as u64,
    })
}

// Reads the batch whose length stands at a place, and answers where the gate byte behind it stands.
fn read_batch<'a>(
    bytes: &'a [u8],
    at: usize,
    files: Files<'a>,
) -> Result<(usize, Files<'a>), ReadLogFail>
    requires { at ≤ length bytes.now }
    ensures batch { IfOk result (λ r. sized_batch 1 at files.entry (number 4 (drop at bytes.now)) ≡ Ok (gate_at bytes.now r.0 r.1)) }
    ensures place { IfOk result (λ r. (at ≤ r.0) × (r.0 < length bytes.now)) }
    ensures refused { IfErr result (λ e. IsRefused (sized_batch 1 at files.entry (number 4 (drop at bytes.now))) e) }
{
    let rest = &bytes[at..];
    if rest.len() < 4 {
        return Err(ReadLogFail::BadLog { at: at as u64 });
    }
    let length = BigEndian::read_u32(rest) as usize;
    let body = &rest[4..];
    if body.len() <= length {
        return Err(ReadLogFail::BadLog { at: at as u64 });
    }
    let files = read_entries(&body[..length], at + 4, files)?;
    Ok((at + 4 + length, files))
}
