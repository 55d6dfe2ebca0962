//! The covered positions of a file.
ghost use Rattle.std.specs.Prelude.{◌≡◌, ◌≤◌, ◌<◌, ◌+◌, ◌*◌, ◌^◌, length, map, IfOk, IsTrue};
ghost use Rattle.wdt_codec.specs.Chunks.{span_at, spans_at};
ghost use Rattle.wdt_codec.specs.Reading.{Answers, Gives};
ghost use Rattle.wdt_ranges.specs.Spans.{plain_span, are_apart};

use crate::fails::ReadFail;
use crate::numbers::number;
use crate::stop::Stop;
use std::alloc::Global;
use wdt_ranges::{Ranges, Span};
use wdt_units::MAX_FILE_SIZE;

/// The spans of a file of `size` bytes, so many.
pub fn read_spans(
    alloc: Global,
    bytes: &[u8],
    size: u64,
    count: u64,
) -> Result<(Ranges, &[u8]), ReadFail>
    requires small { size ≤ MAX_FILE_SIZE }
    requires room { 2 * count ≤ size + 1 }
    ensures reads { Gives (λ x. (x.0, x.1.now)) result (spans_at size count 0 bytes.now) }
    ensures whole { IfOk result (λ x. length x.0 ≡ count) }
{
    let (spans, rest) = span_list(alloc, bytes, size, count)?;
    Ok((Ranges::of_spans(spans)?, rest))
}

fn span_list(
    alloc: Global,
    bytes: &[u8],
    size: u64,
    count: u64,
) -> Result<(Vec<Span>, &[u8]), ReadFail>
    requires small { size ≤ MAX_FILE_SIZE }
    requires room { 2 * count ≤ size + 1 }
    ensures reads { Gives (λ x. (map plain_span x.0.items, x.1.now)) result (spans_at size count 0 bytes.now) }
    ensures apart { IfOk result (λ x. IsTrue (are_apart (map plain_span x.0.items))) }
    ensures whole { IfOk result (λ x. length (map plain_span x.0.items) ≡ count) }
{
    let mut spans = Vec::new(alloc);
    let mut rest = bytes;
    let mut least = 0;
    for k in 0..count {
        let (span, after) = read_span(rest, size, count - 1 - k, least)?;
        least = span.offset + span.length + 1;
        spans.push(span)?;
        rest = after;
    }
    Ok((spans, rest))
}

// A span that begins at `least` or later and leaves room for `more` spans behind it: each takes a
// position, and one between.
#[tactic(auto, unfolding(crate::specs::Chunks::span_at))]
fn read_span(bytes: &[u8], size: u64, more: u64, least: u64) -> Result<(Span, &[u8]), Stop>
    requires small { size ≤ MAX_FILE_SIZE }
    requires room { least + 2 * more + 2 ≤ size + 1 }
    ensures reads { Answers (λ x. (plain_span x.0, x.1.now)) result (span_at size more least bytes.now) }
    ensures within { IfOk result (λ x. x.0.offset + x.0.length + 2 * more ≤ size) }
{
    let (offset, rest) = number(bytes, 8, least, size - 1 - 2 * more)?;
    let (length, rest) = number(rest, 8, 1, size - offset - 2 * more)?;
    Ok((Span { offset, length }, rest))
}
