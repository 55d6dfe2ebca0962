//! Which positions of a span are in a set, and how it is joined with the spans that it touches.
ghost use Rattle.std.specs.Prelude.{◌≡◌, ◌↔◌, ℕ, ◌+◌, ◌-◌, ◌<◌, ◌≤◌, length, take, drop, slice_index_or, IfOk, OnOk, OnErr, IfSome, IfNone, IsTrue};
ghost use Rattle.wdt_units.specs.Have.{is_in, PlainSpan};
ghost use Rattle.wdt_ranges.specs.Adding.{IsAdded, IsFarFrom, IsFirstShared};
ghost use Rattle.wdt_ranges.specs.Chunks.{all_of, are_filled, place_of, IsSpot};
ghost use Rattle.wdt_ranges.specs.Places.{begins_from, least_behind, HasRoom, IsJoined, IsPlace};
ghost use Rattle.wdt_ranges.specs.Spans.{plain_span, end_of, is_span, are_apart, has};

use crate::chunk::Chunk;
use crate::chunks::{Joined, Spot, before, behind, put, spot_of};
use crate::ranges::Span;
use wdt_units::NoMemory;

/// Whether every position of the span is in the set.
pub fn is_covered(chunks: &[Chunk], span: Span) -> bool
    requires apart { IsTrue (are_apart (all_of chunks.now)) }
    requires filled { IsTrue (are_filled chunks.now) }
    requires span { IsTrue (is_span (plain_span span)) }
    ensures { IsTrue result ↔ ((x : ℕ) → IsTrue (is_in x (plain_span span)) → IsTrue (has (all_of chunks.now) x)) }
{
    let spot = spot_of(chunks, span.offset);
    span.offset + span.length <= end_before(chunks, spot)
}

/// The least position of the span that is in the set. The spot is that of the span's offset.
pub fn first_shared(chunks: &[Chunk], spot: Spot, span: Span) -> Option<u64>
    requires apart { IsTrue (are_apart (all_of chunks.now)) }
    requires filled { IsTrue (are_filled chunks.now) }
    requires span { IsTrue (is_span (plain_span span)) }
    requires spot { IsSpot chunks.now spot }
    requires place { IsPlace (all_of chunks.now) span.offset (place_of chunks.now spot) }
    ensures first { IfSome result (λ first. IsFirstShared (all_of chunks.now) (plain_span span) first) }
    ensures none { IfNone result (HasRoom (all_of chunks.now) (place_of chunks.now spot) (plain_span span)) }
{
    if span.offset < end_before(chunks, spot) {
        return Some(span.offset);
    }
    match behind(chunks, spot) {
        Some(behind) if behind.offset < span.offset + span.length => Some(behind.offset),
        _ => None,
    }
}

// Where the span before a spot ends, or 0 where none is before it.
fn end_before(chunks: &[Chunk], spot: Spot) -> u64
    requires apart { IsTrue (are_apart (all_of chunks.now)) }
    requires spot { IsSpot chunks.now spot }
    requires place { place_of chunks.now spot ≤ length (all_of chunks.now) }
    ensures none { place_of chunks.now spot ≡ 0 → result ≡ 0 }
    ensures end { (d : PlainSpan) → 0 < place_of chunks.now spot → result ≡ end_of (slice_index_or (all_of chunks.now) (place_of chunks.now spot - 1) d) }
{
    match before(chunks, spot) {
        Some(before) => before.offset + before.length,
        None => 0,
    }
}

/// Adds a span to a set that leaves room for it at a spot, and joins it with those that it touches.
/// Answers how many these are.
pub fn join(chunks: &mut Vec<Chunk>, spot: Spot, span: Span) -> Result<usize, NoMemory>
    requires apart { IsTrue (are_apart (all_of chunks.old.items)) }
    requires filled { IsTrue (are_filled chunks.old.items) }
    requires span { IsTrue (is_span (plain_span span)) }
    requires spot { IsSpot chunks.old.items spot }
    requires place { place_of chunks.old.items spot ≤ length (all_of chunks.old.items) }
    requires room { HasRoom (all_of chunks.old.items) (place_of chunks.old.items spot) (plain_span span) }
    ensures added { OnOk result (IsAdded (all_of chunks.old.items) (plain_span span) (all_of chunks.new.items)) }
    ensures filled { IsTrue (are_filled chunks.new.items) }
    ensures taken { IfOk result (λ taken. length (all_of chunks.new.items) + taken ≡ length (all_of chunks.old.items) + 1) }
    ensures far { OnErr result (IsFarFrom (all_of chunks.old.items) (plain_span span)) }
    ensures unchanged { OnErr result (all_of chunks.new.items ≡ all_of chunks.old.items) }
{
    let (before, joined) = joined_before(chunks, spot, span);
    let (behind, joined) = joined_behind(chunks, spot, joined);
    let whole = Joined {
        before,
        behind,
        span: joined,
    };
    put(chunks, spot, whole)?;
    Ok(before + behind)
}

// A span with the one before a spot, where they touch, and how many it takes in.
fn joined_before(chunks: &[Chunk], spot: Spot, span: Span) -> (usize, Span)
    requires apart { IsTrue (are_apart (all_of chunks.now)) }
    requires span { IsTrue (is_span (plain_span span)) }
    requires spot { IsSpot chunks.now spot }
    requires place { place_of chunks.now spot ≤ length (all_of chunks.now) }
    requires room { least_behind 0 (take (place_of chunks.now spot) (all_of chunks.now)) ≤ span.offset + 1 }
    ensures few { result.0 ≤ 1 }
    ensures there { result.0 ≤ spot.at }
    ensures end { end_of (plain_span result.1) ≡ end_of (plain_span span) }
    ensures before { least_behind 0 (take (place_of chunks.now spot - result.0) (all_of chunks.now)) ≤ result.1.offset }
    ensures joined { IsJoined (all_of chunks.now) (place_of chunks.now spot - result.0) (place_of chunks.now spot) (plain_span span) (plain_span result.1) }
{
    let Some(before) = before(chunks, spot) else {
        return (0, span);
    };
    if before.offset + before.length < span.offset {
        return (0, span);
    }
    let joined = Span {
        offset: before.offset,
        length: before.length + span.length,
    };
    (1, joined)
}

// A span with the one behind a spot, where they touch, and how many it takes in.
fn joined_behind(chunks: &[Chunk], spot: Spot, span: Span) -> (usize, Span)
    requires apart { IsTrue (are_apart (all_of chunks.now)) }
    requires filled { IsTrue (are_filled chunks.now) }
    requires span { IsTrue (is_span (plain_span span)) }
    requires spot { IsSpot chunks.now spot }
    requires place { place_of chunks.now spot ≤ length (all_of chunks.now) }
    requires room { IsTrue (begins_from (end_of (plain_span span)) (drop (place_of chunks.now spot) (all_of chunks.now))) }
    ensures few { result.0 ≤ 1 }
    ensures within { place_of chunks.now spot + result.0 ≤ length (all_of chunks.now) }
    ensures offset { result.1.offset ≡ span.offset }
    ensures behind { IsTrue (begins_from (end_of (plain_span result.1) + 1) (drop (place_of chunks.now spot + result.0) (all_of chunks.now))) }
    ensures joined { IsJoined (all_of chunks.now) (place_of chunks.now spot) (place_of chunks.now spot + result.0) (plain_span span) (plain_span result.1) }
{
    let Some(behind) = behind(chunks, spot) else {
        return (0, span);
    };
    if span.offset + span.length < behind.offset {
        return (0, span);
    }
    let joined = Span {
        offset: span.offset,
        length: span.length + behind.length,
    };
    (1, joined)
}
