//! Places among the spans of a set, which are kept in chunks so that each insertion moves few of them.
ghost use Rattle.std.specs.Prelude.{◌≡◌, ◌+◌, ◌-◌, ◌<◌, ◌≤◌, ◌∷◌, ◌++◌, not, [], length, take, drop, map, slice_index_or, IfOk, OnOk, OnErr, IfNone, IfSome, IsTrue};
ghost use Rattle.wdt_units.specs.Have.{PlainSpan};
ghost use Rattle.wdt_ranges.specs.Chunks.{all_of, are_filled, chunk_at, halved, place_of, IsNext, IsSpot};
ghost use Rattle.wdt_ranges.specs.Places.{IsPlace};
ghost use Rattle.wdt_ranges.specs.Spans.{plain_span, are_apart};

use crate::chunk::Chunk;
use crate::ranges::Span;
use wdt_units::NoMemory;

/// How many spans a chunk has before it is halved for one more.
const FULL: usize = 512;

/// A place in a chunk: that of a span, or behind all.
#[derive(Clone, Copy)]
pub struct Spot {
    pub chunk: usize,
    pub at: usize,
}

/// The spot behind the spans that begin at the offset or earlier.
pub fn spot_of(chunks: &[Chunk], offset: u64) -> Spot
    requires apart { IsTrue (are_apart (all_of chunks.now)) }
    requires filled { IsTrue (are_filled chunks.now) }
    ensures place { IsPlace (all_of chunks.now) offset (place_of chunks.now result) }
    ensures spot { IsSpot chunks.now result }
{
    let behind = chunks.partition_point(|chunk| chunk.begin() <= offset);
    if behind == 0 {
        return Spot { chunk: 0, at: 0 };
    }
    Spot {
        chunk: behind - 1,
        at: place(chunks[behind - 1].spans(), offset),
    }
}

// The place behind the spans that begin at the offset or earlier.
fn place(spans: &[Span], offset: u64) -> usize
    requires { IsTrue (are_apart (map plain_span spans.now)) }
    ensures { IsPlace (map plain_span spans.now) offset result }
{
    // Most spans come in their order, so the end is tried first.
    match spans.last() {
        Some(last) if last.offset > offset => spans.partition_point(|span| span.offset <= offset),
        _ => spans.len(),
    }
}

/// The span before a spot.
pub fn before(chunks: &[Chunk], spot: Spot) -> Option<Span>
    requires { IsSpot chunks.now spot }
    ensures none { IfNone result (place_of chunks.now spot ≡ 0) }
    ensures some { IfSome result (λ s. 0 < spot.at) }
    ensures span { IfSome result (λ s. (d : PlainSpan) → slice_index_or (all_of chunks.now) (place_of chunks.now spot - 1) d ≡ plain_span s) }
{
    if spot.at == 0 {
        return None;
    }
    Some(chunks[spot.chunk].spans()[spot.at - 1])
}

/// The span at a spot, or the first of the next chunk.
pub fn behind(chunks: &[Chunk], spot: Spot) -> Option<Span>
    requires spot { IsSpot chunks.now spot }
    requires filled { IsTrue (are_filled chunks.now) }
    ensures none { IfNone result (length (all_of chunks.now) ≤ place_of chunks.now spot) }
    ensures some { IfSome result (λ s. place_of chunks.now spot < length (all_of chunks.now)) }
    ensures span { IfSome result (λ s. (d : PlainSpan) → slice_index_or (all_of chunks.now) (place_of chunks.now spot) d ≡ plain_span s) }
{
    let next = next_spot(chunks, spot);
    if next.chunk == chunks.len() {
        return None;
    }
    Some(chunks[next.chunk].spans()[next.at])
}

// A spot, or where it is at the end of its chunk the begin of the next.
fn next_spot(chunks: &[Chunk], spot: Spot) -> Spot
    requires spot { IsSpot chunks.now spot }
    requires filled { IsTrue (are_filled chunks.now) }
    ensures { IsNext chunks.now spot result }
{
    if spot.chunk < chunks.len() && spot.at == chunks[spot.chunk].len() {
        return Spot {
            chunk: spot.chunk + 1,
            at: 0,
        };
    }
    spot
}

/// A span, and how many of the spans next to a spot it takes in: at most one before it, and at most
/// one behind it.
#[derive(Clone, Copy)]
pub struct Joined {
    pub before: usize,
    pub behind: usize,
    pub span: Span,
}

/// Puts a span in the place of those that it takes in. Wants memory only where it takes in none.
pub fn put(chunks: &mut Vec<Chunk>, spot: Spot, joined: Joined) -> Result<(), NoMemory>
    requires spot { IsSpot chunks.old.items spot }
    requires filled { IsTrue (are_filled chunks.old.items) }
    requires before { joined.before ≤ 1 }
    requires there { joined.before ≤ spot.at }
    requires behind { joined.behind ≤ 1 }
    requires within { place_of chunks.old.items spot + joined.behind ≤ length (all_of chunks.old.items) }
    ensures filled { IsTrue (are_filled chunks.new.items) }
    ensures items { OnOk result (all_of chunks.new.items ≡ take (place_of chunks.old.items spot - joined.before) (all_of chunks.old.items)
        ++ plain_span joined.span ∷ drop (place_of chunks.old.items spot + joined.behind) (all_of chunks.old.items)) }
    ensures unchanged { OnErr result (all_of chunks.new.items ≡ all_of chunks.old.items) }
    ensures alone { OnErr result ((joined.before ≡ 0) × (joined.behind ≡ 0)) }
{
    match (joined.before, joined.behind) {
        (0, 0) => insert(chunks, spot, joined.span),
        (0, _) => {
            set_behind(chunks, spot, joined.span);
            Ok(())
        }
        (_, 0) => {
            set_before(chunks, spot, joined.span);
            Ok(())
        }
        (_, _) => {
            remove_behind(chunks, spot);
            set_before(chunks, spot, joined.span);
            Ok(())
        }
    }
}

// Puts a span in the place of the one behind a spot.
fn set_behind(chunks: &mut Vec<Chunk>, spot: Spot, span: Span)
    requires spot { IsSpot chunks.old.items spot }
    requires filled { IsTrue (are_filled chunks.old.items) }
    requires there { place_of chunks.old.items spot < length (all_of chunks.old.items) }
    ensures filled { IsTrue (are_filled chunks.new.items) }
    ensures items { all_of chunks.new.items ≡ take (place_of chunks.old.items spot) (all_of chunks.old.items)
        ++ plain_span span ∷ drop (place_of chunks.old.items spot + 1) (all_of chunks.old.items) }
{
    let next = next_spot(chunks, spot);
    chunks[next.chunk].set(next.at, span);
}

// Puts a span in the place of the one before a spot.
fn set_before(chunks: &mut Vec<Chunk>, spot: Spot, span: Span)
    requires filled { IsTrue (are_filled chunks.old.items) }
    requires chunk { spot.chunk < length chunks.old.items }
    requires some { 0 < spot.at }
    requires at { spot.at ≤ length (chunk_at chunks.old.items spot.chunk) }
    ensures filled { IsTrue (are_filled chunks.new.items) }
    ensures items { all_of chunks.new.items ≡ take (place_of chunks.old.items spot - 1) (all_of chunks.old.items)
        ++ plain_span span ∷ drop (place_of chunks.old.items spot) (all_of chunks.old.items) }
{
    chunks[spot.chunk].set(spot.at - 1, span);
}

// Removes the span behind a spot that is behind a span of its chunk.
fn remove_behind(chunks: &mut Vec<Chunk>, spot: Spot)
    requires spot { IsSpot chunks.old.items spot }
    requires filled { IsTrue (are_filled chunks.old.items) }
    requires some { 0 < spot.at }
    requires there { place_of chunks.old.items spot < length (all_of chunks.old.items) }
    ensures filled { IsTrue (are_filled chunks.new.items) }
    ensures items { all_of chunks.new.items ≡ take (place_of chunks.old.items spot) (all_of chunks.old.items) ++ drop (place_of chunks.old.items spot + 1) (all_of chunks.old.items) }
    ensures chunk { spot.chunk < length chunks.new.items }
    ensures at { spot.at ≤ length (chunk_at chunks.new.items spot.chunk) }
    ensures place { place_of chunks.new.items spot ≡ place_of chunks.old.items spot }
{
    let next = next_spot(chunks, spot);
    if chunks[next.chunk].len() == 1 {
        chunks.remove(next.chunk);
    } else {
        chunks[next.chunk].remove(next.at);
    }
}

// Inserts a span at a spot.
fn insert(chunks: &mut Vec<Chunk>, spot: Spot, span: Span) -> Result<(), NoMemory>
    requires spot { IsSpot chunks.old.items spot }
    requires filled { IsTrue (are_filled chunks.old.items) }
    ensures filled { IsTrue (are_filled chunks.new.items) }
    ensures items { OnOk result (all_of chunks.new.items ≡ take (place_of chunks.old.items spot) (all_of chunks.old.items)
        ++ plain_span span ∷ drop (place_of chunks.old.items spot) (all_of chunks.old.items)) }
    ensures unchanged { OnErr result (all_of chunks.new.items ≡ all_of chunks.old.items) }
{
    if is_end(chunks, spot) {
        return push(chunks, span);
    }
    if chunks[spot.chunk].len() < FULL {
        return insert_in(chunks, spot, span);
    }
    let spot = halve(chunks, spot)?;
    insert_in(chunks, spot, span)
}

// Inserts a span at a spot of a chunk.
fn insert_in(chunks: &mut Vec<Chunk>, spot: Spot, span: Span) -> Result<(), NoMemory>
    requires filled { IsTrue (are_filled chunks.old.items) }
    requires chunk { spot.chunk < length chunks.old.items }
    requires at { spot.at ≤ length (chunk_at chunks.old.items spot.chunk) }
    ensures filled { IsTrue (are_filled chunks.new.items) }
    ensures items { OnOk result (all_of chunks.new.items ≡ take (place_of chunks.old.items spot) (all_of chunks.old.items)
        ++ plain_span span ∷ drop (place_of chunks.old.items spot) (all_of chunks.old.items)) }
    ensures unchanged { OnErr result (all_of chunks.new.items ≡ all_of chunks.old.items) }
{
    chunks[spot.chunk].insert(spot.at, span)
}

// Whether a spot is behind all spans, and no chunk is there that has room.
fn is_end(chunks: &[Chunk], spot: Spot) -> bool
    requires { IsSpot chunks.now spot }
    ensures end { IsTrue result → place_of chunks.now spot ≡ length (all_of chunks.now) }
    ensures chunk { IsTrue (not result) → spot.chunk < length chunks.now }
{
    if spot.chunk == chunks.len() {
        return true;
    }
    let length = chunks[spot.chunk].len();
    spot.chunk + 1 == chunks.len() && spot.at == length && length >= FULL
}

// Puts a span behind all others, in a chunk of its own.
fn push(chunks: &mut Vec<Chunk>, span: Span) -> Result<(), NoMemory>
    requires { IsTrue (are_filled chunks.old.items) }
    ensures filled { IsTrue (are_filled chunks.new.items) }
    ensures items { OnOk result (all_of chunks.new.items ≡ all_of chunks.old.items ++ plain_span span ∷ []) }
    ensures unchanged { OnErr result (all_of chunks.new.items ≡ all_of chunks.old.items) }
{
    let chunk = Chunk::one(*chunks.allocator(), span)?;
    match chunks.push(chunk) {
        Ok(()) => Ok(()),
        Err(_) => Err(NoMemory),
    }
}

// Makes two chunks of that of a spot, and answers where the spot is afterwards.
fn halve(chunks: &mut Vec<Chunk>, spot: Spot) -> Result<Spot, NoMemory>
    requires filled { IsTrue (are_filled chunks.old.items) }
    requires chunk { spot.chunk < length chunks.old.items }
    requires at { spot.at ≤ length (chunk_at chunks.old.items spot.chunk) }
    requires many { 2 ≤ length (chunk_at chunks.old.items spot.chunk) }
    ensures all { all_of chunks.new.items ≡ all_of chunks.old.items }
    ensures filled { IsTrue (are_filled chunks.new.items) }
    ensures place { IfOk result (λ now. place_of chunks.new.items now ≡ place_of chunks.old.items spot) }
    ensures chunk { IfOk result (λ now. now.chunk < length chunks.new.items) }
    ensures at { IfOk result (λ now. now.at ≤ length (chunk_at chunks.new.items now.chunk)) }
{
    let half = chunks[spot.chunk].len() / 2;
    cut(chunks, spot.chunk, half)?;
    if spot.at <= half {
        return Ok(spot);
    }
    Ok(Spot {
        chunk: spot.chunk + 1,
        at: spot.at - half,
    })
}

// Makes two chunks of one, of which the first has so many spans.
fn cut(chunks: &mut Vec<Chunk>, at: usize, half: usize) -> Result<(), NoMemory>
    requires chunk { at < length chunks.old.items }
    requires half { half ≤ length (chunk_at chunks.old.items at) }
    ensures halved { OnOk result (chunks.new.items ≡ halved chunks.old.items at half) }
    ensures unchanged { OnErr result (chunks.new.items ≡ chunks.old.items) }
{
    let upper = chunks[at].from(half)?;
    if chunks.insert(at + 1, upper).is_err() {
        return Err(NoMemory);
    }
    chunks[at].truncate(half);
    Ok(())
}
