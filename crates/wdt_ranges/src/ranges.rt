//! Sets of positions.
ghost use Rattle.std.specs.Prelude.{◌≡◌, ◌↔◌, ℕ, ◌+◌, ◌-◌, ◌^◌, ◌≤◌, ◌&&◌, ◌||◌, not, nat_lt, [], ◌++◌, length, map, IfOk, OnOk, IfErr, OnErr, IfSome, IfNone, IsTrue};
ghost use Rattle.wdt_units.specs.Have.{is_in};
ghost use Rattle.wdt_ranges.specs.Adding.{HasNoneOf, IsFirstShared, IsRefused};
ghost use Rattle.wdt_ranges.specs.Chunks.{all_of, are_filled};
ghost use Rattle.wdt_ranges.specs.Spans.{plain_span, is_span, are_apart, has, total_of, span_between, gaps_of};

use crate::chunk::Chunk;
use crate::chunks::spot_of;
use crate::iter::Spans;
use crate::joining;
use std::alloc::Global;
use std::marker::Model;
use thiserror::Error;
use wdt_units::NoMemory;

/// The positions from an offset on, 1 or more of them, which end at 2^40 at most.
#[derive(Clone, Copy, Debug, PartialEq, Eq)]
pub struct Span {
    pub offset: u64,
    pub length: u64,
}

/// Why a span wasn't added.
#[derive(Clone, Copy, Debug, PartialEq, Eq, Error)]
pub enum AddFail {
    /// Positions of the span are in the set; this is the least of them.
    #[error("position {first} is there already")]
    Overlap { first: u64 },
    #[error("out of memory")]
    NoMemory,
}

/// A set of positions of a file, seen as its spans: they rise and neither overlap nor touch.
#[derive(Debug, Drop)]
pub struct Ranges {
    // The spans in their order, in chunks that aren't empty.
    chunks: Vec<Chunk>,
    // How many spans there are.
    count: usize,
    // How many positions the set has.
    total: u64,
}

impl Model for Ranges {
    ghost use Rattle.std.specs.Prelude.{◌≡◌, List, length, IsTrue};
    ghost use Rattle.wdt_units.specs.Have.{PlainSpan};
    ghost use Rattle.wdt_ranges.specs.Chunks.{all_of, are_filled};
    ghost use Rattle.wdt_ranges.specs.Spans.{are_apart, total_of};

    ghost Value = { List PlainSpan };

    ghost view = { λ r. all_of r.chunks.items };

    ghost invariant = { λ r. IsTrue (are_apart (all_of r.chunks.items)) × IsTrue (are_filled r.chunks.items)
        × (r.count ≡ length (all_of r.chunks.items)) × (r.total ≡ total_of (all_of r.chunks.items)) };
}

impl Ranges {
    /// The set without a position.
    pub fn none(alloc: Global) -> Ranges
        ensures { result ≡ [] }
    {
        Ranges {
            chunks: Vec::new(alloc),
            count: 0,
            total: 0,
        }
    }

    /// The set of these spans, which rise and neither overlap nor touch.
    pub fn of_spans(spans: Vec<Span>) -> Result<Ranges, NoMemory>
        requires { IsTrue (are_apart (map plain_span spans.items)) }
        ensures { IfOk result (λ ranges. ranges ≡ map plain_span spans.items) }
    {
        let count = spans.len();
        let total = length_of(&spans);
        let mut chunks = Vec::new(*spans.allocator());
        if count > 0 && chunks.push(Chunk::of(spans)).is_err() {
            return Err(NoMemory);
        }
        Ok(Ranges {
            chunks,
            count,
            total,
        })
    }

    /// Adds the positions of a span. An error leaves the set as it was: `Overlap` where a position of
    /// the span is in the set, and `NoMemory` only where the span touches no other.
    pub fn add(&mut self, span: Span) -> Result<(), AddFail>
        requires { IsTrue (is_span (plain_span span)) }
        ensures positions { OnOk result ((x : ℕ) → has self.new x ≡ (has self.old x || is_in x (plain_span span))) }
        ensures total { OnOk result (total_of self.new ≡ total_of self.old + span.length) }
        ensures none_shared { OnOk result (HasNoneOf self.old (plain_span span)) }
        ensures refused { IfErr result (λ e. IsRefused self.old (plain_span span) e) }
        ensures unchanged { OnErr result (self.new ≡ self.old) }
    {
        let spot = spot_of(&self.chunks, span.offset);
        if let Some(first) = joining::first_shared(&self.chunks, spot, span) {
            return Err(AddFail::Overlap { first });
        }
        match joining::join(&mut self.chunks, spot, span) {
            Ok(taken) => {
                self.count = self.count + 1 - taken;
                self.total += span.length;
                Ok(())
            }
            Err(_) => Err(AddFail::NoMemory),
        }
    }

    /// The least position of the span that is in the set.
    pub fn first_shared(&self, span: Span) -> Option<u64>
        requires { IsTrue (is_span (plain_span span)) }
        ensures first { IfSome result (λ first. IsFirstShared self.now (plain_span span) first) }
        ensures none { IfNone result (HasNoneOf self.now (plain_span span)) }
    {
        let spot = spot_of(&self.chunks, span.offset);
        joining::first_shared(&self.chunks, spot, span)
    }

    /// Whether every position of the span is in the set.
    pub fn covers(&self, span: Span) -> bool
        requires { IsTrue (is_span (plain_span span)) }
        ensures { IsTrue result ↔ ((x : ℕ) → IsTrue (is_in x (plain_span span)) → IsTrue (has self.now x)) }
    {
        joining::is_covered(&self.chunks, span)
    }

    /// How many positions the set has, at most 2^40.
    pub fn total(&self) -> u64
        ensures total { result ≡ total_of self.now }
        ensures limit { result ≤ 2 ^ 40 }
    {
        self.total
    }

    /// How many spans the set has, at most 2^40.
    pub fn count(&self) -> usize
        ensures count { result ≡ length self.now }
        ensures limit { result ≤ 2 ^ 40 }
        ensures apart { IsTrue (are_apart self.now) }
    {
        self.count
    }

    /// The spans of the set in their order. They neither overlap nor touch.
    pub fn spans(&self) -> Spans<'_>
        ensures { result ≡ self.now }
    {
        Spans::of(&self.chunks)
    }

    /// The positions below `size` that the set lacks, as spans that rise and neither overlap nor
    /// touch.
    pub fn gaps(&self, size: u64) -> Result<Vec<Span>, NoMemory>
        requires { size ≤ 2 ^ 40 }
        ensures gaps { IfOk result (λ gaps. map plain_span gaps.items ≡ gaps_of self.now size) }
        ensures apart { IfOk result (λ gaps. IsTrue (are_apart (map plain_span gaps.items))) }
        ensures lacks { IfOk result (λ gaps. (x : ℕ) → has (map plain_span gaps.items) x ≡ (nat_lt x size && not (has self.now x))) }
    {
        let mut gaps = Vec::new(*self.chunks.allocator());
        let mut least = 0;
        for span in self.spans() {
            push_between(&mut gaps, least, span.offset.min(size))?;
            least = span.offset + span.length;
        }
        push_between(&mut gaps, least, size)?;
        Ok(gaps)
    }

    /// The same set in memory of its own.
    pub fn copy(&self) -> Result<Ranges, NoMemory>
        ensures { IfOk result (λ copy. copy ≡ self.now) }
    {
        Ok(Ranges {
            chunks: copies(&self.chunks)?,
            count: self.count,
            total: self.total,
        })
    }
}

fn copies(chunks: &Vec<Chunk>) -> Result<Vec<Chunk>, NoMemory>
    ensures { IfOk result (λ copies. copies.items ≡ chunks.now.items) }
{
    let mut copies = Vec::new(*chunks.allocator());
    for chunk in chunks {
        let copy = chunk.copy()?;
        if copies.push(copy).is_err() {
            return Err(NoMemory);
        }
    }
    Ok(copies)
}

// How many positions the spans of a set have together.
fn length_of(spans: &[Span]) -> u64
    requires { IsTrue (are_apart (map plain_span spans.now)) }
    ensures { result ≡ total_of (map plain_span spans.now) }
{
    let mut total = 0;
    for span in spans {
        total += span.length;
    }
    total
}

// Appends the span from a place up to another, if it has a position.
fn push_between(spans: &mut Vec<Span>, least: u64, end: u64) -> Result<(), NoMemory>
    ensures { IfOk result (λ _. map plain_span spans.new.items ≡ map plain_span spans.old.items ++ span_between least end) }
{
    if least < end {
        let span = Span {
            offset: least,
            length: end - least,
        };
        if spans.push(span).is_err() {
            return Err(NoMemory);
        }
    }
    Ok(())
}
