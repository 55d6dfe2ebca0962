//! A stretch of the spans of a set.
ghost use Rattle.std.specs.Prelude.{◌≡◌, ◌+◌, ◌<◌, ◌≤◌, ◌∷◌, ◌++◌, [], length, take, drop, map, slice_index_or, vec_len, IfOk, OnOk, OnErr};
ghost use Rattle.wdt_ranges.specs.Chunks.{begin_of};
ghost use Rattle.wdt_ranges.specs.Spans.{plain_span};

use crate::ranges::Span;
use std::alloc::Global;
use std::marker::Model;
use wdt_units::NoMemory;

/// Spans of a set that stand one behind the other.
#[derive(Debug, Drop)]
pub struct Chunk {
    spans: Vec<Span>,
}

impl Model for Chunk {
    ghost use Rattle.std.specs.Prelude.{List, map};
    ghost use Rattle.wdt_units.specs.Have.{PlainSpan};
    ghost use Rattle.wdt_ranges.specs.Spans.{plain_span};

    ghost Value = { List PlainSpan };

    ghost view = { λ c. map plain_span c.spans.items };
}

impl Chunk {
    pub fn of(spans: Vec<Span>) -> Chunk
        ensures { result ≡ map plain_span spans.items }
    {
        Chunk { spans }
    }

    /// The chunk of one span.
    pub fn one(alloc: Global, span: Span) -> Result<Chunk, NoMemory>
        ensures { IfOk result (λ chunk. chunk ≡ plain_span span ∷ []) }
    {
        let mut spans = Vec::new(alloc);
        match spans.push(span) {
            Ok(()) => Ok(Chunk { spans }),
            Err(_) => Err(NoMemory),
        }
    }

    pub fn spans(&self) -> &[Span]
        ensures { map plain_span result.now ≡ self.now }
    {
        &self.spans
    }

    pub fn len(&self) -> usize
        ensures { result ≡ length self.now }
    {
        self.spans.len()
    }

    /// Where the first span begins, or 0 where there is none.
    pub fn begin(&self) -> u64
        ensures { result ≡ begin_of self.now }
    {
        match self.spans.first() {
            Some(first) => first.offset,
            None => 0,
        }
    }

    /// Puts a span before the one at a place, or behind all.
    pub fn insert(&mut self, at: usize, span: Span) -> Result<(), NoMemory>
        requires { at ≤ length self.old }
        ensures inserted { OnOk result (self.new ≡ take at self.old ++ plain_span span ∷ drop at self.old) }
        ensures unchanged { OnErr result (self.new ≡ self.old) }
    {
        match self.spans.insert(at, span) {
            Ok(()) => Ok(()),
            Err(_) => Err(NoMemory),
        }
    }

    /// Puts a span in the place of the one at a place.
    pub fn set(&mut self, at: usize, span: Span)
        requires { at < length self.old }
        ensures { self.new ≡ take at self.old ++ plain_span span ∷ drop (at + 1) self.old }
    {
        self.spans[at] = span;
    }

    pub fn remove(&mut self, at: usize)
        requires { at < length self.old }
        ensures { self.new ≡ take at self.old ++ drop (at + 1) self.old }
    {
        self.spans.remove(at);
    }

    /// Leaves the spans before a place.
    pub fn truncate(&mut self, at: usize)
        ensures { self.new ≡ take at self.old }
    {
        self.spans.truncate(at);
    }

    /// The spans from a place on, in memory of their own.
    pub fn from(&self, at: usize) -> Result<Chunk, NoMemory>
        requires { at ≤ length self.now }
        ensures { IfOk result (λ chunk. chunk ≡ drop at self.now) }
    {
        match Vec::from_slice(*self.spans.allocator(), &self.spans[at..]) {
            Ok(spans) => Ok(Chunk { spans }),
            Err(_) => Err(NoMemory),
        }
    }

    /// The same in memory of its own.
    pub fn copy(&self) -> Result<Chunk, NoMemory>
        ensures { IfOk result (λ copy. copy ≡ self.now) }
    {
        match self.spans.clone() {
            Ok(spans) => Ok(Chunk { spans }),
            Err(_) => Err(NoMemory),
        }
    }
}
