//! The spans of a set, one after the other.
ghost use Rattle.std.specs.Prelude.{◌≡◌};
ghost use Rattle.std.specs.Iterator.{item_count, YieldsFirstBy};
ghost use Rattle.wdt_ranges.specs.Chunks.{all_of};
ghost use Rattle.wdt_ranges.specs.Spans.{plain_span};

use crate::chunk::Chunk;
use crate::ranges::Span;
use std::marker::Model;

/// The spans of a set in their order, seen as those that are still to come.
#[derive(Drop)]
pub struct Spans<'a> {
    here: &'a [Span],
    later: &'a [Chunk],
}

impl<'a> Model for Spans<'a> {
    ghost use Rattle.std.specs.Prelude.{List, map, ◌++◌};
    ghost use Rattle.wdt_units.specs.Have.{PlainSpan};
    ghost use Rattle.wdt_ranges.specs.Chunks.{all_of};
    ghost use Rattle.wdt_ranges.specs.Spans.{plain_span};

    ghost Value = { List PlainSpan };

    ghost view = { λ s. map plain_span s.here.now ++ all_of s.later.now };
}

impl<'a> Spans<'a> {
    pub fn of(chunks: &'a [Chunk]) -> Spans<'a>
        ensures { result ≡ all_of chunks.now }
    {
        Spans {
            here: &[],
            later: chunks,
        }
    }
}

impl<'a> Iterator for Spans<'a> {
    type Item = Span;

    ghost next_gives = { YieldsFirstBy plain_span (λ s. s) };

    ghost remaining = { item_count (λ s. s) };

    fn next(&mut self) -> Option<Span> {
        while self.here.is_empty() {
            let (chunk, later) = self.later.split_first()?;
            self.here = chunk.spans();
            self.later = later;
        }
        let (first, others) = self.here.split_first()?;
        self.here = others;
        Some(*first)
    }
}
