//! A source whose files are counted as they are read.
ghost use Rattle.std.specs.Prelude.{◌≡◌};

use crate::line::Come;
use crate::progress::Progress;
use std::alloc::Global;
use std::marker::Model;
use std::rt::Clock;
use std::sync::Arc;
use wdt_source::{Source, SourceFail};
use wdt_tree::RawEntry;
use wdt_units::Name;

/// The source behind it, call for call. What is read there is counted, and what it lists is the whole.
/// Contracts see it as that source.
#[derive(Drop)]
pub struct WatchedSource<S: Source + Drop, R: Clock + Eprint + Drop> {
    source: S,
    // Shared with the other lanes' sources.
    progress: Option<Arc<Progress<R>, Global>>,
}

impl<S: Source + Drop, R: Clock + Eprint + Drop> Model for WatchedSource<S, R> {
    ghost Value = { S };

    ghost view = { λ watched. watched.source };
}

impl<S: Source + Drop, R: Clock + Eprint + Drop> WatchedSource<S, R> {
    /// Counts what is read of the source; with None nothing is shown.
    pub fn of(source: S, progress: Option<Arc<Progress<R>, Global>>) -> WatchedSource<S, R>
        ensures { result ≡ source }
    {
        WatchedSource { source, progress }
    }

    /// The source behind it.
    pub fn source(&self) -> &S
        ensures { result.now ≡ self.now }
    {
        &self.source
    }
}

// What is listed is to be read in the end. An empty file has nothing to read, so it has begun.
fn expect<R: Clock + Eprint + Drop>(progress: &Progress<R>, listed: &[RawEntry]) {
    let mut empty: u64 = 0;
    let mut bytes: u64 = 0;
    for entry in listed {
        bytes = bytes.saturating_add(entry.size);
        if entry.size == 0 {
            empty = empty.saturating_add(1);
        }
    }
    let files = listed.len() as u64;
    progress.expect(Come { files, bytes }, empty);
}

// Bytes of a file were read from an offset on. A file begins with its first byte.
fn count<R: Clock + Eprint + Drop>(progress: &Progress<R>, offset: u64, bytes: u64) {
    let files = if offset == 0 && bytes > 0 { 1 } else { 0 };
    progress.count(Come { files, bytes });
}

impl<S: Source + Drop, R: Clock + Eprint + Drop> Source for WatchedSource<S, R> {
    ghost told = { λ source. S.told source };

    ghost listing = { λ source. S.listing source };

    ghost faults = { λ source. S.faults source };

    ghost slips = { λ source. S.slips source };

    ghost schedule = { λ source. S.schedule source };

    fn list(&mut self, alloc: Global) -> Result<Vec<RawEntry>, SourceFail> {
        let listed = self.source.list(alloc);
        if let (Ok(raw), Some(progress)) = (&listed, &self.progress) {
            expect(progress, raw);
        }
        listed
    }

    fn read_exact_at(
        &mut self,
        path: &Name,
        offset: u64,
        into: &mut [u8],
    ) -> Result<(), SourceFail> {
        let read = self.source.read_exact_at(path, offset, into);
        if let (Ok(()), Some(progress)) = (&read, &self.progress) {
            count(progress, offset, into.len() as u64);
        }
        read
    }

    ghost told_is_tree = { λ source. S.told_is_tree source };

    ghost told_is_listed = { λ source. S.told_is_listed source };
}
