//! What the tests run on.
ghost use Rattle.std.specs.Prelude.{None};

use crate::top_call::tool;
use std::alloc::Global;
use std::process::Abort;
use std::test::Fail;
use wdt_depot::{Crash, Depot, MemDepot};
use wdt_source::{MemSource, Source, SourceFail};
use wdt_tree::{Plain, RawEntry};
use wdt_units::{MemSink, Name};

/// The log of the file `a` of two bytes, all of it covered.
pub const LOG: &[u8] = b"WDTL\0\x01\x01\0\0\0\x29\
    F\0\0\0\0\0\x01a\0\0\0\0\0\0\0\x02\0\0\0\0\0\0\0\0\
    M\0\0\0\0\0\0\0\0\0\0\0\0\0\0\0\x02\0";

pub fn words_of(alloc: Global, texts: &[&str]) -> Result<Vec<String>, Fail> {
    let mut words = Vec::new(alloc);
    for text in texts {
        words.push(String::from_str(alloc, text)?)?;
    }
    Ok(words)
}

fn plain(alloc: Global, path: &str, bytes: &[u8]) -> Result<Plain, Fail> {
    Ok(Plain {
        path: Name::read(alloc, path.as_bytes())?,
        stamp: 0,
        bytes: Vec::from_slice(alloc, bytes)?,
    })
}

/// The status and the lines of these words, where the source has these files, and the depot a log of
/// these bytes, or nothing where there are none.
pub fn run(
    rt: &impl Abort,
    alloc: Global,
    words: &[&str],
    files: &[(&str, &[u8])],
    log: &[u8],
) -> Result<(u8, Vec<u8>), Fail> {
    let mut listed = Vec::new(alloc);
    for (path, bytes) in files {
        listed.push(plain(alloc, path, bytes)?)?;
    }
    let mut stored = Vec::new(alloc);
    if !log.is_empty() {
        stored.push(plain(alloc, ".wlog", log)?)?;
    }
    assert!(rt; listed.len() < 4_294_967_296);
    let mut source = MemSource::of(listed, Vec::new(alloc));
    let depot = MemDepot::of(alloc, stored, Vec::new(alloc))?;
    let mut out = MemSink::of(alloc, Vec::new(alloc));
    let words = words_of(alloc, words)?;
    let tooled = tool(alloc, &words, &mut source, depot, &mut out);
    Ok((tooled.status.code(), Vec::from_slice(alloc, out.bytes())?))
}

/// A source that lists paths of any kind, each of a file with the same size and no readable bytes, and
/// tells nothing.
#[derive(Drop)]
pub struct Paths {
    paths: Vec<Vec<u8>>,
    size: u64,
    fails: bool,
}

impl Source for Paths {
    ghost told = { λ _. None };

    ghost listing = { λ _. None };

    ghost faults = { λ _. 18446744073709551615 };

    ghost slips = { λ _. 0 };

    fn list(&mut self, alloc: Global) -> Result<Vec<RawEntry>, SourceFail> {
        let mut raw = Vec::new(alloc);
        for path in &self.paths {
            raw.push(RawEntry {
                path: Vec::from_slice(alloc, path)?,
                size: self.size,
                stamp: 0,
            })?;
        }
        if !self.fails && raw.len() < 4_294_967_296 {
            return Ok(raw);
        }
        Err(SourceFail::Failed)
    }

    fn read_exact_at(&mut self, _: &Name, _: u64, _: &mut [u8]) -> Result<(), SourceFail> {
        Err(SourceFail::Failed)
    }

    ghost told_is_tree = { λ _. tt };

    ghost told_is_listed = { λ _. tt };
}

/// What goes wrong in a run.
#[derive(Clone, Copy)]
pub struct Faults {
    pub source: bool,
    pub depot: bool,
    pub sink: bool,
}

/// The status and the lines of these words, where the source lists these paths, each of a file of this
/// size, the depot has a log of these bytes, and what is named goes wrong.
pub fn run_failing(
    alloc: Global,
    words: &[&str],
    paths: &[&[u8]],
    size: u64,
    log: &[u8],
    faults: Faults,
) -> Result<(u8, Vec<u8>), Fail> {
    let mut source = Paths {
        paths: Vec::new(alloc),
        size,
        fails: faults.source,
    };
    for path in paths {
        source.paths.push(Vec::from_slice(alloc, path)?)?;
    }
    let mut stored = Vec::new(alloc);
    stored.push(plain(alloc, ".wlog", log)?)?;
    let mut depot = MemDepot::of(alloc, stored, Vec::new(alloc))?;
    // A stop that strikes at once, or never in a run.
    depot.arm(if faults.depot { 1 } else { 1_000 }, 0);
    let _ = depot.make(&Name::read(alloc, b"a")?);
    let mut out = MemSink::of(alloc, vec![in alloc; if faults.sink { 1 } else { 2u32 }]?);
    let words = words_of(alloc, words)?;
    let tooled = tool(alloc, &words, &mut source, depot, &mut out);
    Ok((tooled.status.code(), Vec::from_slice(alloc, out.bytes())?))
}
