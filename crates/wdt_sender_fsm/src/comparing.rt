//! What is told of a destination, compared with its order and with what was told before.
ghost use Rattle.std.specs.Prelude.{◌≡◌, ◌<◌, ◌^◌, length, map};
ghost use Rattle.wdt_ranges.specs.Files.{have_file};
ghost use Rattle.wdt_ranges.specs.Spans.{plain_span};
ghost use Rattle.wdt_sender_fsm.specs.Chunks.{are_same_spans, different_at, is_same_file, is_same_span, unordered_at};
ghost use Rattle.wdt_units.specs.Tree.{is_before};

use wdt_ranges::{FileHave, Span, Spans};
use wdt_units::Name;

/// The least place, counted from 0, whose path doesn't come behind the one before it.
pub fn unordered_at(files: &[FileHave]) -> Option<u32>
    requires { length files.now < 2 ^ 32 }
    ensures { result ≡ unordered_at (map have_file files.now) }
{
    for at in 1..files.len() {
        if !is_before(&files[at - 1].path, &files[at].path) {
            return Some(at as u32);
        }
    }
    None
}

fn is_before(path: &Name, other: &Name) -> bool
    ensures { result ≡ is_before path.now other.now }
{
    path.bytes().cmp(other.bytes()).is_lt()
}

/// The least place, counted from 0, at which two lists differ: a missing file is a difference.
pub fn different_at(first: &[FileHave], later: &[FileHave]) -> Option<u32>
    requires few { length first.now < 2 ^ 32 }
    requires later { length later.now < 2 ^ 32 }
    ensures { result ≡ different_at (map have_file first.now) (map have_file later.now) }
{
    let both = first.len().min(later.len());
    for at in 0..both {
        if !is_same_file(&first[at], &later[at]) {
            return Some(at as u32);
        }
    }
    if first.len() == later.len() {
        None
    } else {
        Some(both as u32)
    }
}

fn is_same_file(first: &FileHave, later: &FileHave) -> bool
    ensures { result ≡ is_same_file (have_file first.now) (have_file later.now) }
{
    first.path.bytes() == later.path.bytes()
        && first.size == later.size
        && first.stamp == later.stamp
        && are_same_spans(first.spans.spans(), later.spans.spans())
}

fn are_same_spans(first: Spans<'_>, mut later: Spans<'_>) -> bool
    ensures { result ≡ are_same_spans first.entry later.entry }
{
    for span in first {
        match later.next() {
            Some(other) if is_same_span(span, other) => {}
            _ => return false,
        }
    }
    later.next().is_none()
}

fn is_same_span(first: Span, later: Span) -> bool
    ensures { result ≡ is_same_span (plain_span first) (plain_span later) }
{
    first.offset == later.offset && first.length == later.length
}
