//! What no clause says: worked rows, and that each call succeeds where there is memory.
#![tactic(auto, using(crate::proofs::Apart::span_from))]

use crate::{AddFail, FileHave, Have, Ranges, Span};
use std::alloc::Global;
use std::test::Fail;
use wdt_units::Name;

fn are(ranges: &Ranges, want: &[(u64, u64)]) -> bool {
    for (span, want) in ranges.spans().zip(want) {
        if (span.offset, span.length) != *want {
            return false;
        }
    }
    ranges.count() == want.len()
}

fn same(spans: &[Span], want: &[(u64, u64)]) -> bool {
    for (span, want) in spans.iter().zip(want) {
        if (span.offset, span.length) != *want {
            return false;
        }
    }
    spans.len() == want.len()
}

#[test]
fn adds(rt: HostRuntime) -> Result<(), Fail> {
    let mut ranges = Ranges::none(rt.alloc());
    for (offset, length, first, spans) in [
        (0, 4, None, [(0, 4)].as_slice()),
        (8, 2, None, &[(0, 4), (8, 2)]),
        (3, 1, Some(3), &[(0, 4), (8, 2)]),
        (5, 9, Some(8), &[(0, 4), (8, 2)]),
        (4, 4, None, &[(0, 10)]),
        (20, 5, None, &[(0, 10), (20, 5)]),
        (14, 1, None, &[(0, 10), (14, 1), (20, 5)]),
        (10, 2, None, &[(0, 12), (14, 1), (20, 5)]),
        (19, 1, None, &[(0, 12), (14, 1), (19, 6)]),
    ] {
        assert!(rt; offset < 100 && length > 0 && length < 100);
        let span = Span { offset, length };
        assert_eq!(rt; ranges.first_shared(span), first, "{offset} {length}");
        let got = match ranges.add(span) {
            Ok(()) => None,
            Err(AddFail::Overlap { first }) => Some(first),
            Err(AddFail::NoMemory) => Some(100),
        };
        assert!(rt; got == first && are(&ranges, spans), "{offset} {length}");
    }
    assert_eq!(rt; ranges.total(), 19);
    let copy = ranges.copy()?;
    assert!(rt; are(&copy, &[(0, 12), (14, 1), (19, 6)]));
    Ok(())
}

// More spans than a chunk takes: falling, and then what is between them in an order that jumps.
#[test]
fn adds_in_any_order(rt: HostRuntime) -> Result<(), Fail> {
    let mut ranges = Ranges::none(rt.alloc());
    for k in 0..1499u64 {
        ranges.add(Span {
            offset: 2 * (1499 - k),
            length: 1,
        })?;
    }
    assert_eq!(rt; (ranges.count(), ranges.total()), (1499, 1499));
    for k in 0..1499u64 {
        ranges.add(Span {
            offset: 2 * (7 * k % 1499) + 1,
            length: 1,
        })?;
    }
    assert!(rt; are(&ranges, &[(1, 2998)]));
    Ok(())
}

#[test]
fn leaves_gaps(rt: HostRuntime) -> Result<(), Fail> {
    let mut ranges = Ranges::none(rt.alloc());
    for (offset, length) in [(0, 4), (8, 2)] {
        assert!(rt; offset < 100 && length > 0 && length < 100);
        ranges.add(Span { offset, length })?;
    }
    assert_eq!(rt; ranges.total(), 6);
    for (size, gaps) in [(12, [(4, 4), (10, 2)].as_slice()), (9, &[(4, 4)]), (2, &[])] {
        assert!(rt; size < 100);
        assert!(rt; same(&ranges.gaps(size)?, gaps), "{size}");
    }
    Ok(())
}

fn file(alloc: Global, path: &[u8]) -> Result<FileHave, Fail> {
    let mut spans = Ranges::none(alloc);
    spans.add(Span {
        offset: 1,
        length: 2,
    })?;
    Ok(FileHave {
        path: Name::read(alloc, path)?,
        size: 5,
        stamp: 7,
        spans,
    })
}

#[test]
fn tells_the_order(rt: HostRuntime) -> Result<(), Fail> {
    let alloc = rt.alloc();
    assert!(rt; Have::none(alloc).in_order());
    for (first, second, third, want) in [
        (b"a".as_slice(), b"a/b".as_slice(), b"b".as_slice(), true),
        (b"a", b"b", b"b", false),
        (b"b", b"a", b"c", false),
        (b"a", b"c", b"b", false),
    ] {
        let mut files = Vec::new(alloc);
        for path in [first, second, third] {
            files.push(file(alloc, path)?)?;
        }
        assert!(rt; files.len() < 10);
        let have = Have::of(files).copy()?;
        assert_eq!(rt; have.in_order(), want);
        for file in have.files() {
            assert!(rt; file.size == 5 && file.stamp == 7 && are(&file.spans, &[(1, 2)]));
        }
    }
    Ok(())
}
