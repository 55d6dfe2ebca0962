//! What no clause says: worked plans, and that each call succeeds where there is memory.
use crate::{PlanFail, plan};
use std::alloc::Global;
use std::process::Abort;
use std::test::Fail;
use wdt_ranges::{FileHave, Have, Ranges, Span};
use wdt_tree::{Manifest, RawEntry};
use wdt_units::{Block, Name};

// The tree of files of these sizes with the stamp 7.
fn tree(rt: &impl Abort, alloc: Global, rows: &[(&[u8], u64)]) -> Result<Manifest, Fail> {
    let mut raw = Vec::with_capacity(alloc, rows.len())?;
    for (path, size) in rows {
        let path = Vec::from_slice(alloc, path)?;
        let size = *size;
        raw.push(RawEntry {
            path,
            size,
            stamp: 7,
        })?;
    }
    assert!(rt; raw.len() < 10);
    Ok(Manifest::check(alloc, raw)?)
}

// The positions of these spans.
fn set(rt: &impl Abort, alloc: Global, spans: &[(u64, u64)]) -> Result<Ranges, Fail> {
    let mut ranges = Ranges::none(alloc);
    for (offset, length) in spans {
        let span = Span {
            offset: *offset,
            length: *length,
        };
        assert!(rt; span.length > 0 && span.length < 100 && span.offset < 100);
        ranges.add(span)?;
    }
    Ok(ranges)
}

type Row<'a> = (&'a [u8], u64, u64, &'a [(u64, u64)]);

// The have of files of these sizes and stamps with these spans.
fn have(rt: &impl Abort, alloc: Global, rows: &[Row<'_>]) -> Result<Have, Fail> {
    let mut files = Vec::with_capacity(alloc, rows.len())?;
    for (path, size, stamp, spans) in rows {
        let path = Name::read(alloc, path)?;
        let spans = set(rt, alloc, spans)?;
        let size = *size;
        let stamp = *stamp;
        files.push(FileHave {
            path,
            size,
            stamp,
            spans,
        })?;
    }
    assert!(rt; files.len() < 10);
    Ok(Have::of(files))
}

fn block(file: u32, offset: u64, length: u32) -> Block {
    Block {
        file,
        offset,
        length,
    }
}

// The plan of the tree of a, b and c for this have, in blocks of 4 bytes.
fn planned(rt: &impl Abort, alloc: Global, rows: &[Row<'_>]) -> Result<Vec<Block>, Fail> {
    let manifest = tree(rt, alloc, &[(b"b".as_slice(), 5), (b"c", 0), (b"a", 4)])?;
    let have = have(rt, alloc, rows)?;
    assert!(rt; have.in_order());
    Ok(plan(alloc, &manifest, &have, 4)?)
}

#[test]
fn plans(rt: HostRuntime) -> Result<(), Fail> {
    let alloc = rt.alloc();
    let all = planned(&rt, alloc, &[])?;
    assert_eq!(rt;
        all.as_slice(),
        [
            block(0, 0, 4),
            block(1, 0, 4),
            block(1, 4, 1),
            block(2, 0, 0)
        ]
        .as_slice()
    );
    let most = planned(
        &rt,
        alloc,
        &[
            (b"a".as_slice(), 4, 7, [(1, 2)].as_slice()),
            (b"b", 5, 7, &[(0, 5)]),
            (b"c", 0, 7, &[]),
        ],
    )?;
    assert_eq!(rt;
        most.as_slice(),
        [block(0, 0, 1), block(0, 3, 1)].as_slice()
    );
    let past = planned(
        &rt,
        alloc,
        &[(b"b".as_slice(), 5, 7, [(2, 1), (9, 2)].as_slice())],
    )?;
    assert_eq!(rt;
        past.as_slice(),
        [
            block(0, 0, 4),
            block(1, 0, 2),
            block(1, 3, 2),
            block(2, 0, 0)
        ]
        .as_slice()
    );
    Ok(())
}

#[test]
fn refuses_stale(rt: HostRuntime) -> Result<(), Fail> {
    let alloc = rt.alloc();
    let manifest = tree(&rt, alloc, &[(b"a".as_slice(), 4), (b"b", 5)])?;
    for (rows, want) in [
        (
            [(b"a".as_slice(), 4, 8, [].as_slice()), (b"b", 4, 7, &[])].as_slice(),
            ("a", (4, 8), Some((4, 7))),
        ),
        (
            &[(b"a".as_slice(), 4, 7, [].as_slice()), (b"b", 4, 7, &[])],
            ("b", (4, 7), Some((5, 7))),
        ),
        (
            &[(b"aa".as_slice(), 4, 7, [].as_slice())],
            ("aa", (4, 7), None),
        ),
    ] {
        let have = have(&rt, alloc, rows)?;
        assert!(rt; have.in_order());
        match plan(alloc, &manifest, &have, 1) {
            Err(
                PlanFail::Stale {
                    path,
                    logged,
                    found,
                },
            ) => assert_eq!(rt; (path.text(), logged, found), want),
            _ => panic!(rt; "no stale file"),
        }
    }
    Ok(())
}

#[test]
fn refuses_too_many(rt: HostRuntime) -> Result<(), Fail> {
    let alloc = rt.alloc();
    let manifest = tree(&rt, alloc, &[(b"a".as_slice(), 1_048_577)])?;
    let have = have(&rt, alloc, &[])?;
    assert!(rt; have.in_order());
    match plan(alloc, &manifest, &have, 1) {
        Err(PlanFail::TooManyBlocks { count }) => assert_eq!(rt; count, 1_048_577),
        _ => panic!(rt; "not too many"),
    }
    Ok(())
}
