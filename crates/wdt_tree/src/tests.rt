//! What no clause says: worked listings, and that each call succeeds where there is memory.
ghost use Rattle.std.specs.Prelude.{IsSome};

use crate::{Manifest, ManifestFail, RawEntry, Run};
use std::alloc::{AllocError, Global};
use std::marker::Brand;
use std::test::Fail;
use wdt_units::Name;

const KIB: [u8; 1024] = [b'k'; 1024];

const LONG: [u8; 1025] = [b'k'; 1025];

const LARGEST: u64 = 1 << 40;

fn listing(alloc: Global, rows: &[(&[u8], u64)]) -> Result<Vec<RawEntry>, AllocError> {
    let mut raw = Vec::with_capacity(alloc, rows.len())?;
    for (path, size) in rows {
        let path = Vec::from_slice(alloc, path)?;
        let size = *size;
        raw.push(RawEntry {
            path,
            size,
            stamp: 7,
        })?;
    }
    Ok(raw)
}

#[test]
fn checks(rt: HostRuntime) -> Result<(), Fail> {
    let alloc = rt.alloc();
    for (rows, want) in [
        ([].as_slice(), Ok(0)),
        (&[(b"b".as_slice(), 1), (b"a/c", LARGEST), (b"a", 0)], Ok(3)),
        (&[(KIB.as_slice(), 0)], Ok(1)),
        (
            &[(b"a", 0), (LONG.as_slice(), 0)],
            Err(ManifestFail::BadPath { at: 1 }),
        ),
        (
            &[(b"a".as_slice(), 0), (b"a", 0), (b"../a", 0)],
            Err(ManifestFail::BadPath { at: 2 }),
        ),
        (
            &[(b"a".as_slice(), 0), (b".wlog", LARGEST + 1)],
            Err(ManifestFail::Reserved { at: 1 }),
        ),
        (
            &[(b".wlog.new".as_slice(), 0), (b"", 0)],
            Err(ManifestFail::Reserved { at: 0 }),
        ),
        (
            &[(b"a".as_slice(), LARGEST), (b"b", LARGEST + 1)],
            Err(ManifestFail::TooLarge { at: 1 }),
        ),
        (
            &[(b"a".as_slice(), 0), (b"b", 0), (b"a", 0), (b"b", 0)],
            Err(ManifestFail::Twice { at: 2 }),
        ),
        (
            &[(b"c".as_slice(), 0), (b"b", 0), (b"b", 0), (b"c", 0)],
            Err(ManifestFail::Twice { at: 2 }),
        ),
    ] {
        let raw = listing(alloc, rows)?;
        assert!(rt; raw.len() < 10);
        let got = match Manifest::check(alloc, raw) {
            Ok(manifest) => Ok(manifest.count()),
            Err(fail) => Err(fail),
        };
        assert_eq!(rt; got, want, "{rows:?}");
    }
    Ok(())
}

#[test]
fn refuses_too_many(rt: HostRuntime) -> Result<(), Fail> {
    let alloc = rt.alloc();
    let mut raw = Vec::new(alloc);
    for _ in 0..262_145 {
        raw.push(RawEntry {
            path: Vec::new(alloc),
            size: 0,
            stamp: 0,
        })?;
    }
    assert!(rt; raw.len() < 300_000);
    let fail = Manifest::check(alloc, raw).err();
    assert_eq!(rt; fail, Some(ManifestFail::TooMany { count: 262_145 }));
    Ok(())
}

#[test]
fn finds(rt: HostRuntime) -> Result<(), Fail> {
    let alloc = rt.alloc();
    let raw = listing(alloc, &[(b"b", 2), (b"a/b", 3), (b"a", 4)])?;
    assert!(rt; raw.len() < 10);
    let manifest = Manifest::check(alloc, raw)?.copy()?;
    assert_eq!(rt; manifest.count(), 3);
    assert_eq!(rt; manifest.total(), 9);
    for (path, at) in [
        (b"a".as_slice(), Some(0)),
        (b"a/b", Some(1)),
        (b"b", Some(2)),
        (b"aa", None),
        (b"c", None),
    ] {
        let name = Name::read(alloc, path)?;
        assert_eq!(rt; manifest.find(&name), at, "{path:?}");
    }
    let entry = manifest.entry(1);
    assert_eq!(rt; entry.path.text(), "a/b");
    assert_eq!(rt; (entry.size, entry.stamp), (3, 7));
    Ok(())
}

// A caller that tells a run is generic over it, and is itself called with `Brand`.
fn told<N: Run>(rows: u32) -> u32
    requires { IsSome N.told }
{
    rows
}

#[test]
fn tells_a_run(rt: HostRuntime) {
    assert_eq!(rt; told::<Brand>(3), 3);
}
