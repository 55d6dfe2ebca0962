//! What no clause says: which calls fail, that the others succeed where there is memory, and what a
//! stop leaves, as tables.
ghost use Rattle.std.specs.Prelude.{◌≡◌, [], IfOk};
ghost use Rattle.wdt_depot.specs.MemState.{mem_state};

use crate::{Crash, Depot, DepotFail, MemDepot, read_whole};
use std::alloc::Global;
use std::test::Fail;
use wdt_tree::Plain;
use wdt_units::Name;

fn depot_of(alloc: Global, files: &[(&str, &str)], fails: &[u32]) -> Result<MemDepot, Fail>
    ensures { IfOk result (λ depot. (mem_state depot).spots ≡ []) }
{
    let mut plain = Vec::new(alloc);
    for (path, bytes) in files {
        plain.push(Plain {
            path: Name::read(alloc, path.as_bytes())?,
            stamp: 0,
            bytes: Vec::from_slice(alloc, bytes.as_bytes())?,
        })?;
    }
    let depot = MemDepot::of(alloc, plain, Vec::from_slice(alloc, fails)?)?;
    Ok(depot)
}

// Writes to a file through any depot.
fn put<D: Depot>(depot: &mut D, path: &Name, offset: u64, bytes: &[u8]) -> Result<(), DepotFail>
    requires { (D.state depot.old).spots ≡ [] }
    ensures { (D.state depot.new).spots ≡ [] }
{
    let spot = depot.need(path)?;
    let written = depot.write_at(spot, offset, bytes);
    depot.leave(spot);
    written
}

// Reads from a file through any depot, and answers how long the file is and how much was read.
fn look<D: Depot>(
    depot: &mut D,
    path: &Name,
    offset: u64,
    into: &mut [u8],
) -> Result<Option<(u64, usize)>, DepotFail>
    requires { (D.state depot.old).spots ≡ [] }
    ensures { (D.state depot.new).spots ≡ [] }
{
    match depot.enter(path)? {
        None => Ok(None),
        Some(spot) => {
            let length = depot.length(spot);
            let count = depot.read_at(spot, offset, into);
            depot.leave(spot);
            Ok(Some((length?, count?)))
        }
    }
}

// Reads a file whole through any depot.
fn whole<D: Depot>(alloc: Global, depot: &mut D, path: &Name) -> Result<Vec<u8>, DepotFail>
    requires { (D.state depot.old).spots ≡ [] }
    ensures { (D.state depot.new).spots ≡ [] }
{
    let spot = depot.need(path)?;
    let bytes = read_whole(alloc, depot, spot);
    depot.leave(spot);
    bytes
}

// Syncs a file through any depot.
fn settle<D: Depot>(depot: &mut D, path: &Name) -> Result<(), DepotFail>
    requires { (D.state depot.old).spots ≡ [] }
    ensures { (D.state depot.new).spots ≡ [] }
{
    let spot = depot.need(path)?;
    let synced = depot.sync(spot);
    depot.leave(spot);
    if synced.is_err() {
        return Err(DepotFail::Failed);
    }
    Ok(())
}

// Reopens any depot, and answers whether a stop had struck.
fn restart<C: Crash>(depot: &mut C) -> bool
    ensures { (C.Depot.state depot.new).spots ≡ [] }
{
    let struck = depot.struck();
    depot.reopen();
    struck
}

#[test]
fn a_struck_write_leaves_what_the_pick_takes(rt: HostRuntime) -> Result<(), Fail> {
    let alloc = rt.alloc();
    let x = Name::read(alloc, b"x")?;
    for (pick, left) in [
        (0, [0x61, 0x62].as_slice()),
        (1, &[0x61, 0x63, 0x64]),
        (2, &[0x61, 3, 4]),
    ] {
        let mut depot = depot_of(alloc, &[("x", "ab")], &[])?;
        depot.arm(1, pick);
        assert_eq!(rt; put(&mut depot, &x, 1, b"cd"), Err(DepotFail::Failed));
        assert!(rt; restart(&mut depot));
        assert_eq!(rt; depot.shown(&x), Some(left));
        assert!(rt; !restart(&mut depot));
    }
    Ok(())
}

#[test]
fn writes_are_read_back(rt: HostRuntime) -> Result<(), Fail> {
    let alloc = rt.alloc();
    let x = Name::read(alloc, b"x")?;
    let mut depot = depot_of(alloc, &[("x", "ab")], &[])?;
    assert_eq!(rt; put(&mut depot, &x, 4, b"z"), Ok(()));
    assert_eq!(rt; settle(&mut depot, &x), Ok(()));
    assert_eq!(rt; put(&mut depot, &x, 1, b"cd"), Ok(()));
    for (offset, size, want) in [
        (0, 8, b"acd\0z".as_slice()),
        (2, 2, b"d\0"),
        (4, 8, b"z"),
        (5, 8, b""),
        (9, 8, b""),
    ] {
        let mut piece = Vec::from_slice(alloc, &[7; 8])?;
        piece.truncate(size);
        assert_eq!(rt;
            look(&mut depot, &x, offset, &mut piece),
            Ok(Some((5, want.len())))
        );
        piece.truncate(want.len());
        assert_eq!(rt; piece.as_slice(), want);
    }
    assert_eq!(rt;
        whole(alloc, &mut depot, &x)?.as_slice(),
        b"acd\0z".as_slice()
    );
    let missing = Name::read(alloc, b"y/z")?;
    assert_eq!(rt; look(&mut depot, &missing, 0, &mut [0; 4]), Ok(None));
    assert_eq!(rt; put(&mut depot, &missing, 0, b"z"), Err(DepotFail::Failed));
    assert_eq!(rt; put(&mut depot, &x, 1 << 41, b"z"), Err(DepotFail::Failed));
    assert!(rt; !restart(&mut depot));
    assert_eq!(rt; depot.shown(&x), Some(b"ab\0\0z".as_slice()));
    Ok(())
}

#[test]
fn calls_fail_by_their_numbers(rt: HostRuntime) -> Result<(), Fail> {
    let alloc = rt.alloc();
    let x = Name::read(alloc, b"x")?;
    let y = Name::read(alloc, b"y")?;
    let mut depot = depot_of(alloc, &[], &[2, 4])?;
    assert_eq!(rt; depot.make(&x), Ok(()));
    assert_eq!(rt; put(&mut depot, &x, 0, b"ab"), Err(DepotFail::Failed));
    assert_eq!(rt; put(&mut depot, &x, 0, b"ab"), Ok(()));
    assert_eq!(rt; settle(&mut depot, &x), Err(DepotFail::Failed));
    assert_eq!(rt; depot.put_in_place(&x, &y), Ok(()));
    assert_eq!(rt; depot.put_in_place(&x, &y), Err(DepotFail::Failed));
    assert_eq!(rt; depot.shown(&x), None);
    assert_eq!(rt; depot.shown(&y), Some(b"ab".as_slice()));
    Ok(())
}

#[test]
fn a_file_is_made_or_put_in_place_whole_or_not_at_all(rt: HostRuntime) -> Result<(), Fail> {
    let alloc = rt.alloc();
    let a = Name::read(alloc, b"a")?;
    let b = Name::read(alloc, b"b")?;
    for (pick, made, placed) in [(0, Some("old"), None), (251, Some(""), Some("new"))] {
        let mut depot = depot_of(alloc, &[("a", "new"), ("b", "old")], &[])?;
        depot.arm(2, pick);
        assert_eq!(rt; depot.make(&a), Ok(()));
        assert_eq!(rt; depot.make(&b), Err(DepotFail::Failed));
        assert_eq!(rt; depot.make(&a), Err(DepotFail::Failed));
        assert!(rt; restart(&mut depot));
        assert_eq!(rt; depot.shown(&b), made.map(|text| text.as_bytes()));

        let mut depot = depot_of(alloc, &[("a", "new")], &[])?;
        depot.arm(1, pick);
        assert_eq!(rt; depot.put_in_place(&a, &b), Err(DepotFail::Failed));
        assert!(rt; restart(&mut depot));
        assert_eq!(rt; depot.shown(&b), placed.map(|text| text.as_bytes()));
        assert_eq!(rt; depot.shown(&a).is_some(), placed.is_none());
    }
    Ok(())
}

#[test]
fn a_stop_that_is_armed_after_another_counts_from_the_reopening(
    rt: HostRuntime,
) -> Result<(), Fail> {
    let alloc = rt.alloc();
    let x = Name::read(alloc, b"x")?;
    let mut depot = depot_of(alloc, &[], &[])?;
    depot.arm(1, 0);
    assert_eq!(rt; depot.make(&x), Err(DepotFail::Failed));
    depot.arm(2, 1);
    assert_eq!(rt; depot.make(&x), Err(DepotFail::Failed));
    assert!(rt; restart(&mut depot));
    assert_eq!(rt; depot.shown(&x), None);
    assert_eq!(rt; depot.make(&x), Ok(()));
    assert_eq!(rt; put(&mut depot, &x, 0, b"ab"), Err(DepotFail::Failed));
    assert!(rt; restart(&mut depot));
    assert_eq!(rt; depot.shown(&x), Some(b"ab".as_slice()));
    Ok(())
}
