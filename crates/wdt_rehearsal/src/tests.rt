//! What no clause says: that a run succeeds where there is memory, and worked examples of the bytes of
//! both ways.
ghost use Rattle.std.specs.Prelude.{◌≡◌, [], IfOk};
ghost use Rattle.wdt_depot.specs.MemState.{mem_state};

use crate::{RehearseFail, rehearse};
use std::alloc::Global;
use std::process::Abort;
use std::test::Fail;
use wdt_depot::MemDepot;
use wdt_source::MemSource;
use wdt_tree::Plain;
use wdt_units::Name;

fn source_of(rt: &impl Abort, alloc: Global, files: &[(&str, &str)]) -> Result<MemSource, Fail> {
    let mut plain = Vec::new(alloc);
    for (path, bytes) in files {
        plain.push(Plain {
            path: Name::read(alloc, path.as_bytes())?,
            stamp: 0,
            bytes: Vec::from_slice(alloc, bytes.as_bytes())?,
        })?;
    }
    assert!(rt; plain.len() < 4_294_967_296);
    Ok(MemSource::of(plain, Vec::new(alloc)))
}

// An empty depot whose changing calls of these numbers fail.
fn depot_of(alloc: Global, fails: &[u32]) -> Result<MemDepot, Fail>
    ensures { IfOk result (λ depot. (mem_state depot).spots ≡ []) }
{
    let depot = MemDepot::of(alloc, Vec::new(alloc), Vec::from_slice(alloc, fails)?)?;
    Ok(depot)
}

// Whether the file at a path reads as these bytes.
fn shows(depot: &MemDepot, path: &Name, bytes: &[u8]) -> bool {
    match depot.shown(path) {
        Some(found) => found == bytes,
        None => false,
    }
}

// Down: settings of version 1, session 1, lane 0 of 1, connection 1, blocks of 16,777,216 bytes, which
// ask; then the size, each block behind its header, and two times the last word. Up: the greeting of
// lane 0, that there is nothing, and the last word.
#[test]
fn both_ways_have_their_frames(rt: HostRuntime) -> Result<(), Fail> {
    let alloc = rt.alloc();
    let trees: [(&[(&str, &str)], &[u8]); 2] = [
        (
            &[],
            b"\x53\0\x01\0\0\0\0\0\0\0\x01\0\x01\0\x01\x01\0\0\0\x01\
            \x5a\0\0\0\0\0\0\0\0\0\0\0\0\x4c\x4c",
        ),
        (
            &[("a", "hi")],
            b"\x53\0\x01\0\0\0\0\0\0\0\x01\0\x01\0\x01\x01\0\0\0\x01\
            \x5a\0\0\0\x01\0\0\0\0\0\0\0\x02\
            \x44\0\x01a\0\0\0\0\0\0\0\x02\0\0\0\0\0\0\0\0\0\0\0\0\0\0\0\0\0\0\0\x02hi\x4c\x4c",
        ),
    ];
    for (files, down) in trees {
        let mut source = source_of(&rt, alloc, files)?;
        let mut depot = depot_of(alloc, &[])?;
        let sent = rehearse(alloc, &mut source, &mut depot)?;
        assert_eq!(rt; sent.down.as_slice(), down);
        assert_eq!(rt;
            sent.up.as_slice(),
            b"\x47\0\0\0\0\0\x43\0\0\0\0\x4c".as_slice()
        );
    }
    Ok(())
}

#[test]
fn a_copy_shows_each_files_bytes(rt: HostRuntime) -> Result<(), Fail> {
    let alloc = rt.alloc();
    let a = Name::read(alloc, b"a")?;
    let b = Name::read(alloc, b"b/c")?;
    let mut source = source_of(&rt, alloc, &[("b/c", ""), ("a", "hi")])?;
    let mut depot = depot_of(alloc, &[])?;
    let run = rehearse(alloc, &mut source, &mut depot)?;
    assert_eq!(rt; run.report.bytes, 2);
    assert!(rt; shows(&depot, &a, b"hi"));
    assert!(rt; shows(&depot, &b, b""));
    Ok(())
}

#[test]
fn a_failing_depot_is_answered(rt: HostRuntime) -> Result<(), Fail> {
    let alloc = rt.alloc();
    let mut source = source_of(&rt, alloc, &[("a", "hi")])?;
    let mut depot = depot_of(alloc, &[2])?;
    let run = rehearse(alloc, &mut source, &mut depot);
    assert!(rt; matches!(run, Err(RehearseFail::Disk)));
    Ok(())
}
