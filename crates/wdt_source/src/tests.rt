//! What no clause says: which calls fail, that the others succeed where there is memory, and a
//! listing and reads as a table.
use crate::{MemSource, Source, SourceFail};
use std::alloc::Global;
use std::test::Fail;
use wdt_tree::Plain;
use wdt_units::Name;

fn plain(alloc: Global, path: &str, bytes: &str) -> Result<Plain, Fail> {
    Ok(Plain {
        path: Name::read(alloc, path.as_bytes())?,
        stamp: 7,
        bytes: Vec::from_slice(alloc, bytes.as_bytes())?,
    })
}

#[test]
fn lists_and_reads(rt: HostRuntime) -> Result<(), Fail> {
    let alloc = rt.alloc();
    let rows = [("b", "hello"), ("a/c", ""), ("a", "wdt")];
    let mut files = Vec::new(alloc);
    for (path, bytes) in rows {
        files.push(plain(alloc, path, bytes)?)?;
    }
    let mut source = MemSource::of(files, Vec::from_slice(alloc, &[2, 5])?);
    let raw = source.list(alloc)?;
    assert_eq!(rt; raw.len(), 3);
    for ((path, bytes), entry) in rows.iter().zip(&raw) {
        assert_eq!(rt; entry.path.as_slice(), path.as_bytes());
        assert_eq!(rt; (entry.size, entry.stamp), (bytes.len() as u64, 7));
    }
    assert_eq!(rt; source.list(alloc).err(), Some(SourceFail::Failed));
    for (path, offset, count, want) in [
        ("b", 0, 5, Some("hello")),
        ("a", 1, 2, Some("dt")),
        ("a", 0, 2, None),
        ("a", 0, 2, Some("wd")),
        ("a/c", 0, 0, Some("")),
        ("b", 1, 3, Some("ell")),
        ("b", 3, 3, None),
        ("c", 0, 0, None),
    ] {
        let name = Name::read(alloc, path.as_bytes())?;
        let mut piece = Vec::from_slice(alloc, &[0; 8])?;
        piece.truncate(count);
        let got = match source.read_exact_at(&name, offset, &mut piece) {
            Ok(()) => Some(piece.as_slice()),
            Err(_) => None,
        };
        assert_eq!(rt;
            got,
            want.map(|text| text.as_bytes()),
            "{path} {offset} {count}"
        );
    }
    Ok(())
}
