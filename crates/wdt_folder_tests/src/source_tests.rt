//! What a real folder is seen as.
use crate::script::{below, new_root};
use crate::watched::{Notes, Watched};
use std::fs;
use std::os::unix::fs::symlink;
use std::rc::Rc;
use std::test::Fail;
use wdt_folder::FolderSource;
use wdt_source::{Source, SourceFail};
use wdt_units::Name;

// A folder with the files `a` and `sub/b`, a link, and what stands at the receiver's own paths.
fn made(rt: &HostRuntime) -> Result<String, Fail> {
    let alloc = rt.alloc();
    let root = new_root(rt)?;
    for folder in ["sub", ".wlog"] {
        fs::create_dir_all(rt, below(alloc, root.as_str(), folder)?)?;
    }
    for (path, text) in [
        ("a", "hi"),
        ("sub/b", ""),
        (".wlog/c", ""),
        (".wlog.new", ""),
    ] {
        fs::write(rt, below(alloc, root.as_str(), path)?, text)?;
    }
    symlink(rt, "a", below(alloc, root.as_str(), "link")?)?;
    Ok(root)
}

#[test]
fn a_folder_is_listed_and_read(rt: HostRuntime) -> Result<(), Fail> {
    let root = made(&rt)?;
    let mut source = FolderSource::at(rt.clone()?, root.clone()?);
    let raw = source.list(rt.alloc())?;
    assert_eq!(rt; raw.len(), 2);
    for entry in &raw {
        match entry.path.as_slice() {
            b"a" => assert_eq!(rt; entry.size, 2),
            b"sub/b" => assert_eq!(rt; entry.size, 0),
            _ => panic!(rt; "another file"),
        }
    }
    let a = Name::read(rt.alloc(), b"a")?;
    let mut bytes = [0; 1];
    source.read_exact_at(&a, 1, &mut bytes)?;
    assert_eq!(rt; bytes, *b"i");
    // Past the end, and a link.
    assert!(rt;
        matches!(
            source.read_exact_at(&a, 2, &mut bytes),
            Err(SourceFail::Failed)
        )
    );
    let link = Name::read(rt.alloc(), b"link")?;
    assert!(rt;
        matches!(
            source.read_exact_at(&link, 1, &mut bytes),
            Err(SourceFail::Failed)
        )
    );
    fs::remove_dir_all(&rt, root.as_str())?;
    Ok(())
}

#[test]
fn a_file_that_goes_is_a_fault_that_names_it(rt: HostRuntime) -> Result<(), Fail> {
    let root = made(&rt)?;
    let notes = Rc::new(rt.alloc(), Notes::of(root.clone()?))?;
    let watched = Watched {
        rt: rt.clone()?,
        notes: notes.clone()?,
    };
    let mut source = FolderSource::at(watched, root.clone()?);
    notes.fail("look a", 2)?;
    assert!(rt; matches!(source.list(rt.alloc()), Err(SourceFail::Failed)));
    let fault = source.fault().ok_or("no fault")?;
    let folder = root.as_str();
    assert_eq!(rt;
        format!(in rt.alloc(); "{fault}")?,
        format!(in rt.alloc(); "looking at {folder}/a: No such file or directory (os error 2)")?
    );
    notes.fail("list sub/", 12)?;
    assert!(rt; matches!(source.list(rt.alloc()), Err(SourceFail::NoMemory)));
    // Another file takes its place.
    fs::rename(
        &rt,
        below(rt.alloc(), folder, "sub/b")?,
        below(rt.alloc(), folder, "aside")?,
    )?;
    notes.exchange("a")?;
    let a = Name::read(rt.alloc(), b"a")?;
    let mut bytes = [0; 0];
    assert!(rt;
        matches!(
            source.read_exact_at(&a, 0, &mut bytes),
            Err(SourceFail::Failed)
        )
    );
    source.read_exact_at(&a, 0, &mut bytes)?;
    fs::remove_dir_all(&rt, root.as_str())?;
    Ok(())
}
