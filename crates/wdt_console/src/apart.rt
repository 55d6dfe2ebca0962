//! Whether two folders lie apart.
use std::fs;
use std::io::{self, ErrorKind};
use std::path::{Component, Path, PathBuf};
use std::rt::Files;
use wdt_folder::OneLine;

/// Whether the folders of a copy lie apart: neither is the other, or lies in it. A link is followed, and a
/// folder that isn't there yet lies where it would be made. Where they don't, or the system doesn't tell
/// where they are, a line on standard error says so.
pub fn lie_apart<R: Files + AllocGlobal + Eprint>(rt: &R, source: &str, dest: &str) -> bool {
    let found = overlap(rt, source, dest);
    let (source, dest) = (OneLine(source), OneLine(dest));
    match found {
        Ok(false) => true,
        Ok(true) => {
            let _ = eprintln!(rt; "wdt: one of {source} and {dest} is the other, or lies in it");
            false
        }
        Err(reason) => {
            let _ = eprintln!(rt; "wdt: looking where {source} and {dest} are: {reason}");
            false
        }
    }
}

// Whether one of two folders is the other, or lies in it.
fn overlap<R: Files + AllocGlobal>(rt: &R, first: &str, second: &str) -> io::Result<bool> {
    let first = real_path(rt, Path::new(first))?;
    let second = real_path(rt, Path::new(second))?;
    Ok(first.starts_with(second.as_str()) || second.starts_with(first.as_str()))
}

// The real path of a folder: that of the nearest folder above it that is there, and the rest of its path.
fn real_path<R: Files + AllocGlobal>(rt: &R, folder: Path<'_>) -> io::Result<PathBuf> {
    for above in folder.ancestors() {
        let text = above.as_str();
        match fs::canonicalize(rt, if text.is_empty() { "." } else { text }) {
            Ok(real) => return below(rt, &real, folder, above),
            Err(reason) if reason.kind() == ErrorKind::NotFound => {}
            Err(reason) => return Err(reason),
        }
    }
    fs::canonicalize(rt, ".")
}

// The path of a folder below the real path of one above it.
fn below<R: Files + AllocGlobal>(
    rt: &R,
    real: &PathBuf,
    folder: Path<'_>,
    above: Path<'_>,
) -> io::Result<PathBuf> {
    let Ok(rest) = folder.strip_prefix(above) else {
        return Err(io::Error::new(ErrorKind::InvalidInput, "its path has no reading"));
    };
    // What `..` behind a folder that isn't there would be nobody knows.
    for part in rest.components() {
        if let Component::ParentDir = part {
            return Err(io::Error::new(
                ErrorKind::InvalidInput,
                "`..` stands behind a folder that isn't there",
            ));
        }
    }
    Ok(real.join(rt.alloc(), rest)?)
}
