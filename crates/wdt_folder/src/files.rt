// What is done to one file of a folder.
ghost use Rattle.std.specs.Prelude.{◌≤◌, length, IfOk};

use std::fs::{self, Metadata, OpenFile, OpenOptions};
use std::io::{self, ErrorKind};
use std::os::unix::fs::{FileExt, MetadataExt};
use std::rt::Files;

// What stands at a path, where anything does. A link isn't followed.
pub fn look<R: Files>(rt: &R, full: &str) -> io::Result<Option<Metadata>> {
    match fs::symlink_metadata(rt, full) {
        Ok(about) => Ok(Some(about)),
        Err(reason) => {
            if reason.kind() == ErrorKind::NotFound {
                return Ok(None);
            }
            Err(reason)
        }
    }
}

pub fn not_regular() -> io::Error {
    io::Error::new(ErrorKind::InvalidInput, "it is no regular file")
}

// The regular file at a path, open, for writing too where that is asked for: None where nothing is
// there. Anything else is a fault: a link, a folder, and a pipe, which might never end. So is a file
// that isn't the one that was looked at, since something else was put in its place meanwhile.
pub fn open<R: Files>(rt: &R, full: &str, writes: bool) -> io::Result<Option<R::File>> {
    let Some(looked) = look(rt, full)? else {
        return Ok(None);
    };
    if !looked.is_file() {
        return Err(not_regular());
    }
    let file = OpenOptions::new().read(true).write(writes).open(rt, full)?;
    if !is_same(&looked, &file.metadata()?) {
        return Err(exchanged());
    }
    Ok(Some(file))
}

// The file that is open already, open for writing too.
pub fn open_again<R: Files>(rt: &R, full: &str, file: &R::File) -> io::Result<R::File> {
    let about = file.metadata()?;
    match open(rt, full, true)? {
        Some(again) => {
            if is_same(&about, &again.metadata()?) {
                return Ok(again);
            }
            Err(exchanged())
        }
        None => Err(io::Error::from(ErrorKind::NotFound)),
    }
}

// Whether both are of one file of one disk.
fn is_same(one: &Metadata, other: &Metadata) -> bool {
    one.dev() == other.dev() && one.ino() == other.ino()
}

fn exchanged() -> io::Error {
    io::Error::new(ErrorKind::Other, "another file was put in its place")
}

// A new empty file at a path, open for reading and writing. A file or a link that stood there is
// unlinked: what the link leads to and what is read by the file's other names stay as they are.
pub fn make<R: Files>(rt: &R, full: &str) -> io::Result<R::File> {
    match look(rt, full)? {
        None => create(rt, full),
        Some(about) => {
            if !about.is_file() && !about.is_symlink() {
                return Err(not_regular());
            }
            fs::remove_file(rt, full)?;
            create(rt, full).map_err(halfway)
        }
    }
}

fn create<R: Files>(rt: &R, full: &str) -> io::Result<R::File> {
    OpenOptions::new()
        .read(true)
        .write(true)
        .create_new(true)
        .open(rt, full)
}

// Want of memory in a call that has changed something already is a fault like any other.
fn halfway(reason: io::Error) -> io::Error {
    if reason.kind() == ErrorKind::OutOfMemory {
        return io::Error::new(ErrorKind::Other, "memory ran out halfway");
    }
    reason
}

// Reads as many bytes as the file has from the offset on, up to the slice's length.
pub fn read_on<F: FileExt>(file: &F, offset: u64, into: &mut [u8]) -> io::Result<usize>
    ensures { IfOk result (λ n. n ≤ length into.new) }
{
    let mut count = 0;
    for _ in 0..u64::MAX {
        if count >= into.len() {
            break;
        }
        // No file is so long.
        let Ok(from) = i64::try_from(offset.saturating_add(count as u64)) else {
            break;
        };
        match file.read_at(&mut into[count..], from as u64) {
            Ok(0) => break,
            Ok(n) => count += n,
            Err(reason) => {
                if reason.kind() != ErrorKind::Interrupted {
                    return Err(reason);
                }
            }
        }
    }
    Ok(count)
}

// Writes all the bytes from the offset on.
pub(crate) fn write_on<F: FileExt>(file: &F, offset: u64, bytes: &[u8]) -> io::Result<()> {
    let mut count = 0;
    for _ in 0..u64::MAX {
        if count >= bytes.len() {
            break;
        }
        let from = offset.saturating_add(count as u64);
        match file.write_at(&bytes[count..], from) {
            Ok(0) => return Err(io::Error::from(ErrorKind::WriteZero)),
            Ok(n) => count += n,
            Err(reason) => {
                if reason.kind() == ErrorKind::Interrupted {
                    continue;
                }
                return Err(if count == 0 { reason } else { halfway(reason) });
            }
        }
    }
    Ok(())
}

// Renames a regular file.
pub fn rename<R: Files>(rt: &R, from: &str, to: &str) -> io::Result<()> {
    match look(rt, from)? {
        Some(about) => {
            if about.is_file() {
                return fs::rename(rt, from, to);
            }
            Err(not_regular())
        }
        None => Err(io::Error::from(ErrorKind::NotFound)),
    }
}

// Puts a synced copy of a file in its place, which is made beside it.
pub fn renew<R: Files>(rt: &R, full: &str, beside: &str, file: &R::File) -> io::Result<R::File>
where
    R::File: FileExt,
{
    let renewed = make(rt, beside)?;
    copy(file, &renewed)?;
    renewed.sync_data()?;
    fs::rename(rt, beside, full)?;
    Ok(renewed)
}

// Writes what one file has to another, which is empty.
fn copy<F: FileExt>(from: &F, to: &F) -> io::Result<()> {
    let mut piece = [0; 4096];
    let mut offset: u64 = 0;
    for _ in 0..u64::MAX {
        let count = read_on(from, offset, &mut piece)?;
        if count == 0 {
            break;
        }
        write_on(to, offset, &piece[..count])?;
        offset = offset.saturating_add(count as u64);
    }
    Ok(())
}

// Makes a folder's entries stable.
pub fn sync_folder<R: Files>(rt: &R, folder: &str) -> io::Result<()> {
    fs::open(rt, folder)?.sync_all()
}
