//! A runtime that notes its calls of the file system.
use std::alloc::{AllocError, Allocator, Global};
use std::cell::{Cell, RefCell};
use std::fs::{Files, Metadata, OpenFile, OpenOptions};
use std::io::{self, Read, Seek, SeekFrom, Write};
use std::os::unix::fs::FileExt;
use std::rc::Rc;

// No call reads or writes more bytes.
const MOST: usize = 4;

/// The calls since they were last asked for, in words but for those that look, and what is to happen
/// to a call.
#[derive(Drop)]
pub struct Notes {
    root: String,
    calls: RefCell<String>,
    looks: Cell<u32>,
    fails: RefCell<String>,
    errno: Cell<i32>,
    exchanges: RefCell<String>,
}

impl Notes {
    pub fn of(root: String) -> Notes {
        let alloc = *root.allocator();
        Notes {
            root,
            calls: RefCell::new(String::new(alloc)),
            looks: Cell::new(0),
            fails: RefCell::new(String::new(alloc)),
            errno: Cell::new(0),
            exchanges: RefCell::new(String::new(alloc)),
        }
    }

    /// The next call of these words fails, for this reason of the system.
    pub fn fail(&self, call: &str, errno: i32) -> Result<(), AllocError> {
        self.errno.set(errno);
        set(&self.fails, call)
    }

    /// The file `aside` takes the place of this one once that is looked at.
    pub fn exchange(&self, path: &str) -> Result<(), AllocError> {
        set(&self.exchanges, path)
    }

    /// How many calls looked since that was last asked for.
    pub fn take_looks(&self) -> u32 {
        self.looks.replace(0)
    }

    /// The other calls since they were last asked for.
    pub fn take(&self) -> Result<String, AllocError> {
        let empty = String::new(*self.root.allocator());
        match self.calls.try_replace(empty) {
            Ok(calls) => Ok(calls),
            Err(_) => Err(AllocError),
        }
    }

    // Notes a call on a path that looks, and fails it where that was asked for.
    fn look(&self, call: &str, path: &str) -> io::Result<()> {
        self.looks.set(self.looks.get().saturating_add(1));
        let words = self.words(call, path)?;
        self.judge(words.as_str())
    }

    // The same of any other call.
    fn note(&self, call: &str, path: &str) -> io::Result<()> {
        let words = self.words(call, path)?;
        if let Ok(mut calls) = self.calls.try_borrow_mut() {
            if !calls.is_empty() {
                calls.push_str(", ")?;
            }
            calls.push_str(words.as_str())?;
        }
        self.judge(words.as_str())
    }

    fn words(&self, call: &str, path: &str) -> Result<String, AllocError> {
        let path = self.name(path);
        format!(in *self.root.allocator(); "{call} {path}")
    }

    fn judge(&self, words: &str) -> io::Result<()> {
        if is_it(&self.fails, words) {
            return Err(io::Error::from_raw_os_error(self.errno.get()));
        }
        Ok(())
    }

    // A path below the root; `.` is the root, and `above` what it is in.
    fn name<'a>(&self, path: &'a str) -> &'a str {
        match path.strip_prefix(self.root.as_str()) {
            Some(below) => below.strip_prefix('/').unwrap_or("."),
            None => "above",
        }
    }

    fn is_exchanged(&self, path: &str) -> bool {
        is_it(&self.exchanges, self.name(path))
    }
}

fn set(cell: &RefCell<String>, words: &str) -> Result<(), AllocError> {
    if let Ok(mut text) = cell.try_borrow_mut() {
        text.clear();
        text.push_str(words)?;
    }
    Ok(())
}

// Whether these are the words that were set, which are no longer set then.
fn is_it(cell: &RefCell<String>, words: &str) -> bool {
    match cell.try_borrow_mut() {
        Ok(mut text) => {
            let is_it = text.as_str() == words;
            if is_it {
                text.clear();
            }
            is_it
        }
        Err(_) => false,
    }
}

/// A runtime that notes what it is asked of the file system, and asks another.
#[derive(Drop)]
pub struct Watched<R: Drop> {
    pub rt: R,
    pub notes: Rc<Notes>,
}

impl<R: Clone + Drop> Clone for Watched<R> {
    fn clone(&self) -> Result<Watched<R>, AllocError> {
        Ok(Watched {
            rt: self.rt.clone()?,
            notes: self.notes.clone()?,
        })
    }
}

impl<R: Alloc<A = Global> + Drop> Alloc for Watched<R> {
    type A = Global;

    fn alloc(&self) -> Global {
        self.rt.alloc()
    }
}

/// A file of such a runtime.
#[derive(Drop)]
pub struct WatchedFile<F: Drop> {
    file: F,
    path: String,
    notes: Rc<Notes>,
}

impl<R: Files + Alloc<A = Global> + Drop> Files for Watched<R> {
    type File = WatchedFile<R::File>;

    type Dir = R::Dir;

    fn open_file(&self, how: &OpenOptions, path: &str) -> io::Result<WatchedFile<R::File>> {
        if how.asks_create_new() {
            self.notes.note("new", path)?;
        } else {
            self.notes.look("open", path)?;
        }
        let file = self.rt.open_file(how, path)?;
        Ok(WatchedFile {
            file,
            path: String::from_str(self.rt.alloc(), path)?,
            notes: self.notes.clone()?,
        })
    }

    fn open_dir(&self, path: &str) -> io::Result<R::Dir> {
        self.notes.look("list", path)?;
        self.rt.open_dir(path)
    }

    fn metadata(&self, path: &str) -> io::Result<Metadata> {
        self.notes.look("follow", path)?;
        self.rt.metadata(path)
    }

    fn symlink_metadata(&self, path: &str) -> io::Result<Metadata> {
        self.notes.look("look", path)?;
        let about = self.rt.symlink_metadata(path);
        if self.notes.is_exchanged(path) {
            let root = self.notes.root.as_str();
            let aside = format!(in self.rt.alloc(); "{root}/aside")?;
            self.rt.rename(aside.as_str(), path)?;
        }
        about
    }

    fn copy(&self, _: &str, _: &str) -> io::Result<u64> {
        Err(io::Error::from(io::ErrorKind::Unsupported))
    }

    fn rename(&self, from: &str, to: &str) -> io::Result<()> {
        self.notes.note("move", from)?;
        self.notes.note("to", to)?;
        self.rt.rename(from, to)
    }

    fn remove_file(&self, path: &str) -> io::Result<()> {
        self.notes.note("unlink", path)?;
        self.rt.remove_file(path)
    }

    fn create_dir(&self, path: &str) -> io::Result<()> {
        self.notes.note("mkdir", path)?;
        self.rt.create_dir(path)
    }

    fn remove_dir(&self, path: &str) -> io::Result<()> {
        self.rt.remove_dir(path)
    }

    fn remove_dir_all<B: Allocator>(&self, alloc: B, path: &str) -> io::Result<()> {
        self.rt.remove_dir_all(alloc, path)
    }
}

impl<F: OpenFile + Drop> OpenFile for WatchedFile<F> {
    fn metadata(&self) -> io::Result<Metadata> {
        self.file.metadata()
    }

    fn set_len(&self, size: u64) -> io::Result<()> {
        self.file.set_len(size)
    }

    fn sync_all(&self) -> io::Result<()> {
        self.notes.note("fsync", self.path.as_str())?;
        self.file.sync_all()
    }

    fn sync_data(&self) -> io::Result<()> {
        self.notes.note("sync", self.path.as_str())?;
        self.file.sync_data()
    }
}

impl<F: FileExt + Drop> FileExt for WatchedFile<F> {
    fn read_at(&self, buf: &mut [u8], offset: u64) -> io::Result<usize> {
        self.notes.look("read", self.path.as_str())?;
        if buf.len() > MOST {
            return self.file.read_at(&mut buf[..MOST], offset);
        }
        self.file.read_at(buf, offset)
    }

    fn write_at(&self, buf: &[u8], offset: u64) -> io::Result<usize> {
        let end = offset.saturating_add(buf.len() as u64);
        let call = format!(in *self.path.allocator(); "write {offset}..{end}")?;
        self.notes.note(call.as_str(), self.path.as_str())?;
        if buf.len() > MOST {
            return self.file.write_at(&buf[..MOST], offset);
        }
        self.file.write_at(buf, offset)
    }
}

impl<F: Read + Drop> Read for WatchedFile<F> {
    fn read(&mut self, buf: &mut [u8]) -> io::Result<usize> {
        self.file.read(buf)
    }
}

impl<F: Write + Drop> Write for WatchedFile<F> {
    fn write(&mut self, buf: &[u8]) -> io::Result<usize> {
        self.file.write(buf)
    }

    fn flush(&mut self) -> io::Result<()> {
        self.file.flush()
    }
}

impl<F: Seek + Drop> Seek for WatchedFile<F> {
    fn seek(&mut self, to: SeekFrom) -> io::Result<u64> {
        self.file.seek(to)
    }
}
