//! What went wrong outside, in words for a person.
use std::alloc::{AllocError, AllocFailed, Global};
use std::fmt;
use std::io::{self, ErrorKind};
use wdt_units::NoMemory;

/// What was being done, to which path, and the system's reason. The path is left out where there was no
/// memory for it.
#[derive(Debug, Drop)]
pub struct Fault {
    doing: &'static str,
    path: String,
    // A name in the folder of this path that isn't UTF-8.
    name: Option<Vec<u8>>,
    reason: io::Error,
}

impl Fault {
    pub(crate) fn of(doing: &'static str, path: String, reason: io::Error) -> Fault {
        Fault {
            doing,
            path,
            name: None,
            reason,
        }
    }

    // The fault of a name in a folder that isn't UTF-8, where it is known.
    pub(crate) fn of_name(folder: String, name: Option<Vec<u8>>, reason: io::Error) -> Fault {
        Fault {
            doing: "listing",
            path: folder,
            name,
            reason,
        }
    }

    // The fault of a path that is copied, where there is memory.
    pub(crate) fn at(alloc: Global, doing: &'static str, path: &str, reason: io::Error) -> Fault {
        let path = match String::from_str(alloc, path) {
            Ok(path) => path,
            Err(_) => String::new(alloc),
        };
        Fault::of(doing, path, reason)
    }
}

impl fmt::Display for Fault {
    fn fmt<W: fmt::Write>(&self, f: &mut fmt::Formatter<W>) -> fmt::Result {
        let doing = self.doing;
        let path = OneLine(self.path.as_str());
        let reason = &self.reason;
        if self.path.is_empty() {
            return write!(f, "{doing}: {reason}");
        }
        if let Some(name) = &self.name {
            let name = name.escape_ascii();
            return write!(f, "{doing} {path}/{name}: the name isn't UTF-8");
        }
        write!(f, "{doing} {path}: {reason}")
    }
}

/// A path on one line: a backslash is printed as two, and a line feed as a backslash and an n.
#[derive(Clone, Copy, Debug)]
pub struct OneLine<'a>(pub &'a str);

impl fmt::Display for OneLine<'_> {
    fn fmt<W: fmt::Write>(&self, f: &mut fmt::Formatter<W>) -> fmt::Result {
        for c in self.0.chars() {
            match c {
                '\\' => f.write_str("\\\\")?,
                '\n' => f.write_str("\\n")?,
                _ => f.write_char(c)?,
            }
        }
        Ok(())
    }
}

/// Why a call to the outside gave nothing.
#[derive(Drop)]
pub enum Trouble {
    /// A fault. It has no words of its own where an earlier one is its cause.
    Fault(Option<Fault>),
    NoMemory,
}

impl Trouble {
    /// The trouble that a reason of the system is. Its want of memory is no fault.
    pub fn of(doing: &'static str, path: String, reason: io::Error) -> Trouble {
        if reason.kind() == ErrorKind::OutOfMemory {
            return Trouble::NoMemory;
        }
        Trouble::Fault(Some(Fault::of(doing, path, reason)))
    }

    /// The same of a path that is copied, where there is memory.
    pub fn at(alloc: Global, doing: &'static str, path: &str, reason: io::Error) -> Trouble {
        if reason.kind() == ErrorKind::OutOfMemory {
            return Trouble::NoMemory;
        }
        Trouble::Fault(Some(Fault::at(alloc, doing, path, reason)))
    }
}

impl From<AllocError> for Trouble {
    fn from(_: AllocError) -> Trouble {
        Trouble::NoMemory
    }
}

impl From<NoMemory> for Trouble {
    fn from(_: NoMemory) -> Trouble {
        Trouble::NoMemory
    }
}

impl<T: Drop> From<AllocFailed<T>> for Trouble {
    fn from(_: AllocFailed<T>) -> Trouble {
        Trouble::NoMemory
    }
}
