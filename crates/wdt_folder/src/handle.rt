//! An open file, and what is due of it.
use crate::trouble::Fault;
use std::alloc::Global;
use std::fs::OpenFile;
use std::io::{self, ErrorKind};

// What is to be done for a file before its bytes are stable, from the least on.
#[derive(Clone, Copy, PartialEq, Eq, PartialOrd, Ord)]
pub(crate) enum Due {
    // It was synced, and nothing was written since.
    Synced,
    // Nothing was written since it was opened. An earlier session may have written something.
    Opened,
    // Something was written since its last sync.
    Written,
    // A sync was asked for, and has to be made before a log is touched.
    Noted,
    // A sync has failed. What was written may be lost, and a later one may answer Ok for it.
    Failed,
}

/// An open file of a folder's depot.
#[derive(Drop)]
pub struct Handle<F: Drop> {
    // Its full path: an empty one where perhaps no path leads to it any more.
    pub(crate) full: String,
    pub(crate) file: F,
    // Whether it is open for writing too.
    pub(crate) writes: bool,
    pub(crate) due: Due,
    // Why its last sync failed.
    pub(crate) failed: Option<io::Error>,
    // How many spots are on it, and whether it was used since it was last passed over.
    pub(crate) spots: u32,
    pub(crate) is_recent: bool,
    // Where it is in the table of open files.
    pub(crate) place: usize,
}

impl<F: Drop> Handle<F> {
    // A file that was just opened.
    pub(crate) fn of(full: String, file: F, writes: bool, due: Due, place: usize) -> Handle<F> {
        Handle {
            full,
            file,
            writes,
            due,
            failed: None,
            spots: 0,
            is_recent: true,
            place,
        }
    }

    // Why it isn't stable: None where it is.
    pub(crate) fn fault(&mut self, alloc: Global) -> Option<Fault> {
        if self.due == Due::Synced {
            return None;
        }
        let reason = match self.failed.take() {
            Some(reason) => reason,
            None => io::Error::new(ErrorKind::Other, "no sync of it was tried"),
        };
        Some(Fault::at(alloc, "syncing", self.full.as_str(), reason))
    }
}

impl<F: OpenFile + Drop> Handle<F> {
    /// Makes the file's bytes stable, and says whether they are. The reason of a failure is kept; a sync
    /// that has failed isn't tried again, nor one that has gone well.
    pub fn sync(&mut self) -> bool {
        match self.due {
            Due::Synced => return true,
            Due::Failed => return false,
            _ => {}
        }
        match self.file.sync_data() {
            Ok(()) => {
                self.due = Due::Synced;
                true
            }
            Err(reason) => {
                self.due = Due::Failed;
                self.failed = Some(reason);
                false
            }
        }
    }
}
