//! A destination that one transfer at a time holds.
use std::fs::{self, File, TryLockError};
use std::rt::Files;

/// Whether a transfer into a folder may begin.
#[derive(Drop)]
pub enum Hold {
    /// The folder is this transfer's for as long as this value lives, or its process.
    Held(File),
    /// Another transfer holds it.
    Taken,
    /// The file system tells nothing of that.
    Untold,
}

/// Holds a folder by a lock, which the system gives back as the process ends, however it ends. A folder that
/// isn't there is made first, where the one above it is there.
pub fn take_hold<R: Files<File = File> + AllocGlobal>(rt: &R, folder: &str) -> Hold {
    let _ = fs::create_dir(rt, folder);
    let Ok(opened) = File::open(rt, folder) else {
        return Hold::Untold;
    };
    match opened.try_lock() {
        Ok(()) => Hold::Held(opened),
        Err(TryLockError::WouldBlock) => Hold::Taken,
        Err(TryLockError::Error(_)) => Hold::Untold,
    }
}
