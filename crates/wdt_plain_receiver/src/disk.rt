//! A plain disk: what its files read, and which of the calls that change it fail.
use crate::tree::FILES;
use std::alloc::Global;
use wdt_units::NoMemory;

/// The files of the tree as they read, whether a log is there, and which calls fail. Calls are numbered from 1.
#[derive(Drop)]
pub struct Disk {
    bytes: [Vec<u8>; FILES],
    is_made: [bool; FILES],
    has_log: bool,
    calls: u32,
    fails: [u32; 2],
    // The number of the call at which the machine goes down, or 0.
    stop: u32,
}

impl Disk {
    /// A disk without a file, of which these calls fail.
    pub fn of(alloc: Global, fails: [u32; 2]) -> Disk {
        Disk {
            bytes: [
                Vec::new(alloc),
                Vec::new(alloc),
                Vec::new(alloc),
                Vec::new(alloc),
            ],
            is_made: [false; FILES],
            has_log: false,
            calls: 0,
            fails,
            stop: 0,
        }
    }

    /// The machine goes down at this call, counted from now on.
    pub fn stop_at(&mut self, calls: u32) {
        self.stop = self.calls.saturating_add(calls);
    }

    /// Whether the machine went down at the last call.
    pub fn is_down(&self) -> bool {
        self.stop > 0 && self.calls >= self.stop
    }

    /// The machine is up again, and the files of a log are there or not.
    pub fn restart(&mut self, has_log: bool) {
        self.stop = 0;
        self.has_log = has_log;
    }

    /// A call that changes the disk, and whether it succeeds.
    pub fn call(&mut self) -> bool {
        self.calls = self.calls.saturating_add(1);
        self.calls != self.stop && !self.fails.contains(&self.calls)
    }

    /// A log is opened, which is made first where none is there.
    pub fn open_log(&mut self) -> bool {
        if self.has_log {
            return self.call();
        }
        // It is made beside its place, written, synced, and put there.
        self.has_log = self.call() && self.call() && self.call() && self.call();
        self.has_log
    }

    /// Whether a log is there.
    pub fn has_log(&self) -> bool {
        self.has_log
    }

    /// An empty file is made.
    pub fn make(&mut self, file: usize) -> bool {
        if !self.call() {
            return false;
        }
        self.bytes[file % FILES].clear();
        self.is_made[file % FILES] = true;
        true
    }

    /// Bytes are written to a file from a position on. What is left out before them reads as 0.
    pub fn write(&mut self, file: usize, offset: u64, bytes: &[u8]) -> Result<bool, NoMemory> {
        if !self.call() {
            return Ok(false);
        }
        put(&mut self.bytes[file % FILES], offset as usize, bytes)?;
        Ok(true)
    }

    /// How a file reads, where it is there.
    pub fn shown(&self, file: usize) -> Option<&[u8]> {
        if self.is_made[file % FILES] {
            Some(&self.bytes[file % FILES])
        } else {
            None
        }
    }

    /// A file reads so from now on.
    pub fn set(&mut self, file: usize, found: Option<&[u8]>) -> Result<(), NoMemory> {
        self.bytes[file % FILES].clear();
        self.is_made[file % FILES] = found.is_some();
        if let Some(bytes) = found {
            self.bytes[file % FILES].extend_from_slice(bytes)?;
        }
        Ok(())
    }
}

// Puts bytes in the place of others, or behind them.
fn put(whole: &mut Vec<u8>, offset: usize, bytes: &[u8]) -> Result<(), NoMemory> {
    let Some(end) = offset.checked_add(bytes.len()) else {
        return Ok(());
    };
    if whole.len() < end {
        whole.resize(end, 0)?;
    }
    if offset <= end && end <= whole.len() {
        whole[offset..end].copy_from_slice(bytes);
    }
    Ok(())
}
