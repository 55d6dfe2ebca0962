//! Whether the other end was met.
use std::alloc::Global;
use std::sync::Arc;
use std::sync::atomic::{AtomicBool, Ordering};
use wdt_units::NoMemory;

/// Whether any lane of a process has had a connection. The acceptors of all lanes share one.
#[derive(Drop)]
pub struct Met {
    flag: Arc<AtomicBool, Global>,
}

impl Met {
    /// No lane has had one.
    pub fn new(alloc: Global) -> Result<Met, NoMemory> {
        match Arc::new(alloc, AtomicBool::new(false)) {
            Ok(flag) => Ok(Met { flag }),
            Err(_) => Err(NoMemory),
        }
    }

    /// The same, for another lane.
    pub fn share(&self) -> Result<Met, NoMemory> {
        match Arc::try_clone(&self.flag) {
            Ok(flag) => Ok(Met { flag }),
            Err(_) => Err(NoMemory),
        }
    }

    /// Notes a connection.
    pub(crate) fn note(&self) {
        self.flag.store(true, Ordering::SeqCst);
    }

    /// Whether any lane has had one.
    pub(crate) fn is_noted(&self) -> bool {
        self.flag.load(Ordering::SeqCst)
    }
}
