// How the open files of a folder are synced.
use crate::handle::{Due, Handle};
use crate::handles::{Handles, not_open};
use crate::syncs::Syncs;
use crate::trouble::Fault;
use std::alloc::Global;
use std::fs::OpenFile;

impl<F: OpenFile + Drop> Handles<F> {
    // Syncs the files that were noted. It takes no memory but for a fault's text.
    pub fn settle<S: Syncs<F>>(&mut self, alloc: Global, syncs: &mut S) -> Result<(), Fault> {
        if !self.is_noted {
            return Ok(());
        }
        self.settle_from(alloc, syncs, Due::Noted)
    }

    // Syncs the files of which so much is due or more, all together. It takes no memory but for a fault's
    // text.
    pub fn settle_from<S: Syncs<F>>(
        &mut self,
        alloc: Global,
        syncs: &mut S,
        least: Due,
    ) -> Result<(), Fault> {
        let count = self.take_due(least);
        syncs.sync(&mut self.leaving);
        let is_whole = self.leaving.len() == count;
        let fault = first_fault(alloc, &mut self.leaving);
        self.put_back();
        match fault {
            Some(fault) => Err(fault),
            None if is_whole => {
                self.is_noted = false;
                Ok(())
            }
            None => Err(not_open(alloc)),
        }
    }

    // Takes out those of which so much is due, and counts them.
    fn take_due(&mut self, least: Due) -> usize {
        let mut count: usize = 0;
        for at in 0..self.list.len() {
            if self.is_as_due(at, least) {
                if let Some(handle) = self.list[at].take() {
                    let _ = self.leaving.push(handle);
                    count = count.saturating_add(1);
                }
            }
        }
        count
    }

    fn is_as_due(&self, at: usize, least: Due) -> bool {
        match self.list.get(at) {
            Some(Some(handle)) => handle.due >= least,
            _ => false,
        }
    }

    // Puts back those that were taken out.
    fn put_back(&mut self) {
        for _ in 0..self.leaving.len() {
            match self.leaving.pop() {
                Some(handle) => self.put(handle),
                None => break,
            }
        }
    }

    // Syncs a log, also where nothing was written to it.
    pub fn sync(&mut self, alloc: Global, at: usize) -> Result<(), Fault> {
        let Some(handle) = self.get(at) else {
            return Err(not_open(alloc));
        };
        if handle.due == Due::Synced {
            handle.due = Due::Opened;
        }
        handle.sync();
        match handle.fault(alloc) {
            Some(fault) => Err(fault),
            None => Ok(()),
        }
    }
}

// The fault of the first file of which a sync has failed: where there is none, of one that isn't synced.
fn first_fault<F: Drop>(alloc: Global, files: &mut Vec<Handle<F>>) -> Option<Fault> {
    let at = first_unstable(files)?;
    files.get_mut(at)?.fault(alloc)
}

fn first_unstable<F: Drop>(files: &Vec<Handle<F>>) -> Option<usize> {
    let mut untried = None;
    for at in 0..files.len() {
        match files[at].due {
            Due::Synced => {}
            Due::Failed => return Some(at),
            _ => untried = Some(at),
        }
    }
    untried
}
