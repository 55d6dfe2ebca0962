// Files that stay open, by their paths, and the spots on them.
use crate::handle::{Due, Handle};
use crate::trouble::{Fault, Trouble};
use std::alloc::{AllocError, Global};
use std::collections::BTreeSet;
use std::io::{self, ErrorKind};
use wdt_units::Spot;

// So many files stay open; far fewer can be entered.
const MOST: usize = 256;

// So many spots can be entered.
const SPOTS: usize = 32;

// Of so many closed files it is known that they are stable: more than a batch of small ones has.
const MOST_CLOSED: usize = 8_192;

// The files that were used lately and those that are entered, each at a place of its own while it is
// open. Each path has one at most. A spot has the place of its file by its number.
#[derive(Drop)]
pub struct Handles<F: Drop> {
    pub(crate) list: Vec<Option<Handle<F>>>,
    // The places where none is.
    free: Vec<usize>,
    // The places of those that have a path, in the order of the paths.
    order: Vec<usize>,
    places: [usize; SPOTS],
    // Where the next to be closed is looked for.
    hand: usize,
    // Whether a sync may be noted.
    pub(crate) is_noted: bool,
    // Those that are being synced; with room for all, so that a sync takes no memory.
    pub(crate) leaving: Vec<Handle<F>>,
    // The paths of files that were closed behind a sync, with nothing written since. Some may be left out.
    closed: BTreeSet<String>,
}

impl<F: Drop> Handles<F> {
    pub fn none(alloc: Global) -> Handles<F> {
        Handles {
            list: Vec::new(alloc),
            free: Vec::new(alloc),
            order: Vec::new(alloc),
            places: [0; SPOTS],
            hand: 0,
            is_noted: false,
            leaving: Vec::new(alloc),
            closed: BTreeSet::new(alloc),
        }
    }

    // The rank of a path: where it is in the order, or where it would be.
    fn rank(&self, full: &str) -> Result<usize, usize> {
        self.order
            .binary_search_by(|at| self.path_at(*at).as_bytes().cmp(full.as_bytes()))
    }

    fn path_at(&self, at: usize) -> &str {
        match self.list.get(at) {
            Some(Some(handle)) => handle.full.as_str(),
            _ => "",
        }
    }

    // Where the file of a path is.
    pub fn find(&self, full: &str) -> Option<usize> {
        let rank = self.rank(full).ok()?;
        self.order.get(rank).copied()
    }

    // Takes a path out of the order, and answers where its file is.
    fn unlist(&mut self, full: &str) -> Option<usize> {
        match self.rank(full) {
            Ok(rank) if rank < self.order.len() => Some(self.order.remove(rank)),
            _ => None,
        }
    }

    // Puts the path of the file at a place into the order, which has room for it.
    fn list_as(&mut self, full: &str, at: usize) {
        match self.rank(full) {
            Err(rank) if rank <= self.order.len() => {
                let _ = self.order.insert(rank, at);
            }
            _ => {}
        }
    }

    pub fn get(&mut self, at: usize) -> Option<&mut Handle<F>> {
        self.list.get_mut(at)?.as_mut()
    }

    // The file of a spot.
    pub fn of(&mut self, spot: Spot) -> Result<&mut Handle<F>, Trouble> {
        let at = self.place_of(spot);
        match self.get(at) {
            Some(handle) => Ok(handle),
            // It isn't entered.
            None => Err(Trouble::Fault(None)),
        }
    }

    pub fn place_of(&self, spot: Spot) -> usize {
        match self.places.get(usize::from(spot.0)) {
            Some(at) => *at,
            None => MOST,
        }
    }

    // The file that has to be closed before another is opened, where as many are open as may be: one
    // that isn't entered, and wasn't used since it was last passed over. So each use is passed over once
    // at most, and no call looks through them all again.
    pub fn surplus(&mut self) -> Option<usize> {
        if self.list.len().saturating_sub(self.free.len()) < MOST {
            return None;
        }
        for _ in 0..2 * MOST + 2 {
            let at = self.hand;
            self.hand = if at < MOST { at + 1 } else { 0 };
            if let Some(handle) = self.get(at) {
                if handle.spots == 0 {
                    if !handle.is_recent {
                        return Some(at);
                    }
                    handle.is_recent = false;
                }
            }
        }
        None
    }

    // Makes room for one more file.
    pub fn reserve(&mut self) -> Result<(), AllocError> {
        let all = self.list.len().saturating_add(1);
        self.list.reserve(1)?;
        self.free.reserve(all)?;
        self.order.reserve(1)?;
        self.leaving.reserve(all)
    }

    // Keeps a file open in place of the path's other one, whose spots are on it from now on: a new one, which
    // is open for writing too, or one that stood there, for reading alone. The room for it was made.
    pub fn keep(&mut self, full: String, file: F, is_new: bool) -> usize {
        let due = if self.closed.remove(full.as_str()) && !is_new {
            Due::Synced
        } else {
            Due::Opened
        };
        if let Some(at) = self.find(full.as_str()) {
            if let Some(handle) = self.get(at) {
                handle.file = file;
                handle.writes = is_new;
                handle.due = due;
                handle.is_recent = true;
            }
            return at;
        }
        self.add(full, file, is_new, due)
    }

    fn add(&mut self, full: String, file: F, writes: bool, due: Due) -> usize {
        let at = match self.free.pop() {
            Some(at) => at,
            None => {
                let at = self.list.len();
                let _ = self.list.push(None);
                at
            }
        };
        self.list_as(full.as_str(), at);
        self.put(Handle::of(full, file, writes, due, at));
        at
    }

    // Puts a file at its place.
    pub(crate) fn put(&mut self, handle: Handle<F>) {
        if let Some(place) = self.list.get_mut(handle.place) {
            *place = Some(handle);
        }
    }

    // A spot is on the file at a place.
    pub fn enter(&mut self, spot: Spot, at: usize) {
        if let Some(place) = self.places.get_mut(usize::from(spot.0)) {
            *place = at;
        }
        if let Some(handle) = self.get(at) {
            handle.spots = handle.spots.saturating_add(1);
        }
    }

    pub fn leave(&mut self, spot: Spot) {
        let at = self.place_of(spot);
        if let Some(handle) = self.get(at) {
            handle.spots = handle.spots.saturating_sub(1);
            handle.is_recent = true;
        }
    }

    pub fn close(&mut self, at: usize) {
        let rank = self.rank(self.path_at(at));
        if let Ok(rank) = rank {
            if rank < self.order.len() {
                self.order.remove(rank);
            }
        }
        let Some(place) = self.list.get_mut(at) else {
            return;
        };
        if let Some(handle) = place.take() {
            let _ = self.free.push(at);
            if handle.due == Due::Synced {
                self.remember(handle.full);
            }
        }
    }

    // Remembers that the closed file of a path is stable, where there is memory for it.
    fn remember(&mut self, full: String) {
        if self.closed.len() >= MOST_CLOSED {
            self.closed.clear();
        }
        let _ = self.closed.insert(full);
    }

    // Perhaps no path leads to the file of this one any more. It is among the first to be closed, and what
    // is due of it stays due: it may still stand where the call that was to take it away has failed.
    pub fn forget(&mut self, full: &str) {
        self.closed.remove(full);
        if let Some(at) = self.unlist(full) {
            if let Some(handle) = self.get(at) {
                handle.full.clear();
                handle.is_recent = false;
            }
        }
    }

    // The file of one path is that of another from now on, in place of the other one's.
    pub fn rename(&mut self, from: &str, to: String) {
        self.forget(to.as_str());
        self.closed.remove(from);
        if let Some(at) = self.unlist(from) {
            self.list_as(to.as_str(), at);
            if let Some(handle) = self.get(at) {
                handle.full = to;
            }
        }
    }

    pub fn close_all(&mut self) {
        self.order.clear();
        self.free.clear();
        self.list.clear();
        self.closed.clear();
        self.hand = 0;
        self.is_noted = false;
    }

    // Whether a file has to be synced before it is closed.
    pub fn is_due(&mut self, at: usize) -> bool {
        match self.get(at) {
            Some(handle) => handle.due >= Due::Written,
            None => false,
        }
    }

    // Notes that a sync of a file was asked for, unless it was synced and nothing was written since. It
    // takes no memory but for a fault's text.
    pub fn note(&mut self, alloc: Global, at: usize) -> Result<(), Fault> {
        match self.get(at) {
            Some(handle) => {
                if matches!(handle.due, Due::Opened | Due::Written) {
                    handle.due = Due::Noted;
                    self.is_noted = true;
                }
                Ok(())
            }
            None => Err(not_open(alloc)),
        }
    }
}

// The fault of a sync of a file that isn't there.
pub fn not_open(alloc: Global) -> Fault {
    let reason = io::Error::from(ErrorKind::NotFound);
    Fault::of("syncing", String::new(alloc), reason)
}
