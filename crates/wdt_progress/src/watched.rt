//! A depot whose files are counted as they come.
ghost use Rattle.std.specs.Prelude.{◌≡◌};

use crate::line::Come;
use crate::progress::Progress;
use std::marker::Model;
use std::rt::Clock;
use wdt_depot::{Depot, DepotFail};
use wdt_units::{Failed, Name, Spot};

/// The depot behind it, call for call. What is made and written there is counted, but for the
/// receiver's own files. Contracts see it as that depot.
#[derive(Drop)]
pub struct Watched<D: Depot + Drop, R: Clock + Eprint + Drop> {
    depot: D,
    progress: Option<Progress<R>>,
    // Where the log is entered.
    own: Option<Spot>,
}

impl<D: Depot + Drop, R: Clock + Eprint + Drop> Model for Watched<D, R> {
    ghost Value = { D };

    ghost view = { λ watched. watched.depot };
}

impl<D: Depot + Drop, R: Clock + Eprint + Drop> Watched<D, R> {
    /// Counts what is written into the depot; with None nothing is shown.
    pub fn of(depot: D, progress: Option<Progress<R>>) -> Watched<D, R>
        ensures { result ≡ depot }
    {
        Watched {
            depot,
            progress,
            own: None,
        }
    }

    /// The depot behind it.
    pub fn depot(&self) -> &D
        ensures { result.now ≡ self.now }
    {
        &self.depot
    }
}

// Keeps where one of the receiver's own files is entered.
fn note_own(own: &mut Option<Spot>, path: &Name, spot: Spot) {
    if path.reserved() {
        *own = Some(spot);
    }
}

// Counts bytes that have come, where that is shown.
fn count_bytes<R: Clock + Eprint + Drop>(
    progress: &Option<Progress<R>>,
    have_come: bool,
    bytes: u64,
) {
    if let (true, Some(progress)) = (have_come, progress) {
        progress.count(Come { files: 0, bytes });
    }
}

impl<D: Depot + Drop, R: Clock + Eprint + Drop> Depot for Watched<D, R> {
    ghost state = { λ depot. D.state depot };

    fn make(&mut self, path: &Name) -> Result<(), DepotFail> {
        let made = self.depot.make(path);
        if let (Ok(()), Some(progress)) = (&made, &self.progress) {
            if !path.reserved() {
                progress.count(Come { files: 1, bytes: 0 });
            }
        }
        made
    }

    fn enter(&mut self, path: &Name) -> Result<Option<Spot>, DepotFail> {
        let entered = self.depot.enter(path);
        if let Ok(Some(spot)) = &entered {
            note_own(&mut self.own, path, *spot);
        }
        entered
    }

    fn need(&mut self, path: &Name) -> Result<Spot, DepotFail> {
        let entered = self.depot.need(path);
        if let Ok(spot) = &entered {
            note_own(&mut self.own, path, *spot);
        }
        entered
    }

    fn leave(&mut self, spot: Spot) {
        if self.own == Some(spot) {
            self.own = None;
        }
        self.depot.leave(spot)
    }

    fn length(&mut self, spot: Spot) -> Result<u64, DepotFail> {
        self.depot.length(spot)
    }

    fn read_at(&mut self, spot: Spot, offset: u64, into: &mut [u8]) -> Result<usize, DepotFail> {
        self.depot.read_at(spot, offset, into)
    }

    fn write_at(&mut self, spot: Spot, offset: u64, bytes: &[u8]) -> Result<(), DepotFail> {
        let written = self.depot.write_at(spot, offset, bytes);
        let is_file = self.own != Some(spot);
        count_bytes(
            &self.progress,
            written.is_ok() & is_file,
            bytes.len() as u64,
        );
        written
    }

    fn sync(&mut self, spot: Spot) -> Result<(), Failed> {
        self.depot.sync(spot)
    }

    fn put_in_place(&mut self, from: &Name, to: &Name) -> Result<(), DepotFail> {
        self.depot.put_in_place(from, to)
    }

    ghost sound = { λ depot. D.sound depot };

    ghost spots_stand = { λ depot. D.spots_stand depot };
}
