//! The stops of a folder. A call that a stop bars is passed on to nothing.
ghost use Rattle.wdt_depot.specs.Picks.{picked_disk};
ghost use Rattle.wdt_depot.specs.PickLaws.{picks_image};

use crate::depot::FolderDepot;
use crate::syncs::Syncs;
use std::os::unix::fs::FileExt;
use std::rt::Files;
use wdt_depot::Crash;

impl<R: Files + AllocGlobal + Clone + Drop, S: Syncs<R::File> + Drop> Crash for FolderDepot<R, S>
where
    R::File: FileExt,
{
    ghost picked = { λ d pick. picked_disk d pick };

    fn arm(&mut self, calls: u32, pick: u64) {
        self.health.armed = Some((calls, pick));
    }

    fn struck(&self) -> bool {
        self.health.struck.is_some()
    }

    fn reopen(&mut self) {
        self.folder.reopen();
        self.health.struck = None;
        self.health.own_then = self.health.own;
        self.spots.clear();
    }

    ghost picks_image = { λ d pick. picks_image d pick };
}
