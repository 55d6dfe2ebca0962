// The stops of a depot in memory.
ghost use Rattle.wdt_depot.specs.Picks.{picked_disk};
ghost use Rattle.wdt_depot.specs.PickLaws.{picks_image};

use crate::crash::Crash;
use crate::memory::MemDepot;
use crate::memory::reopening::reopen_all;

impl Crash for MemDepot {
    ghost picked = { λ d pick. picked_disk d pick };

    fn arm(&mut self, calls: u32, pick: u64) {
        self.health.armed = Some((calls, pick));
    }

    fn struck(&self) -> bool {
        self.health.struck.is_some()
    }

    fn reopen(&mut self) {
        let pick = self.health.struck.unwrap_or(0);
        reopen_all(&mut self.store, pick);
        self.health.struck = None;
        self.health.own_then = self.health.own;
        self.spots.clear();
    }

    ghost picks_image = { λ d pick. picks_image d pick };
}
