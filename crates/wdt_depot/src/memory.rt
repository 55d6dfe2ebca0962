//! A depot in memory.
ghost use Rattle.std.specs.Prelude.{IsTrue, map};
ghost use Rattle.wdt_depot.specs.Spots.{all_placed, entered_view};
ghost use Rattle.wdt_depot.specs.View.{index_of};

mod bytes;
mod calls;
mod changes;
mod content;
mod index;
mod keeping;
mod making;
mod picking;
mod place;
mod reopening;
mod stops;
mod store;
mod taken;

use crate::health::Health;
use crate::memory::store::Store;
use crate::spots::Entered;

/// Files in memory. It tells its disk at each moment, by a record of what each changing call overwrote.
/// The changing calls are numbered from 1, behind a stop too, but for those that are refused for memory.
/// Those whose numbers it is given fail by themselves and change nothing; a stop comes before that. No
/// other call fails by itself.
#[derive(Debug, Drop)]
pub struct MemDepot {
    pub(crate) store: Store,
    pub(crate) health: Health,
    pub(crate) spots: Vec<Entered>,
    ghost placed: { IsTrue (all_placed (map entered_view spots.items) (index_of store.index)) },
}
