//! Stops, and reopening after them.
ghost use Rattle.std.specs.Prelude.{◌≡◌, ◌↔◌, ℕ, List, IsSome, IsTrue};
ghost use Rattle.wdt_depot.specs.Disk.{Disk, IfFile, IsClean, IsImage, IsSoundDisk, seen_of};
ghost use Rattle.wdt_depot.specs.Reopening.{Reopens, armed, pick_of, reopened};

use crate::depot::Depot;

/// A depot that can be stopped at any changing call, as if its machine went down there.
pub trait Crash: Depot {
    /// The disk after a crash, by the pick. It is the same for each depot of a type.
    ghost picked: { Disk → ℕ → Disk };

    /// The changing call that is the `calls`-th from now is struck: it fails, and so does every later
    /// call until `reopen`. This replaces a stop that hasn't struck. Armed after a stop has struck,
    /// it counts from `reopen` on. With 0 calls nothing is ever struck.
    fn arm(&mut self, calls: u32, pick: u64)
        ensures { Self.state self.new ≡ armed calls pick (Self.state self.old) };

    /// Whether a stop has struck since the last `reopen`.
    fn struck(&self) -> bool
        ensures { IsTrue result ↔ IsSome (Self.state self.now).stop.struck };

    /// Leaves every spot, puts one image in place and leaves nothing pending. The image is the one
    /// that the struck stop's pick takes, or pick 0 where no stop struck. A stop that hasn't struck
    /// stays armed. It takes no memory and can't fail.
    fn reopen(&mut self)
        ensures told { Reopens picked (pick_of (Self.state self.old).stop.struck) (Self.state self.old).told (Self.state self.new).told }
        ensures state { Self.state self.new ≡ reopened (Self.state self.new).told (Self.state self.old) };

    /// A pick takes an image, and leaves nothing pending.
    ghost picks_image: { (d : Disk) (pick : ℕ) → IsSoundDisk d → IsImage d (seen_of (picked d pick)) × ((path : List ℕ) → IfFile IsClean (picked d pick path)) };
}
