//! Why there is no plan.
ghost use Rattle.std.specs.Prelude.{◌≡◌};
ghost use Rattle.wdt_discover.specs.declared.fail.PlanFail.TheVariants.{NoMemory as OutOfMemory};

use thiserror::Error;
use wdt_units::{Name, NoMemory};

/// Why there is no plan.
#[derive(Debug, Drop, Error)]
pub enum PlanFail {
    /// The destination names a file that the tree lacks or has with another size or stamp. Of each
    /// the size in bytes is told and then the stamp.
    #[error("the destination's {} is not that of the tree", .path.text())]
    Stale {
        path: Name,
        /// What the destination says of the file.
        logged: (u64, u64),
        /// What the tree says of it, or None where the tree lacks it.
        found: Option<(u64, u64)>,
    },
    /// There would be more than `MAX_BLOCKS` blocks.
    #[error("too many blocks {count}")]
    TooManyBlocks {
        count: u64,
    },
    #[error("out of memory")]
    NoMemory,
}

impl From<NoMemory> for PlanFail {
    ghost from_gives = { λ _ e. e ≡ OutOfMemory };

    fn from(_: NoMemory) -> PlanFail {
        PlanFail::NoMemory
    }
}
