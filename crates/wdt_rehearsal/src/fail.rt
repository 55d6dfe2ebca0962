//! Why a rehearsal ended early.
ghost use Rattle.std.specs.Prelude.{◌≡◌};
ghost use Rattle.wdt_rehearsal.specs.Failures.{of_check, of_depot, of_planning, of_source};

use thiserror::Error;
use wdt_depot::DepotFail;
use wdt_discover::PlanFail;
use wdt_source::SourceFail;
use wdt_tree::ManifestFail;

/// Why a rehearsal ended early.
#[derive(Debug, Drop, Error)]
pub enum RehearseFail {
    /// The source failed, and has counted a fault.
    #[error("the source failed")]
    Source,
    /// The depot failed, and has counted a fault. Some files may stand in it.
    #[error("the disk failed")]
    Disk,
    /// The listing is no tree's, for this; never for want of memory.
    #[error("{0}")]
    Listing(ManifestFail),
    /// The tree has too many blocks; never for a stale file, or for want of memory.
    #[error("{0}")]
    Plan(PlanFail),
    #[error("out of memory")]
    NoMemory,
}

impl From<SourceFail> for RehearseFail {
    ghost from_gives = { λ fail e. e ≡ of_source fail };

    fn from(fail: SourceFail) -> RehearseFail {
        match fail {
            SourceFail::Failed => RehearseFail::Source,
            SourceFail::NoMemory => RehearseFail::NoMemory,
        }
    }
}

impl From<DepotFail> for RehearseFail {
    ghost from_gives = { λ fail e. e ≡ of_depot fail };

    fn from(fail: DepotFail) -> RehearseFail {
        match fail {
            DepotFail::Failed => RehearseFail::Disk,
            DepotFail::NoMemory => RehearseFail::NoMemory,
        }
    }
}

impl From<ManifestFail> for RehearseFail {
    ghost from_gives = { λ fail e. e ≡ of_check fail };

    fn from(fail: ManifestFail) -> RehearseFail {
        match fail {
            ManifestFail::NoMemory => RehearseFail::NoMemory,
            refused => RehearseFail::Listing(refused),
        }
    }
}

impl From<PlanFail> for RehearseFail {
    ghost from_gives = { λ fail e. e ≡ of_planning fail };

    fn from(fail: PlanFail) -> RehearseFail {
        match fail {
            PlanFail::NoMemory => RehearseFail::NoMemory,
            refused => RehearseFail::Plan(refused),
        }
    }
}
