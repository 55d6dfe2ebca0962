//! Why a command ended early.
ghost use Rattle.std.specs.Prelude.{◌≡◌};
ghost use Rattle.wdt_tool.specs.Failures.{of_check, of_depot, of_planning, of_reading, of_rehearsing, of_source};

use wdt_depot::DepotFail;
use wdt_discover::PlanFail;
use wdt_logfmt::ReadLogFail;
use wdt_rehearsal::RehearseFail;
use wdt_sender_fsm::RefusedKind;
use wdt_source::SourceFail;
use wdt_tree::ManifestFail;

/// Why a command ended early.
#[derive(Debug, Drop)]
pub enum CommandFail {
    /// The source failed, and has counted a fault.
    Source,
    /// The depot failed, and has counted a fault. Behind a rehearsal some files may stand in it.
    Disk,
    /// What the command was given is refused.
    Refused(RefusedKind),
    /// Memory ran out.
    NoMemory,
}

impl From<SourceFail> for CommandFail {
    ghost from_gives = { λ fail e. e ≡ of_source fail };

    fn from(fail: SourceFail) -> CommandFail {
        match fail {
            SourceFail::Failed => CommandFail::Source,
            SourceFail::NoMemory => CommandFail::NoMemory,
        }
    }
}

impl From<DepotFail> for CommandFail {
    ghost from_gives = { λ fail e. e ≡ of_depot fail };

    fn from(fail: DepotFail) -> CommandFail {
        match fail {
            DepotFail::Failed => CommandFail::Disk,
            DepotFail::NoMemory => CommandFail::NoMemory,
        }
    }
}

impl From<ManifestFail> for CommandFail {
    ghost from_gives = { λ fail e. e ≡ of_check fail };

    fn from(fail: ManifestFail) -> CommandFail {
        match fail {
            ManifestFail::TooMany { count } => CommandFail::Refused(RefusedKind::TooMany { count }),
            ManifestFail::BadPath { at } => CommandFail::Refused(RefusedKind::BadPath { at }),
            ManifestFail::Reserved { at } => CommandFail::Refused(RefusedKind::Reserved { at }),
            ManifestFail::Twice { at } => CommandFail::Refused(RefusedKind::Twice { at }),
            ManifestFail::TooLarge { at } => CommandFail::Refused(RefusedKind::TooLarge { at }),
            ManifestFail::NoMemory => CommandFail::NoMemory,
        }
    }
}

impl From<PlanFail> for CommandFail {
    ghost from_gives = { λ fail e. e ≡ of_planning fail };

    fn from(fail: PlanFail) -> CommandFail {
        match fail {
            PlanFail::Stale {
                path,
                logged,
                found,
            } => CommandFail::Refused(RefusedKind::Stale {
                path,
                logged,
                found,
            }),
            PlanFail::TooManyBlocks { count } => {
                CommandFail::Refused(RefusedKind::TooManyBlocks { count })
            }
            PlanFail::NoMemory => CommandFail::NoMemory,
        }
    }
}

impl From<ReadLogFail> for CommandFail {
    ghost from_gives = { λ fail e. e ≡ of_reading fail };

    fn from(fail: ReadLogFail) -> CommandFail {
        match fail {
            ReadLogFail::BadLog { at } => CommandFail::Refused(RefusedKind::BadLog { at }),
            ReadLogFail::NoMemory => CommandFail::NoMemory,
        }
    }
}

impl From<RehearseFail> for CommandFail {
    ghost from_gives = { λ fail e. e ≡ of_rehearsing fail };

    fn from(fail: RehearseFail) -> CommandFail {
        match fail {
            RehearseFail::Source => CommandFail::Source,
            RehearseFail::Disk => CommandFail::Disk,
            RehearseFail::Listing(refused) => CommandFail::from(refused),
            RehearseFail::Plan(refused) => CommandFail::from(refused),
            RehearseFail::NoMemory => CommandFail::NoMemory,
        }
    }
}
