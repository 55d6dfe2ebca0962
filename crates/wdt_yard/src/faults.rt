//! What the receiver did wrong with a count.
ghost use Rattle.std.specs.Prelude.{◌≡◌};
ghost use Rattle.wdt_sender_fsm.specs.Faults.{kind_of};

use wdt_history::CheckFail;
use wdt_sender_fsm::PeerKind;

/// What a count that can't be right is told as.
pub fn kind_of(fail: CheckFail) -> PeerKind
    ensures { result ≡ kind_of fail }
{
    match fail {
        CheckFail::BadCheckpoint { n, low, high } => PeerKind::BadCheckpoint { n, low, high },
        CheckFail::Differs { n, before } => PeerKind::Differs { n, before },
    }
}
