//! The trait of one connection.
ghost use Rattle.std.specs.Prelude.{◌≡◌, ℕ, Option, IfOk, IfErr, IsErrOf, true, false, nat_lt};
ghost use Rattle.wdt_link.specs.Calls.{HasAlarm, HasFault, HasSlip, is_alarm, map_ok};
ghost use Rattle.wdt_link.specs.Owing.{Owing, PieceFrom, is_piece_slip, owing_after};
ghost use Rattle.wdt_link.specs.Reasons.{IsBadOf, is_bad};
ghost use Rattle.wdt_link.specs.Saying.{is_whole, spelled};
ghost use Rattle.wdt_link.specs.Traffic.{Receives, Sends, Tells, Traffic};

use crate::fails::{LinkFail, RecvFail};
use crate::said::Saying;

/// One end of a connection. Its parameter is what it carries: `Link<Said<N>>` is of the run `N`.
pub trait Link<T: Saying> {
    /// The bytes that are still to be received, those that were received, and those that were sent,
    /// where told. A link may stop telling them, and doesn't begin again.
    ghost told: { Self → Option Traffic };

    /// How often a call failed. The count stops at 2^64 less 1, as do the next two.
    ghost faults: { Self → ℕ };

    /// How often the other end was heard to fail: it said so, or its bytes had no frame.
    ghost alarms: { Self → ℕ };

    /// How often a call asked for what can't come. No careful caller makes such a call.
    ghost slips: { Self → ℕ };

    /// The last block that was received, and how many of its bytes are owed.
    ghost owing: { Self → Owing };

    /// What the dialer or acceptor that gave the link knows it by. No call changes it.
    ghost mark: { Self → ℕ };

    /// Sends a frame. Where it fails, a front of its spelling was sent, and for want of memory nothing.
    fn send(&mut self, frame: T) -> Result<(), LinkFail>
        requires { is_whole (T.plain frame) ≡ true }
        ensures told { Tells (Sends result (spelled (T.plain frame))) (told self.old) (told self.new) }
        ensures starved { IsErrOf result LinkFail.NoMemory → told self.new ≡ told self.old }
        ensures cause { HasFault LinkFail.Failed result (faults self.old) (faults self.new) }
        ensures alarms { alarms self.new ≡ alarms self.old }
        ensures slips { slips self.new ≡ slips self.old }
        ensures owing { owing self.new ≡ owing self.old }
        ensures mark { mark self.new ≡ mark self.old };

    /// Sends the bytes of a piece. Where it fails, a front of them was sent, and for want of memory
    /// nothing.
    fn send_piece(&mut self, piece: T) -> Result<(), LinkFail>
        requires { is_whole (T.plain piece) ≡ false }
        ensures told { Tells (Sends result (spelled (T.plain piece))) (told self.old) (told self.new) }
        ensures starved { IsErrOf result LinkFail.NoMemory → told self.new ≡ told self.old }
        ensures cause { HasFault LinkFail.Failed result (faults self.old) (faults self.new) }
        ensures alarms { alarms self.new ≡ alarms self.old }
        ensures slips { slips self.new ≡ slips self.old }
        ensures owing { owing self.new ≡ owing self.old }
        ensures mark { mark self.new ≡ mark self.old };

    /// Receives the next frame. While bytes of a block are owed, the call is a slip and fails. Where it
    /// fails nothing was received, and after want of memory the link is as it was.
    fn recv(&mut self) -> Result<T, RecvFail>
        ensures whole { IfOk result (λ said. is_whole (T.plain said) ≡ true) }
        ensures told { Tells (Receives (λ said. spelled (T.plain said)) result) (told self.old) (told self.new) }
        ensures starved { IsErrOf result RecvFail.NoMemory → told self.new ≡ told self.old }
        ensures owing { owing self.new ≡ owing_after (owing self.old) (map_ok T.plain result) }
        ensures bad { IfErr result (λ e. IsBadOf e (told self.old)) }
        ensures cause { HasFault RecvFail.Failed result (faults self.old) (faults self.new) }
        ensures alarms { HasAlarm (is_alarm (map_ok T.plain result)) (alarms self.old) (alarms self.new) }
        ensures slips { HasSlip RecvFail.Failed (nat_lt 0 (owing self.old).owed) result (slips self.old) (slips self.new) }
        ensures mark { mark self.new ≡ mark self.old };

    /// Receives the next bytes of the last block, as many as asked for. A call for no byte, for more
    /// than 65,536 or for more than are owed is a slip and fails. Where it fails nothing was received,
    /// and after want of memory the link is as it was.
    fn recv_piece(&mut self, count: u32) -> Result<T, RecvFail>
        ensures told { Tells (Receives (λ said. spelled (T.plain said)) result) (told self.old) (told self.new) }
        ensures starved { IsErrOf result RecvFail.NoMemory → told self.new ≡ told self.old }
        ensures owing { PieceFrom (owing self.old) count (map_ok T.plain result) (owing self.new) }
        ensures never_bad { IfErr result (λ e. is_bad e ≡ false) }
        ensures cause { HasFault RecvFail.Failed result (faults self.old) (faults self.new) }
        ensures alarms { alarms self.new ≡ alarms self.old }
        ensures slips { HasSlip RecvFail.Failed (is_piece_slip count (owing self.old).owed) result (slips self.old) (slips self.new) }
        ensures mark { mark self.new ≡ mark self.old };
}
