//! One lane of the sender: turns at its end, and the acts that these give, performed on its connection.
ghost use Rattle.std.specs.Prelude.{◌≡◌, ◌≤◌, ℕ, Option, Some, None, true, false, IfSome};
ghost use Rattle.wdt_units.specs.Counts.{along};
ghost use Rattle.wdt_lanes.specs.Acts.{is_alarming, is_cut, is_source_lost};
ghost use Rattle.wdt_lanes.specs.Held.{Flagged, IsHeld, RoseFor};
ghost use Rattle.wdt_lanes.specs.Seats.{IsBack, RoseAtRest, SamePass, SameSource};

use crate::kept_yard::{Begin, KeptYard};
use crate::performing::{hang_up, perform_send};
use crate::said_acts::SaidIn;
use crate::seats::Seat;
use std::alloc::Global;
use std::sync::Wait;
use wdt_codec::Frame;
use wdt_gate::Hub;
use wdt_link::Dial;
use wdt_sender_fsm::{SendAct, SendIn};
use wdt_source::Source;
use wdt_tree::Run;

// Whether the source failed.
fn is_source_lost(put: &SendIn) -> bool
    ensures { result ≡ is_source_lost put.now }
{
    matches!(put, SendIn::SourceLost(_))
}

// Whether the connection failed, or none could be made.
fn is_cut(put: &SendIn) -> bool
    ensures { result ≡ is_cut put.now }
{
    matches!(put, SendIn::NoLink | SendIn::Lost)
}

// Whether the other end failed, or said what is no frame.
fn is_alarming(put: &SendIn) -> bool
    ensures { result ≡ is_alarming put.now }
{
    matches!(put, SendIn::Got(Frame::Abort(_)) | SendIn::Bad(_))
}

// One turn, and the act that it gives, performed. A refused turn is followed by one that says so. None:
// the lane is to stop.
fn step<N: Run, B: Begin, S: Source, C: Dial<N>, H: Hub<KeptYard<N, B>>>(
    alloc: Global,
    hub: &H,
    seat: &mut Seat<H::Pass, S, C>,
    link: &mut Option<C::L>,
    piece: &mut Vec<u8>,
    put: SaidIn<N>,
) -> Option<SaidIn<N>>
    requires has { H.has hub.now seat.old.pass }
    requires held { IsHeld C.mark C.out C.L.mark seat.old.dialer link.old }
    requires told { IfSome N.told (λ run. S.told seat.old.source ≡ Some run.tree) }
    ensures pass { SamePass H.has H.lane hub.now seat.old.pass seat.new.pass }
    ensures source { SameSource S.told S.slips N.told seat.old.source seat.new.source }
    ensures held { IsHeld C.mark C.out C.L.mark seat.new.dialer link.new }
    ensures mark { C.mark seat.new.dialer ≡ C.mark seat.old.dialer }
    ensures lost { Flagged seat.old.lost seat.new.lost (S.faults seat.old.source) (S.faults seat.new.source) }
    ensures cut { Flagged seat.old.cut seat.new.cut (along C.faults C.L.faults seat.old.dialer link.old) (along C.faults C.L.faults seat.new.dialer link.new) }
    ensures alarmed { Flagged seat.old.alarmed seat.new.alarmed (along C.alarms C.L.alarms seat.old.dialer link.old) (along C.alarms C.L.alarms seat.new.dialer link.new) }
{
    let Ok(act) = hub.turn(&mut seat.pass, put) else {
        return Some(SaidIn::of(SendIn::Starved));
    };
    if let SendAct::Stop = act.act() {
        return None;
    }
    let (dialer, source) = (&mut seat.dialer, &mut seat.source);
    let put = perform_send::<N, S, C>(alloc, dialer, link, source, piece, act);
    seat.lost |= is_source_lost(put.put());
    seat.cut |= is_cut(put.put());
    seat.alarmed |= is_alarming(put.put());
    Some(put)
}

/// Runs a lane until its end tells it to stop. It then holds no connection, and its dialer knows that it
/// makes no further call, without which the other end would wait for it.
pub(crate) fn run_lane<R: Wait, N: Run, B: Begin, S: Source, C: Dial<N>, H: Hub<KeptYard<N, B>>>(
    rt: &R,
    alloc: Global,
    hub: &H,
    seat: &mut Seat<H::Pass, S, C>,
)
    requires has { H.has hub.now seat.old.pass }
    requires out { C.out seat.old.dialer ≡ 0 }
    requires told { IfSome N.told (λ run. S.told seat.old.source ≡ Some run.tree) }
    ensures pass { SamePass H.has H.lane hub.now seat.old.pass seat.new.pass }
    ensures source { SameSource S.told S.slips N.told seat.old.source seat.new.source }
    ensures dialer { IsBack C.out C.mark seat.old.dialer seat.new.dialer }
    ensures lost { RoseFor seat.new.lost (S.faults seat.old.source) (S.faults seat.new.source) }
    ensures cut { RoseAtRest seat.new.cut C.faults seat.old.dialer seat.new.dialer }
    ensures alarmed { RoseAtRest seat.new.alarmed C.alarms seat.old.dialer seat.new.dialer }
{
    seat.lost = false;
    seat.cut = false;
    seat.alarmed = false;
    let mut link: Option<C::L> = None;
    let mut piece: Vec<u8> = Vec::new(alloc);
    let mut put: SaidIn<N> = SaidIn::of(SendIn::Start);
    for _ in rt.forever() {
        match step::<N, B, S, C, H>(alloc, hub, seat, &mut link, &mut piece, put) {
            Some(next) => put = next,
            None => break,
        }
    }
    hang_up::<N, C>(&mut seat.dialer, &mut link);
    seat.dialer.retire();
}
