//! One lane of the receiver: turns at its end, and the acts that these give, performed on its connection.
ghost use Rattle.std.specs.Prelude.{◌≡◌, Option};
ghost use Rattle.wdt_units.specs.Counts.{along};
ghost use Rattle.wdt_lanes.specs.Held.{Flagged, IsHeld, RoseFor};
ghost use Rattle.wdt_lanes.specs.Seats.{IsBack, RoseAtRest, SamePass};
ghost use Rattle.wdt_recv_lanes.specs.Acts.{is_alarming, is_cut};

use crate::heard::Heard;
use crate::kept_dock::{KeptDock, Start};
use crate::performing::{hang_up, perform_recv};
use crate::seats::Seat;
use std::sync::Wait;
use wdt_codec::Frame;
use wdt_depot::Depot;
use wdt_gate::Hub;
use wdt_link::Accept;
use wdt_receiver_fsm::{RecvAct, RecvIn};
use wdt_tree::Run;

// Whether the connection failed, or none could be taken.
fn is_cut<N: Run>(heard: &Heard<N>) -> bool
    ensures { result ≡ is_cut heard.now }
{
    matches!(heard, Heard::Put(RecvIn::NoLink | RecvIn::Lost))
}

// Whether the other end failed, or said what is no frame.
fn is_alarming<N: Run>(heard: &Heard<N>) -> bool
    ensures { result ≡ is_alarming heard.now }
{
    match heard {
        Heard::Put(input) => matches!(input, RecvIn::Bad(_)),
        Heard::Frame(said) => matches!(said.as_frame(), Some(Frame::Abort(_))),
        Heard::Piece(_) => false,
    }
}

// One turn, and the act that it gives, performed. A refused turn is followed by one that says so, and a
// lane that parks waits until something has happened at its end. None: the lane is to stop.
fn step<N: Run, D: Depot + Drop, J: Start, A: Accept<N>, H: Hub<KeptDock<N, D, J>>>(
    hub: &H,
    seat: &mut Seat<H::Pass, A>,
    link: &mut Option<A::L>,
    put: Heard<N>,
) -> Option<Heard<N>>
    requires has { H.has hub.now seat.old.pass }
    requires held { IsHeld A.mark A.out A.L.mark seat.old.acceptor link.old }
    ensures pass { SamePass H.has H.lane hub.now seat.old.pass seat.new.pass }
    ensures held { IsHeld A.mark A.out A.L.mark seat.new.acceptor link.new }
    ensures mark { A.mark seat.new.acceptor ≡ A.mark seat.old.acceptor }
    ensures cut { Flagged seat.old.cut seat.new.cut (along A.faults A.L.faults seat.old.acceptor link.old) (along A.faults A.L.faults seat.new.acceptor link.new) }
    ensures alarmed { Flagged seat.old.alarmed seat.new.alarmed (along A.alarms A.L.alarms seat.old.acceptor link.old) (along A.alarms A.L.alarms seat.new.acceptor link.new) }
{
    let Ok(act) = hub.turn(&mut seat.pass, put) else {
        return Some(Heard::Put(RecvIn::Starved));
    };
    match act.act() {
        RecvAct::Stop => return None,
        RecvAct::Park => hub.wait_for_more(&mut seat.pass),
        _ => {}
    }
    let heard = perform_recv::<N, A>(&mut seat.acceptor, link, act);
    seat.cut |= is_cut(&heard);
    seat.alarmed |= is_alarming(&heard);
    Some(heard)
}

/// Runs a lane until its end tells it to stop. It then holds no connection, and its acceptor knows that it
/// makes no further call, without which the other end would wait for it.
pub(crate) fn run_lane<
    R: Wait,
    N: Run,
    D: Depot + Drop,
    J: Start,
    A: Accept<N>,
    H: Hub<KeptDock<N, D, J>>,
>(rt: &R, hub: &H, seat: &mut Seat<H::Pass, A>)
    requires has { H.has hub.now seat.old.pass }
    requires out { A.out seat.old.acceptor ≡ 0 }
    ensures pass { SamePass H.has H.lane hub.now seat.old.pass seat.new.pass }
    ensures acceptor { IsBack A.out A.mark seat.old.acceptor seat.new.acceptor }
    ensures cut { RoseAtRest seat.new.cut A.faults seat.old.acceptor seat.new.acceptor }
    ensures alarmed { RoseAtRest seat.new.alarmed A.alarms seat.old.acceptor seat.new.acceptor }
{
    seat.cut = false;
    seat.alarmed = false;
    let mut link: Option<A::L> = None;
    let mut put: Heard<N> = Heard::Put(RecvIn::Start);
    for _ in rt.forever() {
        match step::<N, D, J, A, H>(hub, seat, &mut link, put) {
            Some(next) => put = next,
            None => break,
        }
    }
    hang_up::<N, A>(&mut seat.acceptor, &mut link);
    seat.acceptor.retire();
}
