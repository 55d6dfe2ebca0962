//! Performing a sender's acts.
ghost use Rattle.std.specs.Prelude.{◌≡◌, ◌≤◌, Some, None, true, false, IfSome, is_some};
ghost use Rattle.wdt_units.specs.Counts.{along};
ghost use Rattle.wdt_sender_fsm.specs.declared.acts.SendAct.TheVariants as acts;
ghost use Rattle.wdt_sender_fsm.specs.declared.inputs.SendIn.TheVariants as inputs;
ghost use Rattle.wdt_sender_fsm.specs.Acts.{is_answer};
ghost use Rattle.wdt_sender_fsm.specs.Stops.{is_stop};
ghost use Rattle.wdt_link.specs.Calls.{HasAlarm};
ghost use Rattle.wdt_link.specs.Traffic.{Tells};
ghost use Rattle.wdt_lanes.specs.Acts.{IsActSaid, IsInSaid, is_alarming, is_cut, is_dial, is_linked, is_on_link, is_source_lost};
ghost use Rattle.wdt_lanes.specs.Held.{IsHeld, RoseFor, told_in};
ghost use Rattle.wdt_lanes.specs.Performing.{IsBadBy, Performs, asks_slip_on};

use crate::acts_on_link::on_held;
use crate::said_acts::{SaidIn, SaidSend};
use std::alloc::Global;
use wdt_link::{Dial, Link, LinkFail, Said};
use wdt_sender_fsm::{SendAct, SendIn};
use wdt_source::Source;
use wdt_tree::Run;
use wdt_units::Conn;

/// Gives back the connection that is held, if there is one.
pub(crate) fn hang_up<N: Run, C: Dial<N>>(dialer: &mut C, link: &mut Option<C::L>)
    requires { IsHeld C.mark C.out C.L.mark dialer.old link.old }
    ensures none { link.new ≡ None }
    ensures out { C.out dialer.new ≡ 0 }
    ensures faults { along C.faults C.L.faults dialer.new link.new ≡ along C.faults C.L.faults dialer.old link.old }
    ensures alarms { along C.alarms C.L.alarms dialer.new link.new ≡ along C.alarms C.L.alarms dialer.old link.old }
    ensures slips { along C.slips C.L.slips dialer.new link.new ≡ along C.slips C.L.slips dialer.old link.old }
    ensures mark { C.mark dialer.new ≡ C.mark dialer.old }
{
    if let Some(link) = link.take() {
        dialer.hang_up(link);
    }
}

// Makes a connection, and holds it.
fn dial<N: Run, C: Dial<N>>(dialer: &mut C, link: &mut Option<C::L>, conn: Conn) -> SendIn
    requires out { C.out dialer.old ≡ 0 }
    requires none { link.old ≡ None }
    ensures held { IsHeld C.mark C.out C.L.mark dialer.new link.new }
    ensures answers { is_answer (acts.Dial conn) result ≡ true }
    ensures said { IsInSaid N.told result }
    ensures links { is_some link.new ≡ is_linked result }
    ensures quiet { is_alarming result ≡ false }
    ensures reads { is_source_lost result ≡ false }
    ensures faults { RoseFor (is_cut result) (along C.faults C.L.faults dialer.old link.old) (along C.faults C.L.faults dialer.new link.new) }
    ensures alarms { along C.alarms C.L.alarms dialer.old link.old ≤ along C.alarms C.L.alarms dialer.new link.new }
    ensures slips { along C.slips C.L.slips dialer.new link.new ≡ along C.slips C.L.slips dialer.old link.old }
    ensures mark { C.mark dialer.new ≡ C.mark dialer.old }
{
    match dialer.dial(conn) {
        Ok(made) => {
            *link = Some(made);
            SendIn::Linked
        }
        Err(LinkFail::Failed) => SendIn::NoLink,
        Err(LinkFail::NoMemory) => SendIn::Starved,
    }
}

/// Performs an act of a sender's lane on the connection that the lane holds, and answers what came of
/// it. `piece` is room that is used again.
///
/// A dial hangs up what is held before, and so does Stop, behind which nothing comes. Of a block the
/// first piece is read before the header is written. Want of memory of any call is `Starved`; a lane
/// that holds no connection has nothing to perform another act on, and is answered so, too.
pub fn perform_send<N: Run, S: Source, C: Dial<N>>(
    alloc: Global,
    dialer: &mut C,
    link: &mut Option<C::L>,
    source: &mut S,
    piece: &mut Vec<u8>,
    act: SaidSend<N>,
) -> SaidIn<N>
    requires held { IsHeld C.mark C.out C.L.mark dialer.old link.old }
    requires told { IfSome N.told (λ run. S.told source.old ≡ Some run.tree) }
    ensures held { IsHeld C.mark C.out C.L.mark dialer.new link.new }
    ensures answers { is_stop act ≡ false → is_answer act result ≡ true }
    ensures links { is_dial act ≡ true → is_some link.new ≡ is_linked result }
    ensures stays { is_on_link act ≡ true → is_some link.new ≡ is_some link.old }
    ensures stops { is_stop act ≡ true → (link.new ≡ None) × (result ≡ inputs.Starved) }
    ensures told { is_on_link act ≡ true → Tells (Performs act result) (told_in C.L.told link.old) (told_in C.L.told link.new) }
    ensures bad { IsBadBy result (told_in C.L.told link.old) }
    ensures faults { RoseFor (is_cut result) (along C.faults C.L.faults dialer.old link.old) (along C.faults C.L.faults dialer.new link.new) }
    ensures alarms { RoseFor (is_alarming result) (along C.alarms C.L.alarms dialer.old link.old) (along C.alarms C.L.alarms dialer.new link.new) }
    ensures slips { asks_slip_on act C.L.owing link.old ≡ false → along C.slips C.L.slips dialer.new link.new ≡ along C.slips C.L.slips dialer.old link.old }
    ensures mark { C.mark dialer.new ≡ C.mark dialer.old }
    ensures source { HasAlarm (is_source_lost result) (S.faults source.old) (S.faults source.new) }
    ensures kept { S.told source.new ≡ S.told source.old }
    ensures within { IfSome N.told (λ run. S.slips source.new ≡ S.slips source.old) }
{
    match act.into_act() {
        SendAct::Dial(conn) => {
            hang_up::<N, C>(dialer, link);
            SaidIn::of(dial::<N, C>(dialer, link, conn))
        }
        SendAct::Stop => {
            hang_up::<N, C>(dialer, link);
            SaidIn::of(SendIn::Starved)
        }
        act => SaidIn::of(on_held::<N, S, C::L>(alloc, link, source, piece, act)),
    }
}
