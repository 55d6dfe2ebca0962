//! Performing a receiver's acts.
ghost use Rattle.std.specs.Prelude.{◌≡◌, ◌≤◌, None, true, false, IfSome, is_some};
ghost use Rattle.wdt_units.specs.Counts.{along};
ghost use Rattle.wdt_receiver_fsm.specs.declared.acts.RecvAct.TheVariants as acts;
ghost use Rattle.wdt_receiver_fsm.specs.declared.inputs.RecvIn.TheVariants as inputs;
ghost use Rattle.wdt_link.specs.Traffic.{Tells};
ghost use Rattle.wdt_lanes.specs.Held.{IsHeld, RoseFor, told_in};
ghost use Rattle.wdt_recv_lanes.specs.declared.heard.Heard.TheVariants as heard;
ghost use Rattle.wdt_recv_lanes.specs.Acts.{is_accept, is_alarming, is_answer, is_cut, is_linked, is_on_link, is_park, is_stop};
ghost use Rattle.wdt_recv_lanes.specs.Hearing.{IsBadBy, OwesOn, Performs, asks_slip_on};

use crate::acts_on_link::on_held;
use crate::heard::Heard;
use crate::said_recv::SaidRecv;
use wdt_link::{Accept, Link, LinkFail, Said};
use wdt_receiver_fsm::{RecvAct, RecvIn};
use wdt_tree::Run;

/// Gives back the connection that is held, if there is one.
pub(crate) fn hang_up<N: Run, A: Accept<N>>(acceptor: &mut A, link: &mut Option<A::L>)
    requires { IsHeld A.mark A.out A.L.mark acceptor.old link.old }
    ensures none { link.new ≡ None }
    ensures out { A.out acceptor.new ≡ 0 }
    ensures faults { along A.faults A.L.faults acceptor.new link.new ≡ along A.faults A.L.faults acceptor.old link.old }
    ensures alarms { along A.alarms A.L.alarms acceptor.new link.new ≡ along A.alarms A.L.alarms acceptor.old link.old }
    ensures slips { along A.slips A.L.slips acceptor.new link.new ≡ along A.slips A.L.slips acceptor.old link.old }
    ensures mark { A.mark acceptor.new ≡ A.mark acceptor.old }
{
    if let Some(link) = link.take() {
        acceptor.hang_up(link);
    }
}

// Takes the next connection, and holds it.
fn accept<N: Run, A: Accept<N>>(acceptor: &mut A, link: &mut Option<A::L>) -> Heard<N>
    requires out { A.out acceptor.old ≡ 0 }
    requires none { link.old ≡ None }
    ensures held { IsHeld A.mark A.out A.L.mark acceptor.new link.new }
    ensures answers { is_answer acts.Accept result ≡ true }
    ensures links { is_some link.new ≡ is_linked result }
    ensures fresh { IfSome link.new (λ l. (A.L.owing l).owed ≡ 0) }
    ensures quiet { is_alarming result ≡ false }
    ensures faults { RoseFor (is_cut result) (along A.faults A.L.faults acceptor.old link.old) (along A.faults A.L.faults acceptor.new link.new) }
    ensures alarms { along A.alarms A.L.alarms acceptor.old link.old ≤ along A.alarms A.L.alarms acceptor.new link.new }
    ensures slips { along A.slips A.L.slips acceptor.new link.new ≡ along A.slips A.L.slips acceptor.old link.old }
    ensures mark { A.mark acceptor.new ≡ A.mark acceptor.old }
{
    match acceptor.accept() {
        Ok(made) => {
            *link = Some(made);
            Heard::Put(RecvIn::Linked)
        }
        Err(LinkFail::Failed) => Heard::Put(RecvIn::NoLink),
        Err(LinkFail::NoMemory) => Heard::Put(RecvIn::Starved),
    }
}

/// Performs an act of a receiver's lane on the connection that the lane holds, and answers what was heard.
///
/// `Accept` hangs up what is held before, and so does Stop, behind which nothing comes. `Park` does nothing:
/// who parks a lane waits before. Want of memory of any call is `Starved`; a lane that holds no connection
/// has nothing to perform another act on, and is answered so, too.
pub fn perform_recv<N: Run, A: Accept<N>>(
    acceptor: &mut A,
    link: &mut Option<A::L>,
    act: SaidRecv<N>,
) -> Heard<N>
    requires { IsHeld A.mark A.out A.L.mark acceptor.old link.old }
    ensures held { IsHeld A.mark A.out A.L.mark acceptor.new link.new }
    ensures answers { is_stop act ≡ false → is_answer act result ≡ true }
    ensures links { is_accept act ≡ true → is_some link.new ≡ is_linked result }
    ensures fresh { is_accept act ≡ true → IfSome link.new (λ l. (A.L.owing l).owed ≡ 0) }
    ensures stays { is_on_link act ≡ true → is_some link.new ≡ is_some link.old }
    ensures parks { is_park act ≡ true → (acceptor.new ≡ acceptor.old) × (link.new ≡ link.old) × (result ≡ heard.Put inputs.Woken) }
    ensures stops { is_stop act ≡ true → (link.new ≡ None) × (result ≡ heard.Put inputs.Starved) }
    ensures told { is_on_link act ≡ true → Tells (Performs act result) (told_in A.L.told link.old) (told_in A.L.told link.new) }
    ensures owes { is_on_link act ≡ true → OwesOn act result A.L.owing link.old link.new }
    ensures bad { IsBadBy result (told_in A.L.told link.old) }
    ensures faults { RoseFor (is_cut result) (along A.faults A.L.faults acceptor.old link.old) (along A.faults A.L.faults acceptor.new link.new) }
    ensures alarms { RoseFor (is_alarming result) (along A.alarms A.L.alarms acceptor.old link.old) (along A.alarms A.L.alarms acceptor.new link.new) }
    ensures slips { asks_slip_on act A.L.owing link.old ≡ false → along A.slips A.L.slips acceptor.new link.new ≡ along A.slips A.L.slips acceptor.old link.old }
    ensures mark { A.mark acceptor.new ≡ A.mark acceptor.old }
{
    match act.into_act() {
        RecvAct::Accept => {
            hang_up::<N, A>(acceptor, link);
            accept::<N, A>(acceptor, link)
        }
        RecvAct::Park => Heard::Put(RecvIn::Woken),
        RecvAct::Stop => {
            hang_up::<N, A>(acceptor, link);
            Heard::Put(RecvIn::Starved)
        }
        act => on_held::<N, A::L>(link, act),
    }
}
