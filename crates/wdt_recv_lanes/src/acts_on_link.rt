//! A receiver's acts on a connection that is held.
ghost use Rattle.std.specs.Prelude.{◌≡◌, ℕ, true, false, IfSome, is_some};
ghost use Rattle.wdt_units.specs.Counts.{count_in};
ghost use Rattle.wdt_receiver_fsm.specs.declared.acts.RecvAct.TheVariants as acts;
ghost use Rattle.wdt_link.specs.Calls.{HasAlarm};
ghost use Rattle.wdt_link.specs.Saying.{IsFrameSaid};
ghost use Rattle.wdt_link.specs.Traffic.{Tells};
ghost use Rattle.wdt_lanes.specs.Held.{told_in};
ghost use Rattle.wdt_recv_lanes.specs.Acts.{IsActSaid, is_alarming, is_answer, is_cut, is_on_link};
ghost use Rattle.wdt_recv_lanes.specs.Hearing.{IsBadBy, Owes, OwesOn, Performs, asks_slip, asks_slip_on};

use crate::heard::Heard;
use wdt_codec::Frame;
use wdt_link::{Link, LinkFail, RecvFail, Said};
use wdt_receiver_fsm::{RecvAct, RecvIn};
use wdt_tree::Run;

// Writes a frame.
fn write<N: Run, L: Link<Said<N>>>(link: &mut L, frame: Frame) -> Heard<N>
    requires { IsFrameSaid N.told frame }
    ensures told { Tells (Performs (acts.Write frame) result) (L.told link.old) (L.told link.new) }
    ensures answers { is_answer (acts.Write frame) result ≡ true }
    ensures bad { IsBadBy result (L.told link.old) }
    ensures faults { HasAlarm (is_cut result) (L.faults link.old) (L.faults link.new) }
    ensures alarms { HasAlarm (is_alarming result) (L.alarms link.old) (L.alarms link.new) }
    ensures slips { L.slips link.new ≡ L.slips link.old }
    ensures owes { Owes (acts.Write frame) result (L.owing link.old) (L.owing link.new) }
    ensures mark { L.mark link.new ≡ L.mark link.old }
{
    match link.send(Said::frame(frame)) {
        Ok(()) => Heard::Put(RecvIn::Wrote),
        Err(LinkFail::Failed) => Heard::Put(RecvIn::Lost),
        Err(LinkFail::NoMemory) => Heard::Put(RecvIn::Starved),
    }
}

// Reads a frame.
fn read<N: Run, L: Link<Said<N>>>(link: &mut L) -> Heard<N>
    ensures told { Tells (Performs acts.Read result) (L.told link.old) (L.told link.new) }
    ensures answers { is_answer acts.Read result ≡ true }
    ensures bad { IsBadBy result (L.told link.old) }
    ensures faults { HasAlarm (is_cut result) (L.faults link.old) (L.faults link.new) }
    ensures alarms { HasAlarm (is_alarming result) (L.alarms link.old) (L.alarms link.new) }
    ensures slips { asks_slip acts.Read (L.owing link.old) ≡ false → L.slips link.new ≡ L.slips link.old }
    ensures owes { Owes acts.Read result (L.owing link.old) (L.owing link.new) }
    ensures mark { L.mark link.new ≡ L.mark link.old }
{
    match link.recv() {
        Ok(said) => Heard::Frame(said),
        Err(RecvFail::Failed) => Heard::Put(RecvIn::Lost),
        Err(RecvFail::Bad { at }) => Heard::Put(RecvIn::Bad(at)),
        Err(RecvFail::NoMemory) => Heard::Put(RecvIn::Starved),
    }
}

// Takes so many bytes of the last block.
fn take<N: Run, L: Link<Said<N>>>(link: &mut L, count: u32) -> Heard<N>
    ensures told { Tells (Performs (acts.TakePiece count) result) (L.told link.old) (L.told link.new) }
    ensures answers { is_answer (acts.TakePiece count) result ≡ true }
    ensures bad { IsBadBy result (L.told link.old) }
    ensures faults { HasAlarm (is_cut result) (L.faults link.old) (L.faults link.new) }
    ensures alarms { HasAlarm (is_alarming result) (L.alarms link.old) (L.alarms link.new) }
    ensures slips { asks_slip (acts.TakePiece count) (L.owing link.old) ≡ false → L.slips link.new ≡ L.slips link.old }
    ensures owes { Owes (acts.TakePiece count) result (L.owing link.old) (L.owing link.new) }
    ensures mark { L.mark link.new ≡ L.mark link.old }
{
    match link.recv_piece(count) {
        Ok(said) => Heard::Piece(said),
        Err(RecvFail::Failed) => Heard::Put(RecvIn::Lost),
        // Bytes of a block have no spelling that could be bad.
        Err(RecvFail::Bad { .. }) => unreachable!(),
        Err(RecvFail::NoMemory) => Heard::Put(RecvIn::Starved),
    }
}

// Performs an act on a connection.
fn on_link<N: Run, L: Link<Said<N>>>(link: &mut L, act: RecvAct) -> Heard<N>
    requires said { IsActSaid N.told act }
    requires on { is_on_link act ≡ true }
    ensures told { Tells (Performs act result) (L.told link.old) (L.told link.new) }
    ensures answers { is_answer act result ≡ true }
    ensures bad { IsBadBy result (L.told link.old) }
    ensures faults { HasAlarm (is_cut result) (L.faults link.old) (L.faults link.new) }
    ensures alarms { HasAlarm (is_alarming result) (L.alarms link.old) (L.alarms link.new) }
    ensures slips { asks_slip act (L.owing link.old) ≡ false → L.slips link.new ≡ L.slips link.old }
    ensures owes { Owes act result (L.owing link.old) (L.owing link.new) }
    ensures mark { L.mark link.new ≡ L.mark link.old }
{
    match act {
        RecvAct::Write(frame) => write::<N, L>(link, frame),
        RecvAct::Read => read::<N, L>(link),
        RecvAct::TakePiece(count) => take::<N, L>(link, count),
        RecvAct::Accept | RecvAct::Park | RecvAct::Stop => Heard::Put(RecvIn::Starved),
    }
}

/// Performs an act on the connection that is held. Without one there is nothing that it could be done on.
pub(crate) fn on_held<N: Run, L: Link<Said<N>>>(link: &mut Option<L>, act: RecvAct) -> Heard<N>
    requires said { IsActSaid N.told act }
    requires on { is_on_link act ≡ true }
    ensures told { Tells (Performs act result) (told_in L.told link.old) (told_in L.told link.new) }
    ensures answers { is_answer act result ≡ true }
    ensures bad { IsBadBy result (told_in L.told link.old) }
    ensures held { is_some link.new ≡ is_some link.old }
    ensures faults { HasAlarm (is_cut result) (count_in L.faults link.old) (count_in L.faults link.new) }
    ensures alarms { HasAlarm (is_alarming result) (count_in L.alarms link.old) (count_in L.alarms link.new) }
    ensures slips { asks_slip_on act L.owing link.old ≡ false → count_in L.slips link.new ≡ count_in L.slips link.old }
    ensures owes { OwesOn act result L.owing link.old link.new }
    ensures mark { (mark : ℕ) → IfSome link.old (λ l. L.mark l ≡ mark) → IfSome link.new (λ l. L.mark l ≡ mark) }
{
    match link {
        Some(link) => on_link::<N, L>(link, act),
        None => Heard::Put(RecvIn::Starved),
    }
}
