//! A sender's acts on a connection that is held.
ghost use Rattle.std.specs.Prelude.{◌≡◌, ℕ, Some, None, true, false, IfSome, is_some};
ghost use Rattle.wdt_units.specs.Counts.{count_in};
ghost use Rattle.wdt_sender_fsm.specs.declared.acts.SendAct.TheVariants as acts;
ghost use Rattle.wdt_sender_fsm.specs.Acts.{is_answer};
ghost use Rattle.wdt_link.specs.Calls.{HasAlarm};
ghost use Rattle.wdt_link.specs.Saying.{IsFrameSaid};
ghost use Rattle.wdt_link.specs.Traffic.{Tells};
ghost use Rattle.wdt_lanes.specs.Acts.{IsActSaid, IsInSaid, is_alarming, is_cut, is_on_link, is_source_lost};
ghost use Rattle.wdt_lanes.specs.Held.{told_in};
ghost use Rattle.wdt_lanes.specs.Performing.{IsBadBy, Performs, asks_slip, asks_slip_on};

use crate::block::send_block;
use std::alloc::Global;
use wdt_codec::Frame;
use wdt_link::{Link, LinkFail, RecvFail, Said};
use wdt_sender_fsm::{SendAct, SendIn};
use wdt_source::Source;
use wdt_tree::Run;

// Writes a frame.
fn write<N: Run, L: Link<Said<N>>>(link: &mut L, frame: Frame) -> SendIn
    requires { IsFrameSaid N.told frame }
    ensures told { Tells (Performs (acts.Write frame) result) (L.told link.old) (L.told link.new) }
    ensures answers { is_answer (acts.Write frame) result ≡ true }
    ensures said { IsInSaid N.told result }
    ensures bad { IsBadBy result (L.told link.old) }
    ensures faults { HasAlarm (is_cut result) (L.faults link.old) (L.faults link.new) }
    ensures alarms { HasAlarm (is_alarming result) (L.alarms link.old) (L.alarms link.new) }
    ensures source { is_source_lost result ≡ false }
    ensures slips { L.slips link.new ≡ L.slips link.old }
    ensures mark { L.mark link.new ≡ L.mark link.old }
{
    match link.send(Said::frame(frame)) {
        Ok(()) => SendIn::Wrote,
        Err(LinkFail::Failed) => SendIn::Lost,
        Err(LinkFail::NoMemory) => SendIn::Starved,
    }
}

// Reads a frame.
fn read<N: Run, L: Link<Said<N>>>(link: &mut L) -> SendIn
    ensures told { Tells (Performs acts.Read result) (L.told link.old) (L.told link.new) }
    ensures answers { is_answer acts.Read result ≡ true }
    ensures said { IsInSaid N.told result }
    ensures bad { IsBadBy result (L.told link.old) }
    ensures faults { HasAlarm (is_cut result) (L.faults link.old) (L.faults link.new) }
    ensures alarms { HasAlarm (is_alarming result) (L.alarms link.old) (L.alarms link.new) }
    ensures source { is_source_lost result ≡ false }
    ensures slips { asks_slip acts.Read (L.owing link.old) ≡ false → L.slips link.new ≡ L.slips link.old }
    ensures mark { L.mark link.new ≡ L.mark link.old }
{
    match link.recv() {
        Ok(said) => match said.into_frame() {
            Some(frame) => SendIn::Got(frame),
            None => SendIn::Starved,
        },
        Err(RecvFail::Failed) => SendIn::Lost,
        Err(RecvFail::Bad { at }) => SendIn::Bad(at),
        Err(RecvFail::NoMemory) => SendIn::Starved,
    }
}

// Performs an act on a connection.
fn on_link<N: Run, S: Source, L: Link<Said<N>>>(
    alloc: Global,
    link: &mut L,
    source: &mut S,
    piece: &mut Vec<u8>,
    act: SendAct,
) -> SendIn
    requires said { IsActSaid N.told act }
    requires on { is_on_link act ≡ true }
    requires told { IfSome N.told (λ run. S.told source.old ≡ Some run.tree) }
    ensures told { Tells (Performs act result) (L.told link.old) (L.told link.new) }
    ensures answers { is_answer act result ≡ true }
    ensures said { IsInSaid N.told result }
    ensures bad { IsBadBy result (L.told link.old) }
    ensures faults { HasAlarm (is_cut result) (L.faults link.old) (L.faults link.new) }
    ensures alarms { HasAlarm (is_alarming result) (L.alarms link.old) (L.alarms link.new) }
    ensures slips { asks_slip act (L.owing link.old) ≡ false → L.slips link.new ≡ L.slips link.old }
    ensures mark { L.mark link.new ≡ L.mark link.old }
    ensures source { HasAlarm (is_source_lost result) (S.faults source.old) (S.faults source.new) }
    ensures kept { S.told source.new ≡ S.told source.old }
    ensures within { IfSome N.told (λ run. S.slips source.new ≡ S.slips source.old) }
{
    match act {
        SendAct::Write(frame) => write::<N, L>(link, frame),
        SendAct::SendBlock(header) => send_block::<N, S, L>(alloc, link, source, piece, header),
        SendAct::Read => read::<N, L>(link),
        SendAct::Dial(_) => SendIn::Starved,
        SendAct::Stop => SendIn::Starved,
    }
}

/// Performs an act on the connection that is held. Without one there is nothing that it could be done on.
pub(crate) fn on_held<N: Run, S: Source, L: Link<Said<N>>>(
    alloc: Global,
    link: &mut Option<L>,
    source: &mut S,
    piece: &mut Vec<u8>,
    act: SendAct,
) -> SendIn
    requires said { IsActSaid N.told act }
    requires on { is_on_link act ≡ true }
    requires told { IfSome N.told (λ run. S.told source.old ≡ Some run.tree) }
    ensures told { Tells (Performs act result) (told_in L.told link.old) (told_in L.told link.new) }
    ensures answers { is_answer act result ≡ true }
    ensures said { IsInSaid N.told result }
    ensures bad { IsBadBy result (told_in L.told link.old) }
    ensures held { is_some link.new ≡ is_some link.old }
    ensures faults { HasAlarm (is_cut result) (count_in L.faults link.old) (count_in L.faults link.new) }
    ensures alarms { HasAlarm (is_alarming result) (count_in L.alarms link.old) (count_in L.alarms link.new) }
    ensures slips { asks_slip_on act L.owing link.old ≡ false → count_in L.slips link.new ≡ count_in L.slips link.old }
    ensures mark { (mark : ℕ) → IfSome link.old (λ l. L.mark l ≡ mark) → IfSome link.new (λ l. L.mark l ≡ mark) }
    ensures source { HasAlarm (is_source_lost result) (S.faults source.old) (S.faults source.new) }
    ensures kept { S.told source.new ≡ S.told source.old }
    ensures within { IfSome N.told (λ run. S.slips source.new ≡ S.slips source.old) }
{
    match link {
        Some(link) => on_link::<N, S, L>(alloc, link, source, piece, act),
        None => SendIn::Starved,
    }
}
