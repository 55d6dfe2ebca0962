//! Performing what the lanes hold.
ghost use Rattle.std.specs.Prelude.{◌≡◌, ◌≤◌, IfOk};
ghost use Rattle.wdt_units.specs.Counts.{Rises};
ghost use Rattle.wdt_pact.specs.Pairs.{Pair, RecvDoes, SendDoes, recv_stops, send_stops};
ghost use Rattle.wdt_world.specs.Acting.{ActsRecv, ActsSend, HasTaken, HasTop, MayReceive, MaySend};
ghost use Rattle.wdt_world.specs.Hands.{accept_hand, dial_hand, recv_hand, send_hand};
ghost use Rattle.wdt_world.specs.Lines.{top_wire};
ghost use Rattle.wdt_world.specs.Pairing.{ShowsLines};

use crate::hands::{RecvHand, SendHand};
use crate::hearing::{hear_down, hear_piece, hear_up};
use crate::lines::Lines;
use crate::sending::send_block;
use crate::speaking::{say_down, say_up};
use std::alloc::Global;
use wdt_receiver_fsm::{RecvAct, RecvIn};
use wdt_sender_fsm::{SendAct, SendIn};
use wdt_source::Source;
use wdt_units::NoMemory;

/// Performs an act of the sender's lane on its connections, and answers what the lane holds then: the same
/// act where a frame is still to come, or the lane has stopped. `bytes` and `piece` are room that is used
/// again. After NoMemory a block may be half written.
pub(crate) fn perform_send<S: Source>(
    alloc: Global,
    bytes: &mut Vec<u8>,
    piece: &mut Vec<u8>,
    lines: &mut Lines,
    source: &mut S,
    act: SendAct,
    has_stopped: bool,
) -> Result<SendHand, NoMemory>
    requires { MaySend act (top_wire lines.old) }
    ensures done { (p : Pair) → p.send ≡ SendDoes act → has_stopped ≡ recv_stops p.recv → HasTop act p → ShowsLines lines.old p
        → IfOk result (λ hand. ActsSend (Rises (S.faults source.old) (S.faults source.new)) p act hand lines.new) }
    ensures told { S.told source.new ≡ S.told source.old }
    ensures later { S.faults source.old ≤ S.faults source.new }
{
    match act {
        SendAct::Dial(_) => {
            let works = lines.dial(alloc, has_stopped)?;
            Ok(dial_hand(works))
        }
        SendAct::Write(frame) => {
            let input = say_down(bytes, lines, &frame)?;
            Ok(SendHand::Has(input))
        }
        SendAct::SendBlock(header) => {
            let input = send_block::<S>(bytes, piece, lines, source, header)?;
            Ok(SendHand::Has(input))
        }
        SendAct::Read => {
            let answer = hear_up(lines)?;
            Ok(read_hand(answer))
        }
        SendAct::Stop => Ok(SendHand::Does(SendAct::Stop)),
    }
}

// What the sender's lane holds behind a try to make a connection.
fn dial_hand(works: bool) -> SendHand
    ensures { result ≡ dial_hand works }
{
    if works {
        SendHand::Has(SendIn::Linked)
    } else {
        SendHand::Has(SendIn::NoLink)
    }
}

// What it holds behind a read.
fn read_hand(answer: Option<SendIn>) -> SendHand
    ensures { result ≡ send_hand answer }
{
    match answer {
        Some(input) => SendHand::Has(input),
        None => SendHand::Does(SendAct::Read),
    }
}

/// Performs an act of the receiver's lane on its connections, and answers what the lane holds then: the same
/// act where what it wants is still to come, it waits for other lanes, or it has stopped. `bytes` is room
/// that is used again.
pub(crate) fn perform_recv(
    bytes: &mut Vec<u8>,
    lines: &mut Lines,
    act: RecvAct,
    has_stopped: bool,
) -> Result<RecvHand, NoMemory>
    requires { MayReceive act (lines.old).taken }
    ensures done { (p : Pair) → p.recv ≡ RecvDoes act → has_stopped ≡ send_stops p.send → HasTaken act p → ShowsLines lines.old p
        → IfOk result (λ hand. ActsRecv p act hand lines.new) }
{
    match act {
        RecvAct::Accept => {
            let answer = lines.accept(has_stopped);
            Ok(accept_hand(answer))
        }
        RecvAct::Write(frame) => say_up(bytes, lines, &frame),
        RecvAct::Read => {
            let answer = hear_down(lines)?;
            Ok(heard_hand(answer, RecvAct::Read))
        }
        RecvAct::TakePiece(length) => {
            let answer = hear_piece(lines, length)?;
            Ok(heard_hand(answer, RecvAct::TakePiece(length)))
        }
        act => Ok(RecvHand::Does(act)),
    }
}

// What the receiver's lane holds behind a try to take a connection.
fn accept_hand(answer: Option<RecvIn>) -> RecvHand
    ensures { result ≡ accept_hand answer }
{
    match answer {
        Some(input) => RecvHand::Has(input),
        None => RecvHand::Does(RecvAct::Accept),
    }
}

// What it holds behind a read, for which it held this act.
fn heard_hand(answer: Option<RecvHand>, act: RecvAct) -> RecvHand
    ensures { result ≡ recv_hand act answer }
{
    match answer {
        Some(hand) => hand,
        None => RecvHand::Does(act),
    }
}
