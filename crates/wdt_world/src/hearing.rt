//! What the lanes read of their connections.
ghost use Rattle.std.specs.Prelude.{◌≡◌, ◌≤◌, false, IfOk, IfSome, OnErr};
ghost use Rattle.wdt_units.specs.declared.limits.TheConstants.{PIECE};
ghost use Rattle.wdt_pact.specs.Pairs.{Pair, recv_reads, recv_stops, recv_takes, send_reads, send_stops, top};
ghost use Rattle.wdt_world.specs.Finding.{BeginsOn, BeginsWithFrame, BeginsWithPiece};
ghost use Rattle.wdt_world.specs.Hands.{Receives, Sends};
ghost use Rattle.wdt_world.specs.Heard.{heard_down, heard_up};
ghost use Rattle.wdt_world.specs.Lines.{top_wire};
ghost use Rattle.wdt_world.specs.Pairing.{ShowsLines};

use crate::hands::RecvHand;
use crate::lines::Lines;
use wdt_codec::streams_have_one_reading;
use wdt_receiver_fsm::RecvIn;
use wdt_sender_fsm::SendIn;
use wdt_units::NoMemory;
use wdt_wire::Taken;

/// The sender's lane reads a frame. None where nothing has come, and more may.
pub(crate) fn hear_up(lines: &mut Lines) -> Result<Option<SendIn>, NoMemory>
    requires { IfSome (top_wire lines.old) (λ wire. wire.up.owed ≡ 0) }
    ensures heard { (p : Pair) → send_stops p.send ≡ false → ShowsLines lines.old p → IfOk result (λ answer. Sends p.send answer lines.new (send_reads p (top p))) }
    ensures unchanged { OnErr result (lines.new ≡ lines.old) }
{
    // The law: what is read is what was written.
    streams_have_one_reading();
    let taken = lines.read_up()?;
    Ok(heard_up(taken))
}

// What the sender's lane has then.
fn heard_up(taken: Taken) -> Option<SendIn>
    ensures { result ≡ heard_up taken }
{
    match taken {
        Taken::Frame(frame) => Some(SendIn::Got(frame)),
        Taken::Lost => Some(SendIn::Lost),
        Taken::Piece(_) | Taken::Nothing => None,
    }
}

/// The receiver's lane reads a frame, where that is what comes next. None where nothing has come, and
/// more may.
pub(crate) fn hear_down(lines: &mut Lines) -> Result<Option<RecvHand>, NoMemory>
    requires { IfSome (lines.old).taken (λ wire. wire.down.owed ≡ 0) }
    ensures heard { (p : Pair) → recv_stops p.recv ≡ false → BeginsOn BeginsWithFrame p.taken → ShowsLines lines.old p → IfOk result (λ answer. Receives p.recv answer lines.new (recv_reads p p.taken)) }
    ensures unchanged { OnErr result (lines.new ≡ lines.old) }
{
    // The law: what is read is what was written.
    streams_have_one_reading();
    let taken = lines.read_down()?;
    Ok(heard_down(taken))
}

/// The receiver's lane takes so many bytes of a block, where a piece of as many comes next. None where
/// they haven't come, and more may.
pub(crate) fn hear_piece(lines: &mut Lines, length: u32) -> Result<Option<RecvHand>, NoMemory>
    requires some { 1 ≤ length }
    requires most { length ≤ PIECE }
    requires owed { IfSome (lines.old).taken (λ wire. length ≤ wire.down.owed) }
    ensures heard { (p : Pair) → recv_stops p.recv ≡ false → BeginsOn (BeginsWithPiece length) p.taken → ShowsLines lines.old p → IfOk result (λ answer. Receives p.recv answer lines.new (recv_takes p p.taken)) }
    ensures unchanged { OnErr result (lines.new ≡ lines.old) }
{
    let taken = lines.take_piece(length)?;
    Ok(heard_down(taken))
}

// What the receiver's lane has then.
fn heard_down(taken: Taken) -> Option<RecvHand>
    ensures { result ≡ heard_down taken }
{
    match taken {
        Taken::Frame(frame) => Some(RecvHand::Has(RecvIn::Got(frame))),
        Taken::Piece(bytes) => Some(RecvHand::Took(bytes)),
        Taken::Lost => Some(RecvHand::Has(RecvIn::Lost)),
        Taken::Nothing => None,
    }
}
