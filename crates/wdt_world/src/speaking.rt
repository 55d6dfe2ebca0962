//! What the lanes write on their connections.
ghost use Rattle.std.specs.Prelude.{◌≡◌, [], ◌∷◌, false, true, is_some, Some, IfOk, OnErr};
ghost use Rattle.wdt_codec.specs.Frames.{Fits};
ghost use Rattle.wdt_sender_fsm.specs.Phases.{Framed};
ghost use Rattle.wdt_pact.specs.Pairs.{Pair, recv_stops, recv_wrote_or_lost, recv_writes, send_stops, send_writes, top, wrote_or_lost};
ghost use Rattle.wdt_world.specs.Hands.{Receives, Sends};
ghost use Rattle.wdt_world.specs.Pairing.{ShowsLines};
ghost use Rattle.wdt_world.specs.Shown.{IsAnswer};

use crate::hands::RecvHand;
use crate::lines::Lines;
use wdt_codec::{Frame, encode};
use wdt_receiver_fsm::RecvIn;
use wdt_sender_fsm::SendIn;
use wdt_units::NoMemory;

/// The sender's lane writes a frame on its connection. `bytes` is room that is used again.
pub(crate) fn say_down(
    bytes: &mut Vec<u8>,
    lines: &mut Lines,
    frame: &Frame,
) -> Result<SendIn, NoMemory>
    requires { Fits frame.now }
    ensures said { (p : Pair) → send_stops p.send ≡ false → is_some (top p) ≡ true → ShowsLines lines.old p → IfOk result (λ input. Sends p.send (Some input) lines.new (send_writes p (Framed frame.now ∷ []) (top p))) }
    ensures unchanged { OnErr result (lines.new ≡ lines.old) }
{
    bytes.clear();
    encode(frame, bytes)?;
    let works = lines.write_down(bytes.as_slice())?;
    Ok(wrote_down(works))
}

/// What a sender's lane has of a write.
pub(crate) fn wrote_down(works: bool) -> SendIn
    ensures { result ≡ wrote_or_lost works }
{
    if works { SendIn::Wrote } else { SendIn::Lost }
}

/// The receiver's lane writes a frame of its own on the connection that it took. `bytes` is room that is
/// used again.
pub(crate) fn say_up(
    bytes: &mut Vec<u8>,
    lines: &mut Lines,
    frame: &Frame,
) -> Result<RecvHand, NoMemory>
    requires { IsAnswer frame.now }
    ensures said { (p : Pair) → recv_stops p.recv ≡ false → is_some p.taken ≡ true → ShowsLines lines.old p → IfOk result (λ hand. Receives p.recv (Some hand) lines.new (recv_writes p frame.now p.taken)) }
    ensures unchanged { OnErr result (lines.new ≡ lines.old) }
{
    bytes.clear();
    encode(frame, bytes)?;
    let works = lines.write_up(bytes.as_slice())?;
    Ok(RecvHand::Has(wrote_up(works)))
}

// What a receiver's lane has of a write.
fn wrote_up(works: bool) -> RecvIn
    ensures { result ≡ recv_wrote_or_lost works }
{
    if works { RecvIn::Wrote } else { RecvIn::Lost }
}
