//! A step of a lane.
ghost use Rattle.std.specs.Prelude.{◌≡◌, ◌<◌, ◌≤◌, length, IfOk};
ghost use Rattle.wdt_units.specs.Counts.{Rises};
ghost use Rattle.wdt_pact.specs.Pairs.{recv_stops, send_stops};
ghost use Rattle.wdt_pact.specs.World.{PlainWorld, pair_at};
ghost use Rattle.wdt_world.specs.Hands.{recv_held, send_held};
ghost use Rattle.wdt_world.specs.Pairing.{ShowsLines};
ghost use Rattle.wdt_world.specs.Stepping.{CanStep, CanStepRecv, MayStep, MayStepRecv, StepsRecv, StepsSend};

use crate::acting::{perform_recv, perform_send};
use crate::hands::{RecvHand, SendHand};
use crate::lines::Lines;
use crate::turning::{turn_piece, turn_recv, turn_send};
use std::alloc::Global;
use wdt_depot::Depot;
use wdt_dock::Dock;
use wdt_source::Source;
use wdt_units::{Lane, NoMemory};
use wdt_yard::Yard;

/// The sender's lane takes a step: it performs the act that it holds on its connections, or hands in the
/// input, and is answered what it holds then. Whatever world the end and the lane were of, they are of the
/// world behind that event. `bytes` and `piece` are room that is used again. After NoMemory a block may be
/// half written.
pub(crate) fn step_send<S: Source>(
    alloc: Global,
    bytes: &mut Vec<u8>,
    piece: &mut Vec<u8>,
    yard: &mut Yard,
    source: &mut S,
    lane: Lane,
    lines: &mut Lines,
    hand: SendHand,
    has_stopped: bool,
) -> Result<SendHand, NoMemory>
    requires lane { lane.0 < length (yard.old).lanes }
    requires may { MayStep hand lines.old }
    ensures steps { (w : PlainWorld) → w.sender ≡ yard.old → lane.0 < length w.pairs → send_held hand ≡ (pair_at w lane.0).send → has_stopped ≡ recv_stops (pair_at w lane.0).recv → CanStep hand (pair_at w lane.0)
        → ShowsLines lines.old (pair_at w lane.0) → IfOk result (λ next. StepsSend (Rises (S.faults source.old) (S.faults source.new)) w lane.0 yard.new next lines.new) }
    ensures lanes { length (yard.new).lanes ≡ length (yard.old).lanes }
    ensures told { S.told source.new ≡ S.told source.old }
    ensures later { S.faults source.old ≤ S.faults source.new }
{
    match hand {
        SendHand::Does(act) => {
            perform_send::<S>(alloc, bytes, piece, lines, source, act, has_stopped)
        }
        SendHand::Has(input) => {
            let act = turn_send(yard, lane, lines, input)?;
            Ok(SendHand::Does(act))
        }
    }
}

/// The receiver's lane takes a step, unless it waits for other lanes: it performs the act that it holds on
/// its connections, or hands in what it has, and is answered what it holds then. Whatever world the end and
/// the lane were of, they are of the world behind that event. `bytes` is room that is used again. After
/// NoMemory calls on the disk that were made may stand.
pub(crate) fn step_recv<D: Depot + Drop>(
    bytes: &mut Vec<u8>,
    dock: &mut Dock<D>,
    lane: Lane,
    lines: &mut Lines,
    hand: RecvHand,
    has_stopped: bool,
) -> Result<RecvHand, NoMemory>
    requires lane { lane.0 < length (dock.old).plain.lanes }
    requires may { MayStepRecv (dock.old).plain lane.0 hand lines.old }
    ensures steps { (w : PlainWorld) → w.receiver ≡ (dock.old).plain → lane.0 < length w.pairs → recv_held hand ≡ (pair_at w lane.0).recv → has_stopped ≡ send_stops (pair_at w lane.0).send → CanStepRecv hand (pair_at w lane.0)
        → ShowsLines lines.old (pair_at w lane.0) → IfOk result (λ next. StepsRecv (Rises (D.state (dock.old).depot).faults (D.state (dock.new).depot).faults) w lane.0 (dock.new).plain next lines.new) }
    ensures lanes { length (dock.new).plain.lanes ≡ length (dock.old).plain.lanes }
{
    match hand {
        RecvHand::Does(act) => perform_recv(bytes, lines, act, has_stopped),
        RecvHand::Has(input) => {
            let act = turn_recv::<D>(dock, lane, lines, input)?;
            Ok(RecvHand::Does(act))
        }
        RecvHand::Took(piece) => {
            let act = turn_piece::<D>(dock, lane, lines, piece.as_slice())?;
            Ok(RecvHand::Does(act))
        }
    }
}
