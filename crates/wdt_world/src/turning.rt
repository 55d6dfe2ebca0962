//! Handing in what the lanes hold.
ghost use Rattle.std.specs.Prelude.{◌≡◌, ◌<◌, ◌≤◌, false, length, IfOk, OnErr};
ghost use Rattle.wdt_units.specs.Counts.{Rises};
ghost use Rattle.wdt_units.specs.declared.limits.TheConstants.{PIECE};
ghost use Rattle.wdt_sender_fsm.specs.Sender.{FitsIn};
ghost use Rattle.wdt_sender_fsm.specs.Stops.{is_stop};
ghost use Rattle.wdt_receiver_fsm.specs.PlainReceiver.{lane_at, state_at};
ghost use Rattle.wdt_receiver_fsm.specs.Stops.{is_stop as is_last};
ghost use Rattle.wdt_receiver_fsm.specs.Turn.{Bytes, Given};
ghost use Rattle.wdt_receiver_fsm.specs.Writes.{FitsPut};
ghost use Rattle.wdt_pact.specs.Pairs.{Pair, SendHas, recv_gets, recv_stops};
ghost use Rattle.wdt_pact.specs.World.{some_bytes};
ghost use Rattle.wdt_world.specs.Pairing.{ShowsLines};
ghost use Rattle.wdt_world.specs.Turning.{TurnsRecv, TurnsSend};

use crate::lines::Lines;
use wdt_depot::Depot;
use wdt_dock::Dock;
use wdt_receiver_fsm::{RecvAct, RecvIn, RecvState};
use wdt_sender_fsm::{SendAct, SendIn};
use wdt_units::{Lane, NoMemory};
use wdt_yard::Yard;

/// The sender's lane hands in an input, and is given the act that it holds then. A lane that is to do
/// nothing more has left its connection. NoMemory leaves all as it was, but for the input.
pub(crate) fn turn_send(
    yard: &mut Yard,
    lane: Lane,
    lines: &mut Lines,
    input: SendIn,
) -> Result<SendAct, NoMemory>
    requires lane { lane.0 < length (yard.old).lanes }
    requires fits { FitsIn input }
    ensures turned { (p : Pair) → p.send ≡ SendHas input → ShowsLines lines.old p → IfOk result (λ act. TurnsSend yard.old lane p input act yard.new lines.new) }
    ensures lanes { length (yard.new).lanes ≡ length (yard.old).lanes }
    ensures same { OnErr result (yard.new ≡ yard.old) }
    ensures unchanged { OnErr result (lines.new ≡ lines.old) }
{
    let Ok(act) = yard.step(lane, input) else {
        return Err(NoMemory);
    };
    if has_stopped(&act) {
        lines.leave_down();
    }
    Ok(act)
}

// The lane is to do nothing more.
fn has_stopped(act: &SendAct) -> bool
    ensures { result ≡ is_stop act.now }
{
    matches!(act, SendAct::Stop)
}

/// The receiver's lane hands in an input, and is given the act that it holds then. A lane that is to do
/// nothing more has left its connections. After NoMemory the end is as it was; calls on the disk that
/// were made may stand.
pub(crate) fn turn_recv<D: Depot + Drop>(
    dock: &mut Dock<D>,
    lane: Lane,
    lines: &mut Lines,
    input: RecvIn,
) -> Result<RecvAct, NoMemory>
    requires lane { lane.0 < length (dock.old).plain.lanes }
    requires fits { FitsPut (Given input) }
    ensures turned { (p : Pair) → recv_stops p.recv ≡ false → ShowsLines lines.old p
        → IfOk result (λ act. TurnsRecv (Rises (D.state (dock.old).depot).faults (D.state (dock.new).depot).faults) (dock.old).plain lane p (Given input) act (dock.new).plain lines.new) }
    ensures lanes { length (dock.new).plain.lanes ≡ length (dock.old).plain.lanes }
    ensures same { OnErr result ((dock.new).plain ≡ (dock.old).plain) }
    ensures unchanged { OnErr result (lines.new ≡ lines.old) }
{
    let Ok(act) = dock.step(lane, input) else {
        return Err(NoMemory);
    };
    leave_if(&act, lines);
    Ok(act)
}

/// The receiver's lane hands in bytes of the block that it takes, 1 to 65,536 and no more than are left,
/// and is given the act that it holds then.
pub(crate) fn turn_piece<D: Depot + Drop>(
    dock: &mut Dock<D>,
    lane: Lane,
    lines: &mut Lines,
    bytes: &[u8],
) -> Result<RecvAct, NoMemory>
    requires lane { lane.0 < length (dock.old).plain.lanes }
    requires takes { state_at (dock.old).plain lane.0 ≡ RecvState.TakeBlock }
    requires some { 0 < length bytes.now }
    requires piece { length bytes.now ≤ PIECE }
    requires within { length bytes.now ≤ (lane_at (dock.old).plain lane.0).left }
    ensures turned { (p : Pair) → recv_stops p.recv ≡ false → ShowsLines lines.old p
        → IfOk result (λ act. TurnsRecv (Rises (D.state (dock.old).depot).faults (D.state (dock.new).depot).faults) (dock.old).plain lane p (Bytes (some_bytes (length bytes.now))) act (dock.new).plain lines.new) }
    ensures lanes { length (dock.new).plain.lanes ≡ length (dock.old).plain.lanes }
    ensures same { OnErr result ((dock.new).plain ≡ (dock.old).plain) }
    ensures unchanged { OnErr result (lines.new ≡ lines.old) }
{
    let act = dock.piece(lane, bytes)?;
    leave_if(&act, lines);
    Ok(act)
}

// Leaves the connections where the receiver's lane is to do nothing more.
fn leave_if(act: &RecvAct, lines: &mut Lines)
    ensures { (p : Pair) → recv_stops p.recv ≡ false → ShowsLines lines.old p → ShowsLines lines.new (recv_gets p act.now) }
{
    if is_last(act) {
        lines.leave_up();
    }
}

// The receiver's lane is to do nothing more.
fn is_last(act: &RecvAct) -> bool
    ensures { result ≡ is_last act.now }
{
    matches!(act, RecvAct::Stop)
}
