//! A turn of a dock with what a lane heard.
ghost use Rattle.std.specs.Prelude.{◌≡◌, ◌<◌, length, IfErr};
ghost use Rattle.wdt_receiver_fsm.specs.Turn.{Given};
ghost use Rattle.wdt_dock.specs.Dock.{wanted};
ghost use Rattle.wdt_recv_lanes.specs.declared.heard.Heard.TheVariants as heard;
ghost use Rattle.wdt_recv_lanes.specs.Turns.{IsInputSaid, Turned, bytes_put, frame_put, input_put, is_wanted, put_of};

use crate::heard::Heard;
use wdt_depot::Depot;
use wdt_dock::Dock;
use wdt_link::Said;
use wdt_receiver_fsm::{RecvAct, RecvIn};
use wdt_tree::Run;
use wdt_units::{Lane, NoMemory};

// A step with an input that is said of the run.
fn step<N: Run, D: Depot + Drop>(
    dock: &mut Dock<D>,
    lane: Lane,
    input: RecvIn,
) -> Result<RecvAct, RecvIn>
    requires lane { lane.0 < length (dock.old).plain.lanes }
    requires said { IsInputSaid N.told input }
    ensures back { IfErr result (λ back. back ≡ input) }
    ensures turned { Turned N.told (dock.old).plain lane (Given input) result (dock.new).plain (D.state (dock.old).depot) (D.state (dock.new).depot) }
{
    dock.step(lane, input)
}

// Whether the piece is the one that the lane wants.
fn is_wanted<N: Run, D: Depot + Drop>(dock: &Dock<D>, lane: Lane, said: &Said<N>) -> bool
    requires { lane.0 < length (dock.now).plain.lanes }
    ensures { result ≡ is_wanted (wanted (dock.now).plain lane.0) said.now }
{
    match dock.wants(lane) {
        Some((path, place, count)) => said.is_part(path, place, count),
        None => false,
    }
}

// A step with bytes of the lane's block, where they are those that it wants.
fn take<N: Run, D: Depot + Drop>(
    dock: &mut Dock<D>,
    lane: Lane,
    said: &Said<N>,
) -> Result<RecvAct, NoMemory>
    requires { lane.0 < length (dock.old).plain.lanes }
    ensures { Turned N.told (dock.old).plain lane (bytes_put (is_wanted (wanted (dock.old).plain lane.0) said.now) said.now)
        result (dock.new).plain (D.state (dock.old).depot) (D.state (dock.new).depot) }
{
    if is_wanted::<N, D>(dock, lane, said) {
        if let Some(bytes) = said.as_piece() {
            return dock.piece(lane, bytes);
        }
    }
    match step::<N, D>(dock, lane, RecvIn::Odd) {
        Ok(act) => Ok(act),
        Err(_) => Err(NoMemory),
    }
}

// A step with an input. A frame that stands in it may be from anywhere, and is odd.
fn hear_input<N: Run, D: Depot + Drop>(
    dock: &mut Dock<D>,
    lane: Lane,
    input: RecvIn,
) -> Result<RecvAct, Heard<N>>
    requires { lane.0 < length (dock.old).plain.lanes }
    ensures back { IfErr result (λ back. back ≡ heard.Put input) }
    ensures turned { Turned N.told (dock.old).plain lane (input_put input) result (dock.new).plain (D.state (dock.old).depot) (D.state (dock.new).depot) }
{
    if matches!(&input, RecvIn::Got(_)) {
        return match step::<N, D>(dock, lane, RecvIn::Odd) {
            Ok(act) => Ok(act),
            Err(_) => Err(Heard::Put(input)),
        };
    }
    match step::<N, D>(dock, lane, input) {
        Ok(act) => Ok(act),
        Err(back) => Err(Heard::Put(back)),
    }
}

// A step with a frame that was received. A piece in its place is odd.
fn hear_frame<N: Run, D: Depot + Drop>(
    dock: &mut Dock<D>,
    lane: Lane,
    said: Said<N>,
) -> Result<RecvAct, Heard<N>>
    requires { lane.0 < length (dock.old).plain.lanes }
    ensures back { IfErr result (λ back. back ≡ heard.Frame said) }
    ensures turned { Turned N.told (dock.old).plain lane (frame_put said) result (dock.new).plain (D.state (dock.old).depot) (D.state (dock.new).depot) }
{
    if !said.is_frame() {
        return match step::<N, D>(dock, lane, RecvIn::Odd) {
            Ok(act) => Ok(act),
            Err(_) => Err(Heard::Frame(said)),
        };
    }
    let Some(frame) = said.into_frame() else {
        unreachable!()
    };
    match step::<N, D>(dock, lane, RecvIn::Got(frame)) {
        Ok(act) => Ok(act),
        Err(RecvIn::Got(frame)) => Err(Heard::Frame(Said::frame(frame))),
        Err(_) => unreachable!(),
    }
}

/// A turn of a dock with what its lane heard. It hands that back where memory ran out.
pub(crate) fn hear<N: Run, D: Depot + Drop>(
    dock: &mut Dock<D>,
    lane: Lane,
    put: Heard<N>,
) -> Result<RecvAct, Heard<N>>
    requires { lane.0 < length (dock.old).plain.lanes }
    ensures back { IfErr result (λ back. back ≡ put) }
    ensures turned { Turned N.told (dock.old).plain lane (put_of (dock.old).plain lane.0 put) result (dock.new).plain (D.state (dock.old).depot) (D.state (dock.new).depot) }
{
    match put {
        Heard::Put(input) => hear_input::<N, D>(dock, lane, input),
        Heard::Frame(said) => hear_frame::<N, D>(dock, lane, said),
        Heard::Piece(said) => match take::<N, D>(dock, lane, &said) {
            Ok(act) => Ok(act),
            Err(NoMemory) => Err(Heard::Piece(said)),
        },
    }
}
