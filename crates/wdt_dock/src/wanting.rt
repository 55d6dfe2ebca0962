//! What a lane takes of its block.
ghost use Rattle.std.specs.Prelude.{◌≡◌, ◌<◌, length, option_map};
ghost use Rattle.wdt_log.specs.OpenLog.{OpenLog};
ghost use Rattle.wdt_dock.specs.Desk.{IsDesk, plain_of};
ghost use Rattle.wdt_dock.specs.Dock.{wanted};

use wdt_receiver_fsm::{RecvEnd, RecvState};
use wdt_units::{Lane, Name, PIECE};
use wdt_writer::Writer;

/// What a lane takes next, where it takes bytes of a block: the path of the block's file, where the bytes
/// go there, and how many they are.
pub fn wants<'a>(writer: &'a Writer, end: &RecvEnd, lane: Lane) -> Option<(&'a Name, u64, u32)>
    requires lane { lane.0 < length (end.now).lanes }
    ensures { (log : OpenLog) → IsDesk end.now log writer.now → option_map (λ told. ((told.0).now, told.1, told.2)) result ≡ wanted (plain_of end.now log writer.now) lane.0 }
{
    if end.lane(lane).state != RecvState::TakeBlock {
        return None;
    }
    let (path, place, left) = writer.begun(lane)?;
    Some((path, place, left.min(PIECE as u32)))
}
