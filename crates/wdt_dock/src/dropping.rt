//! A connection is lost.
ghost use Rattle.std.specs.Prelude.{◌≡◌, ◌<◌, List, length, IfOk, OnErr};
ghost use Rattle.wdt_units.specs.Tree.{File};
ghost use Rattle.wdt_depot.specs.Disk.{Disk};
ghost use Rattle.wdt_log.specs.OpenLog.{OpenLog};
ghost use Rattle.wdt_receiver_fsm.specs.Turn.{drops};
ghost use Rattle.wdt_dock.specs.Desk.{IsDesk, plain_of};
ghost use Rattle.wdt_dock.specs.DockGood.{DockGood};

use wdt_receiver_fsm::{RecvAct, RecvEnd};
use wdt_units::{Lane, NoMemory};
use wdt_writer::Writer;

/// A lane's connection is lost, and with it the block that was begun: what was written of it stays on the
/// disk, where nothing counts on it.
///
/// After `NoMemory` the end is as it was.
pub fn lose_connection(
    writer: &mut Writer,
    end: &mut RecvEnd,
    lane: Lane,
) -> Result<RecvAct, NoMemory>
    requires lane { lane.0 < length (end.old).lanes }
    requires lanes { length (writer.old).parts ≡ length (end.old).lanes }
    ensures ok { IfOk result (λ act. (log : OpenLog) → drops (plain_of end.old log writer.old) lane ≡ (act, plain_of end.new log writer.new)) }
    ensures memory { OnErr result ((log : OpenLog) → plain_of end.new log writer.new ≡ plain_of end.old log writer.old) }
    ensures desk { (log : OpenLog) → IsDesk end.old log writer.old → IsDesk end.new log writer.new }
    ensures good { (T : List File) (log : OpenLog) (d : Disk) → DockGood T (plain_of end.old log writer.old) d → DockGood T (plain_of end.new log writer.new) d }
{
    let act = end.dropped(lane)?;
    writer.drop_part(lane);
    Ok(act)
}
