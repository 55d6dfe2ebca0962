//! A piece of a block that is on its way is written.
ghost use Rattle.std.specs.Prelude.{◌≡◌, ◌≤◌, [], length, IfErr, IsErrOf, IsSome, IsTrue, None, OnOk};
ghost use Rattle.wdt_units.specs.declared.limits.TheConstants.{MAX_FILE_SIZE};
ghost use Rattle.wdt_depot.specs.Disk.{wrote};
ghost use Rattle.wdt_depot.specs.Moments.{IfTold};
ghost use Rattle.wdt_logfmt.specs.Batches.{is_known, path_at};
ghost use Rattle.wdt_good.specs.Calls.{run_piece};
ghost use Rattle.wdt_files.specs.PlainFiles.{AreFiles};
ghost use Rattle.wdt_writer.specs.Answers.{IsNoRefusal};
ghost use Rattle.wdt_writer.specs.Calls.{CanWrite, UsesDisk};

use crate::fail::WriteFail;
use wdt_depot::Depot;
use wdt_files::Files;
use wdt_good::write_beside;

/// Writes bytes to the known file of a number, from a place on. After want of memory nothing has changed.
pub fn write_to<D: Depot>(
    depot: &mut D,
    files: &Files,
    number: u32,
    place: u64,
    bytes: &[u8],
) -> Result<(), WriteFail>
    requires known { IsTrue (is_known files.now.known number) }
    requires files { AreFiles files.now.known }
    requires place { place ≤ MAX_FILE_SIZE }
    requires spots { (D.state depot.old).spots ≡ [] }
    ensures disk { UsesDisk (CanWrite (path_at files.now.known number) place (length bytes.now)) (wrote (path_at files.now.known number) place bytes.now)
        (run_piece (path_at files.now.known number) place bytes.now) result (D.state depot.old) (D.state depot.new) }
    ensures fails { IfErr result IsNoRefusal }
    ensures memory { IsErrOf result WriteFail.NoMemory → (D.state depot.new).told ≡ (D.state depot.old).told }
    ensures up { OnOk result ((D.state depot.new).stop.struck ≡ None) }
    ensures slips { IfTold (λ t. IsSome (t.now (path_at files.now.known number)) → (D.state depot.new).slips ≡ (D.state depot.old).slips) (D.state depot.old).told }
{
    let (path, _, _) = files.file(number);
    write_beside(depot, path, place, bytes)?;
    Ok(())
}
