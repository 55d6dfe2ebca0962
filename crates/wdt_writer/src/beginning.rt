//! The file of a block that begins.
ghost use Rattle.std.specs.Prelude.{◌≡◌, ◌<◌, [], false, true, IfErr, IfOk, IsErrOf, OnErr, OnOk, None};
ghost use Rattle.wdt_units.specs.declared.limits.TheConstants.{MAX_FILES};
ghost use Rattle.wdt_units.specs.Headers.{FitsHeader};
ghost use Rattle.wdt_logfmt.specs.Beginning.{block_of, is_new, known_count, number_of};
ghost use Rattle.wdt_files.specs.PlainFiles.{AreLawful};
ghost use Rattle.wdt_writer.specs.Answers.{IsNoRefusal};
ghost use Rattle.wdt_writer.specs.Calls.{CanMake, UsesDisk};
ghost use Rattle.wdt_writer.specs.PlainWriter.{begun_on, known_with, run_begin};

use crate::fail::WriteFail;
use wdt_depot::Depot;
use wdt_files::Files;
use wdt_good::make_beside;
use wdt_units::Header;

/// The number of the header's file. Where the file is new, it is made and known from then on; after want of
/// memory it may have been made. After a failure the same files are known.
pub fn number_for<D: Depot>(
    depot: &mut D,
    files: &mut Files,
    header: &Header,
) -> Result<u32, WriteFail>
    requires header { FitsHeader header.now }
    requires few { is_new files.old.known header.now ≡ true → known_count files.old.known < MAX_FILES }
    requires lawful { AreLawful files.old }
    requires spots { (D.state depot.old).spots ≡ [] }
    ensures number { IfOk result (λ number. number ≡ (block_of files.old.known header.now).file) }
    ensures known { OnOk result (files.new ≡ record files.old { known = known_with files.old.known header.now }) }
    ensures lawful { OnOk result (AreLawful files.new) }
    ensures unchanged { OnErr result (files.new ≡ files.old) }
    ensures disk { UsesDisk (CanMake files.old.known header.now) (begun_on files.old.known header.now) (run_begin files.old.known header.now) result (D.state depot.old) (D.state depot.new) }
    ensures fails { IfErr result IsNoRefusal }
    ensures never { is_new files.old.known header.now ≡ false → IsErrOf result WriteFail.Disk → ⊥ }
    ensures up { is_new files.old.known header.now ≡ true → OnOk result ((D.state depot.new).stop.struck ≡ None) }
    ensures slips { (D.state depot.new).slips ≡ (D.state depot.old).slips }
{
    if let Some(number) = files.number(&header.path) {
        return Ok(number);
    }
    let path = header.path.copy()?;
    make_beside(depot, &header.path)?;
    Ok(files.put(path, header.size, header.stamp)?)
}
