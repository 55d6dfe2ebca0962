//! The listing of a source, checked.
ghost use Rattle.std.specs.Prelude.{◌≡◌, ◌≤◌, IfErr, IfOk, IfSome, IsErrOf, OnOk};
ghost use Rattle.wdt_units.specs.Counts.{Rises};
ghost use Rattle.wdt_tree.specs.Listing.{IsAccepted, Orders};
ghost use Rattle.wdt_tool.specs.Causes.{IsListedFail};

use crate::fail::CommandFail;
use std::alloc::Global;
use wdt_source::Source;
use wdt_tree::Manifest;

/// The files of a source in the order of their paths. `Source` comes only where the source failed,
/// and `Refused` only for a listing that is no tree's.
pub fn listed<S: Source>(alloc: Global, source: &mut S) -> Result<Manifest, CommandFail>
    ensures order { IfOk result (λ m. IfSome (S.listing source.old) (λ listing. Orders listing m)) }
    ensures accepted { OnOk result (IfSome (S.listing source.old) IsAccepted) }
    ensures refused { IfErr result (IsListedFail (S.listing source.old)) }
    ensures later { S.faults source.old ≤ S.faults source.new }
    ensures cause { IsErrOf result CommandFail.Source → Rises (S.faults source.old) (S.faults source.new) }
    ensures told { S.told source.new ≡ S.told source.old }
    ensures slips { S.slips source.new ≡ S.slips source.old }
{
    match source.list(alloc) {
        Ok(raw) => match Manifest::check(alloc, raw) {
            Ok(manifest) => Ok(manifest),
            Err(fail) => Err(CommandFail::from(fail)),
        },
        Err(fail) => Err(CommandFail::from(fail)),
    }
}
