//! Reading a whole file.
ghost use Rattle.std.specs.Prelude.{◌≡◌, false, IfOk, IsErrOf, None, OnOk};
ghost use Rattle.wdt_depot.specs.Programs.{Ran, looking};
ghost use Rattle.wdt_depot.specs.State.{Counts, IfFileAt, IsEntered, IsKept, OnlyLooks, OnlyWhere, at_spot};

use crate::depot::Depot;
use crate::failure::DepotFail;
use std::alloc::Global;
use wdt_units::Spot;

/// All bytes of an entered file.
///
/// `Failed` comes only where the depot counted a fault, and after `NoMemory` the depot is as it was.
pub fn read_whole<D: Depot>(alloc: Global, depot: &mut D, spot: Spot) -> Result<Vec<u8>, DepotFail>
    requires entered { IsEntered spot.0 (D.state depot.old) }
    ensures bytes { IfOk result (λ bytes. IfFileAt (λ f. f.seen ≡ bytes.items) (at_spot spot.0 (D.state depot.old)) (D.state depot.old)) }
    ensures looks { OnlyLooks (D.state depot.old) (D.state depot.new) }
    ensures exact { Ran looking result (D.state depot.old) (D.state depot.new) }
    ensures memory { IsKept result (D.state depot.old) (D.state depot.new) }
    ensures up { OnOk result ((D.state depot.new).stop.struck ≡ None) }
    ensures spots { (D.state depot.new).spots ≡ (D.state depot.old).spots }
    ensures counts { Counts (IsErrOf result DepotFail.Failed) (D.state depot.old) (D.state depot.new) }
    ensures slips { (D.state depot.new).slips ≡ (D.state depot.old).slips }
    ensures fails { OnlyWhere (λ d. false) result (D.state depot.old) (D.state depot.new) }
{
    let length = depot.length(spot)?;
    let mut bytes = Vec::new(alloc);
    bytes.resize(length as usize, 0)?;
    let read = depot.read_at(spot, 0, &mut bytes)?;
    bytes.truncate(read);
    Ok(bytes)
}
