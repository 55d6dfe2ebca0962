// The places of paths.
ghost use Rattle.std.specs.Prelude.{◌≡◌, IfOk, OnErr, IsOkUnless, None, Some};
ghost use Rattle.wdt_depot.specs.Slots.{with_slot};
ghost use Rattle.wdt_depot.specs.View.{index_of};

use crate::failure::DepotFail;
use std::alloc::Global;
use std::collections::BTreeMap;
use wdt_units::Name;

// The place of a path.
pub fn place_of(index: &BTreeMap<String, usize>, path: &Name) -> Option<usize>
    ensures { result ≡ index_of index.now path.now }
{
    index.get(path.text()).copied()
}

// Gives a path a place, and answers the one that it had.
pub fn point(
    index: &mut BTreeMap<String, usize>,
    alloc: Global,
    path: &Name,
    place: usize,
) -> Result<Option<usize>, DepotFail>
    ensures before { IfOk result (λ before. before ≡ index_of index.old path.now) }
    ensures after { IfOk result (λ before. index_of index.new ≡ with_slot path.now (Some place) (index_of index.old)) }
    ensures err { OnErr result (index_of index.new ≡ index_of index.old) }
    ensures memory { IsOkUnless result DepotFail.NoMemory }
{
    let key = String::from_str(alloc, path.text())?;
    let before = index.insert(key, place)?;
    Ok(before)
}

// Takes the place of a path away.
pub fn unpoint(index: &mut BTreeMap<String, usize>, path: &Name)
    ensures { index_of index.new ≡ with_slot path.now None (index_of index.old) }
{
    let _ = index.remove(path.text());
}
