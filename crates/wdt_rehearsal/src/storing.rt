//! The way of a tree's files into a depot.
ghost use Rattle.std.specs.Prelude.{◌≡◌, [], ◌∷◌, map, IsErrOf, OnOk};
ghost use Rattle.wdt_depot.specs.Moments.{IfTold};
ghost use Rattle.wdt_depot.specs.State.{Counts, IsEntered, at_spot};
ghost use Rattle.wdt_tree.specs.Shown.{shown};
ghost use Rattle.wdt_rehearsal.specs.Destination.{LeavesOthers, Lands};
ghost use Rattle.wdt_rehearsal.specs.Storing.{IsEmptyAt, IsSettled, IsWritten, LeavesBeside};

use wdt_depot::{Depot, DepotFail};
use wdt_tree::Plain;
use wdt_units::{PIECE, Spot};

/// Leaves each file in the depot, made anew, written and synced. The last of the list comes first, so
/// that each file's memory is given back once it is stored. After a failure some files may stand; at
/// every moment each other path is as it was.
pub fn store<D: Depot>(depot: &mut D, files: Vec<Plain>) -> Result<(), DepotFail>
    requires { (D.state depot.old).spots ≡ [] }
    ensures landed { OnOk result (Lands (map shown files.items) (D.state depot.old).told (D.state depot.new).told) }
    ensures others { LeavesOthers (map shown files.items) (D.state depot.old).told (D.state depot.new).told }
    ensures spots { (D.state depot.new).spots ≡ [] }
    ensures counts { Counts (IsErrOf result DepotFail.Failed) (D.state depot.old) (D.state depot.new) }
    ensures slips { IfTold (λ t. (D.state depot.new).slips ≡ (D.state depot.old).slips) (D.state depot.old).told }
{
    let mut files = files;
    while let Some(file) = files.pop() {
        store_file(depot, &file)?;
    }
    Ok(())
}

// Leaves one file in the depot, and each other path as it is.
fn store_file<D: Depot>(depot: &mut D, file: &Plain) -> Result<(), DepotFail>
    requires { (D.state depot.old).spots ≡ [] }
    ensures landed { OnOk result (Lands (shown file.now ∷ []) (D.state depot.old).told (D.state depot.new).told) }
    ensures beside { LeavesBeside file.now.path (D.state depot.old).told (D.state depot.new).told }
    ensures spots { (D.state depot.new).spots ≡ [] }
    ensures counts { Counts (IsErrOf result DepotFail.Failed) (D.state depot.old) (D.state depot.new) }
    ensures slips { IfTold (λ t. (D.state depot.new).slips ≡ (D.state depot.old).slips) (D.state depot.old).told }
{
    depot.make(&file.path)?;
    let spot = depot.need(&file.path)?;
    let result = fill(depot, spot, &file.bytes);
    depot.leave(spot);
    result
}

// Writes the bytes to the empty file of this spot, and syncs them.
fn fill<D: Depot>(depot: &mut D, spot: Spot, bytes: &[u8]) -> Result<(), DepotFail>
    requires entered { IsEntered spot.0 (D.state depot.old) }
    requires empty { IsEmptyAt (at_spot spot.0 (D.state depot.old)) (D.state depot.old).told }
    ensures settled { OnOk result (IsSettled (at_spot spot.0 (D.state depot.old)) bytes.now (D.state depot.old).told (D.state depot.new).told) }
    ensures beside { LeavesBeside (at_spot spot.0 (D.state depot.old)) (D.state depot.old).told (D.state depot.new).told }
    ensures spots { (D.state depot.new).spots ≡ (D.state depot.old).spots }
    ensures counts { Counts (IsErrOf result DepotFail.Failed) (D.state depot.old) (D.state depot.new) }
    ensures slips { IfTold (λ t. (D.state depot.new).slips ≡ (D.state depot.old).slips) (D.state depot.old).told }
{
    write(depot, spot, bytes)?;
    match depot.sync(spot) {
        Ok(()) => Ok(()),
        Err(_) => Err(DepotFail::Failed),
    }
}

// Writes the bytes to the empty file of this spot, piece by piece.
fn write<D: Depot>(depot: &mut D, spot: Spot, bytes: &[u8]) -> Result<(), DepotFail>
    requires entered { IsEntered spot.0 (D.state depot.old) }
    requires empty { IsEmptyAt (at_spot spot.0 (D.state depot.old)) (D.state depot.old).told }
    ensures written { OnOk result (IsWritten (at_spot spot.0 (D.state depot.old)) bytes.now (D.state depot.old).told (D.state depot.new).told) }
    ensures beside { LeavesBeside (at_spot spot.0 (D.state depot.old)) (D.state depot.old).told (D.state depot.new).told }
    ensures spots { (D.state depot.new).spots ≡ (D.state depot.old).spots }
    ensures counts { Counts (IsErrOf result DepotFail.Failed) (D.state depot.old) (D.state depot.new) }
    ensures slips { IfTold (λ t. (D.state depot.new).slips ≡ (D.state depot.old).slips) (D.state depot.old).told }
{
    let mut done = 0;
    while done < bytes.len() {
        let count = PIECE.min(bytes.len() - done);
        depot.write_at(spot, done as u64, &bytes[done..done + count])?;
        done += count;
    }
    Ok(())
}
