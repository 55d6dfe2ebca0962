//! The listing of a tree that is to be sent, and what is left where no lane runs.
ghost use Rattle.std.specs.Prelude.{◌≡◌, ◌<◌, ◌≤◌, [], true, IfErr, IfOk, IfSome, IsErrOf, OnOk, Some, length, map};
ghost use Rattle.wdt_units.specs.Tree.{is_tree};
ghost use Rattle.wdt_tree.specs.Listing.{IsAccepted};
ghost use Rattle.wdt_tree.specs.Shown.{entry_of_file};
ghost use Rattle.wdt_lanes.specs.LaneLists.{EachLane};
ghost use Rattle.wdt_tool.specs.Causes.{IsListedFail};
ghost use Rattle.wdt_sending.specs.Counted.{SomeRose};
ghost use Rattle.wdt_sending.specs.Told.{first_told};

use crate::carried::{Carried, Parts};
use std::alloc::Global;
use wdt_source::Source;
use wdt_tool::{CommandFail, Status, listed};
use wdt_tree::Manifest;

/// The listing of the first source. `Err`: the source failed, a path or a size of its files is refused, or
/// memory ran out.
pub fn list_first<S: Source>(alloc: Global, sources: &mut Vec<S>) -> Result<Manifest, CommandFail>
    requires { 0 < length sources.old.items }
    ensures tree { IfOk result (λ m. IfSome (first_told S.told sources.old.items) (λ tree. (is_tree tree ≡ true) × (m ≡ map entry_of_file tree))) }
    ensures accepted { OnOk result (IfSome (first_told S.listing sources.old.items) IsAccepted) }
    ensures refused { IfErr result (IsListedFail (first_told S.listing sources.old.items)) }
    ensures cause { IsErrOf result CommandFail.Source → SomeRose S.faults sources.old.items sources.new.items }
    ensures later { EachLane (λ lane old new. S.faults old ≤ S.faults new) sources.old.items sources.new.items }
    ensures back { EachLane (λ lane old new. (S.told new ≡ S.told old) × (S.slips new ≡ S.slips old)) sources.old.items sources.new.items }
{
    listed(alloc, &mut sources[0])
}

/// What is left where no lane ran.
pub fn unrun<S, D, C, A>(
    alloc: Global,
    status: Status,
    parts: Parts<S, D, C, A>,
) -> Carried<S, D, C, A>
    ensures status { result.status ≡ status }
    ensures sender { result.sender.items ≡ [] }
    ensures receiver { result.receiver.items ≡ [] }
    ensures sources { result.sources ≡ parts.sources }
    ensures depot { result.depot ≡ Some parts.depot }
    ensures dialers { result.dialers ≡ parts.dialers }
    ensures acceptors { result.acceptors ≡ parts.acceptors }
{
    let Parts {
        sources,
        depot,
        dialers,
        acceptors,
    } = parts;
    Carried {
        status,
        sender: Vec::new(alloc),
        receiver: Vec::new(alloc),
        sources,
        depot: Some(depot),
        dialers,
        acceptors,
    }
}
