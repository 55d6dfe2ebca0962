//! The plan of a transfer.
ghost use Rattle.std.specs.Prelude.{◌≡◌, ◌≢◌, ◌≤◌, None, Some, length, IfErr, IfOk, OnOk, IsTrue};
ghost use Rattle.wdt_tree.specs.Rest.{IsRest};
ghost use Rattle.wdt_ranges.specs.Files.{is_in_order};
ghost use Rattle.wdt_rest.specs.RestOf.{rest_of};
ghost use Rattle.wdt_discover.specs.declared.fail.PlanFail.TheVariants.{NoMemory as OutOfMemory};
ghost use Rattle.wdt_discover.specs.Plan.{refusal};

use crate::fail::PlanFail;
use crate::rest::{count_rest, list_rest};
use crate::stale::check_files;
use std::alloc::Global;
use wdt_ranges::Have;
use wdt_rest::the_rest_as_a_list;
use wdt_tree::Manifest;
use wdt_units::{Block, MAX_BLOCKS};

/// The blocks that a destination still lacks of a tree, where a whole block has `block` bytes.
/// Unless memory runs out there is no plan exactly where `refusal` of `specs/Plan` names one: the least
/// file that the destination names and that doesn't fit the tree, else too many blocks.
pub fn plan(
    alloc: Global,
    manifest: &Manifest,
    have: &Have,
    block: u32,
) -> Result<Vec<Block>, PlanFail>
    requires order { IsTrue (is_in_order have.now) }
    requires block { 1 ≤ block }
    ensures rest { IfOk result (λ blocks. IsRest manifest.now have.now block blocks.items) }
    ensures list { IfOk result (λ blocks. blocks.items ≡ rest_of manifest.now have.now block) }
    ensures few { IfOk result (λ blocks. length blocks.items ≤ MAX_BLOCKS) }
    ensures accepted { OnOk result (refusal manifest.now have.now block ≡ None) }
    ensures refused { IfErr result (λ e. e ≢ OutOfMemory → refusal manifest.now have.now block ≡ Some e) }
{
    let files = have.files();
    check_files(manifest, files)?;
    // The count comes first, so a list that is too long is never made.
    let count = count_rest(alloc, manifest, files, block)?;
    if count > u64::from(MAX_BLOCKS) {
        return Err(PlanFail::TooManyBlocks { count });
    }
    // The law of `wdt_rest`: the list is the rest.
    the_rest_as_a_list();
    Ok(list_rest(alloc, manifest, files, block)?)
}
