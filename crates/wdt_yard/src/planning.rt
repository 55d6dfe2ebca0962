//! What is planned for a destination.
ghost use Rattle.std.specs.Prelude.{◌≡◌, ◌≢◌, ◌<◌, ◌≤◌, ◌^◌, length, Some, None, IfOk, IsTrue};
ghost use Rattle.std.specs.Result.{result_err};
ghost use Rattle.wdt_claims.specs.Blocks.{are_rising, HaveSameBlocks};
ghost use Rattle.wdt_rest.specs.RestOf.{rest_of};
ghost use Rattle.wdt_sender_fsm.specs.Chunks.{refusal, unordered_at};
ghost use Rattle.wdt_yard.specs.End.{AreOf};
ghost use Rattle.wdt_yard.specs.Kinds.{refused_as};
ghost use Rattle.wdt_discover.specs.declared.fail.PlanFail.TheVariants.{NoMemory as OutOfMemory};

use std::alloc::Global;
use wdt_discover::{PlanFail, plan};
use wdt_queue::Queue;
use wdt_ranges::Have;
use wdt_sender_fsm::RefusedKind;
use wdt_tree::Manifest;
use wdt_units::{Block, NoMemory};

/// The blocks that a destination lacks, or why the tree isn't sent to it.
pub fn plan_for(
    alloc: Global,
    manifest: &Manifest,
    have: &Have,
    block: u32,
) -> Result<Result<Vec<Block>, RefusedKind>, NoMemory>
    requires order { unordered_at have.now ≡ None }
    requires some { 1 ≤ block }
    ensures refused { IfOk result (λ planned. result_err planned ≡ refusal manifest.now have.now block) }
    ensures rest { IfOk result (λ planned. IfOk planned (λ blocks. blocks.items ≡ rest_of manifest.now have.now block)) }
    ensures few { IfOk result (λ planned. IfOk planned (λ blocks. length blocks.items < 2 ^ 31)) }
    ensures rising { IfOk result (λ planned. IfOk planned (λ blocks. IsTrue (are_rising blocks.items))) }
    ensures files { IfOk result (λ planned. IfOk planned (λ blocks. AreOf (length manifest.now) blocks.items)) }
{
    match plan(alloc, manifest, have, block) {
        Ok(blocks) => Ok(Ok(blocks)),
        Err(fail) => Ok(Err(refused_as(fail)?)),
    }
}

// What a plan that failed is told as.
fn refused_as(fail: PlanFail) -> Result<RefusedKind, NoMemory>
    ensures kind { IfOk result (λ kind. refused_as fail ≡ Some kind) }
    ensures memory { IfOk result (λ kind. fail ≢ OutOfMemory) }
{
    match fail {
        PlanFail::Stale {
            path,
            logged,
            found,
        } => Ok(RefusedKind::Stale {
            path,
            logged,
            found,
        }),
        PlanFail::TooManyBlocks { count } => Ok(RefusedKind::TooManyBlocks { count }),
        PlanFail::NoMemory => Err(NoMemory),
    }
}

/// The queue of blocks.
pub fn queue_of(alloc: Global, blocks: &[Block]) -> Result<Queue, NoMemory>
    requires few { length blocks.now < 2 ^ 31 }
    requires rising { IsTrue (are_rising blocks.now) }
    ensures rising { IfOk result (λ queue. IsTrue (are_rising queue.waiting)) }
    ensures same { IfOk result (λ queue. HaveSameBlocks queue.waiting blocks.now) }
    ensures full { IfOk result (λ queue. queue.room ≡ 0) }
{
    let Ok(copy) = Vec::from_slice(alloc, blocks) else {
        return Err(NoMemory);
    };
    Queue::of(copy)
}
