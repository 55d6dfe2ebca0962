//! The dialers and acceptors of all lanes.
ghost use Rattle.std.specs.Prelude.{◌≡◌, IfOk};
ghost use Rattle.wdt_pipes.specs.Ends.{fails_of, new_end, new_ends};

use crate::accept::PipeAccept;
use crate::dial::PipeDial;
use crossbeam_channel::unbounded;
use std::alloc::{AllocError, Global};
use std::sync::Wait;
use wdt_tree::Run;
use wdt_units::{Lane, NoMemory};

// The numbers of one lane's calls that fail.
fn fails_of(alloc: Global, lane: u8, pairs: &[(Lane, u32)]) -> Result<Vec<u32>, AllocError>
    ensures { IfOk result (λ fails. fails.items ≡ fails_of lane pairs.now) }
{
    let mut fails = Vec::new(alloc);
    for (of, number) in pairs {
        if of.0 == lane {
            fails.push(*number)?;
        }
    }
    Ok(fails)
}

// Both ends of one lane.
fn lane_ends<R: Wait + Clone + Drop, N: Run>(
    rt: &R,
    alloc: Global,
    dial_fails: Vec<u32>,
    accept_fails: Vec<u32>,
) -> Result<(PipeDial<R, N>, PipeAccept<R, N>), AllocError>
    ensures dialer { IfOk result (λ ends. ends.0 ≡ new_end dial_fails.items) }
    ensures acceptor { IfOk result (λ ends. ends.1 ≡ new_end accept_fails.items) }
{
    // An unbounded channel drops what waits as soon as its receiver goes, a bounded one keeps it until
    // its sender goes, too: a dialer would wait for ever on a connection that nobody takes.
    let (to, from) = unbounded(alloc)?;
    let near = rt.clone()?;
    let far = rt.clone()?;
    Ok((
        PipeDial::of(near, alloc, to, dial_fails),
        PipeAccept::of(far, from, accept_fails),
    ))
}

// The ends of all lanes, lane by lane.
fn all_ends<R: Wait + Clone + Drop, N: Run>(
    rt: &R,
    alloc: Global,
    lanes: u8,
    dial_fails: &[(Lane, u32)],
    accept_fails: &[(Lane, u32)],
) -> Result<(Vec<PipeDial<R, N>>, Vec<PipeAccept<R, N>>), AllocError>
    ensures dialers { IfOk result (λ ends. ends.0.items ≡ new_ends lanes dial_fails.now) }
    ensures acceptors { IfOk result (λ ends. ends.1.items ≡ new_ends lanes accept_fails.now) }
{
    let mut dialers = Vec::new(alloc);
    let mut acceptors = Vec::new(alloc);
    for lane in 0..lanes {
        let dial_fails = fails_of(alloc, lane, dial_fails)?;
        let accept_fails = fails_of(alloc, lane, accept_fails)?;
        let (dialer, acceptor) = lane_ends(rt, alloc, dial_fails, accept_fails)?;
        dialers.push(dialer)?;
        acceptors.push(acceptor)?;
    }
    Ok((dialers, acceptors))
}

/// A dialer and an acceptor for each lane from 0 on, which make their connections inside the process.
/// `lanes` is 1 to 16. A pair is a lane and the number, from 1, of a call of its dialer or acceptor that
/// fails.
pub fn pipe_ends<R: Wait + Clone + Drop, N: Run>(
    rt: R,
    alloc: Global,
    lanes: u8,
    dial_fails: Vec<(Lane, u32)>,
    accept_fails: Vec<(Lane, u32)>,
) -> Result<(Vec<PipeDial<R, N>>, Vec<PipeAccept<R, N>>), NoMemory>
    ensures dialers { IfOk result (λ ends. ends.0.items ≡ new_ends lanes dial_fails.items) }
    ensures acceptors { IfOk result (λ ends. ends.1.items ≡ new_ends lanes accept_fails.items) }
{
    all_ends(&rt, alloc, lanes, &dial_fails, &accept_fails).map_err(|_| NoMemory)
}
