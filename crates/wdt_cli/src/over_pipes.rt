//! A copy from one real folder into another.
ghost use Rattle.std.specs.Prelude.{IfSome, map, string_bytes};
ghost use Rattle.wdt_words.specs.Words.{transfer_of};
ghost use Rattle.wdt_cli.specs.Carried.{IsServed};

use crate::carry::carry;
use crate::transferring::{failed_of, sources_of};
use std::alloc::{AllocError, Global};
use std::io;
use std::os::unix::fs::FileExt;
use std::rt::{Clock, Files};
use std::sync::Wait;
use std::thread::Threads;
use wdt_console::{Failed, explain, watched};
use wdt_folder::{FolderDepot, FolderSource, Syncs};
use wdt_pipes::pipe_ends;
use wdt_progress::{Cleared, Watched, WatchedSource};
use wdt_sending::Carried;
use wdt_tool::Status;
use wdt_tree::Untold;
use wdt_units::ToWrite;
use wdt_words::Named;

/// Copies the words' folder into their other one over pipes, with a source for each lane, where files are
/// synced so, and says on standard error what went wrong. `Err` is want of memory.
pub fn copy_folders<
    R: Threads + Wait + Files + AllocGlobal + Clock + Eprint + Clone + Drop + Send + Sync,
    S: Syncs<R::File> + Drop + Send + Sync,
    W: io::Write + Drop,
>(
    rt: &R,
    alloc: Global,
    words: &[String],
    named: Named,
    lanes: u8,
    syncs: S,
    is_shown: bool,
    out: &mut Cleared<ToWrite<W>, R>,
) -> Result<Status, AllocError>
where
    R::File: FileExt + Send + Sync,
    R::Dir: Send + Sync,
    // The words are a copy over so many lanes.
    requires { IfSome (transfer_of (map string_bytes words.now)) (λ transfer. IsServed transfer lanes lanes lanes) }
{
    let Named { source, dest, .. } = named;
    // What has come is counted at the destination.
    let sources = sources_of(rt, alloc, &source, lanes, &None)?;
    let depot = watched(rt, alloc, is_shown, &source, dest, syncs)?;
    let (no_dials, no_accepts) = (Vec::new(alloc), Vec::new(alloc));
    let ends = pipe_ends::<R, Untold>(rt.clone()?, alloc, lanes, no_dials, no_accepts);
    let Ok((dialers, acceptors)) = ends else {
        return Err(AllocError);
    };
    let carried = carry::<R, Untold, _, _, _, _, _>(
        rt, alloc, words, sources, depot, dialers, acceptors, out,
    );
    out.clear();
    explain_copy(rt, alloc, &carried, words, out.sink().fault());
    Ok(carried.status)
}

// Says what went wrong in a copy.
fn explain_copy<
    R: Files + AllocGlobal + Clock + Eprint + Clone + Drop,
    S: Syncs<R::File> + Drop,
    C,
    A,
>(
    rt: &R,
    alloc: Global,
    carried: &Carried<WatchedSource<FolderSource<R>, R>, Watched<FolderDepot<R, S>, R>, C, A>,
    words: &[String],
    out: Option<&io::Error>,
)
where
    R::File: FileExt,
{
    let Carried {
        status,
        sources,
        depot,
        ..
    } = carried;
    let disk = match depot {
        Some(depot) => depot.depot().fault(),
        None => None,
    };
    let failed = Failed {
        source: failed_of(sources),
        disk,
        link: None::<&str>,
        out,
    };
    let _ = explain(rt, alloc, status, words, &failed);
}
