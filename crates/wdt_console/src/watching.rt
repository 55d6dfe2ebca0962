//! A transfer that somebody watches on a terminal.
ghost use Rattle.std.specs.Prelude.{◌≡◌, IfOk, is_some};
ghost use Rattle.wdt_folder.specs.FolderState.{folder_state};
ghost use Rattle.wdt_folder.specs.Untold.{fresh};

use std::alloc::{AllocError, Global};
use std::os::unix::fs::FileExt;
use std::rt::{Clock, Files};
use std::sync::Arc;
use wdt_folder::{FolderDepot, FolderSource, OneByOne, Syncs};
use wdt_progress::{Come, Deed, Progress, Watched};
use wdt_ranges::Have;
use wdt_tool::{listed, stored_have};

/// The depot of a copy from one folder into another, whose files are synced so. Where `is_shown`, a line
/// on standard error tells how far it is. `Err` is want of memory.
pub fn watched<R: Files + AllocGlobal + Clock + Eprint + Clone + Drop, S: Syncs<R::File> + Drop>(
    rt: &R,
    alloc: Global,
    is_shown: bool,
    source: &String,
    dest: String,
    syncs: S,
) -> Result<Watched<FolderDepot<R, S>, R>, AllocError>
where
    R::File: FileExt,
    ensures { IfOk result (λ depot. folder_state depot ≡ fresh) }
{
    let progress = if is_shown {
        progress_of(rt, alloc, source, &dest)?
    } else {
        None
    };
    let depot = FolderDepot::at(rt.clone()?, dest, syncs);
    Ok(Watched::of(depot, progress))
}

/// The depot of a receiver into a folder, whose files are synced so. Where `is_shown`, a line on standard
/// error tells how much has come; the whole isn't known at this end. `Err` is want of memory.
pub fn watched_arrival<
    R: Files + AllocGlobal + Clock + Eprint + Clone + Drop,
    S: Syncs<R::File> + Drop,
>(
    rt: &R,
    is_shown: bool,
    dest: String,
    syncs: S,
) -> Result<Watched<FolderDepot<R, S>, R>, AllocError>
where
    R::File: FileExt,
    ensures { IfOk result (λ depot. folder_state depot ≡ fresh) }
{
    let progress = begun(rt, is_shown, Deed::Received)?;
    let depot = FolderDepot::at(rt.clone()?, dest, syncs);
    Ok(Watched::of(depot, progress))
}

/// What the sources of a send count into, so that a line on standard error tells how far it is. None where
/// nothing is shown. `Err` is want of memory.
pub fn shared_progress<R: AllocGlobal + Clock + Eprint + Clone + Drop>(
    rt: &R,
    alloc: Global,
    is_shown: bool,
) -> Result<Option<Arc<Progress<R>, Global>>, AllocError>
    ensures { IfOk result (λ progress. is_some progress ≡ is_shown) }
{
    match begun(rt, is_shown, Deed::Sent)? {
        Some(progress) => Ok(Some(Arc::new(alloc, progress)?)),
        None => Ok(None),
    }
}

// A transfer of which nothing has come yet. None where nothing is shown.
fn begun<R: Clock + Eprint + Clone + Drop>(
    rt: &R,
    is_shown: bool,
    deed: Deed,
) -> Result<Option<Progress<R>>, AllocError>
    ensures { IfOk result (λ progress. is_some progress ≡ is_shown) }
{
    if !is_shown {
        return Ok(None);
    }
    let nothing = Come { files: 0, bytes: 0 };
    Ok(Some(Progress::of(rt.clone()?, deed, nothing)))
}

// How far a copy is as it begins. None where the source or the destination's log can't be read: the copy
// meets that itself.
fn progress_of<R: Files + AllocGlobal + Clock + Eprint + Clone + Drop>(
    rt: &R,
    alloc: Global,
    source: &String,
    dest: &String,
) -> Result<Option<Progress<R>>, AllocError>
where
    R::File: FileExt,
{
    let mut source = FolderSource::at(rt.clone()?, source.clone()?);
    let mut depot = FolderDepot::at(rt.clone()?, dest.clone()?, OneByOne);
    let Ok(manifest) = listed(alloc, &mut source) else {
        return Ok(None);
    };
    let Ok(have) = stored_have(alloc, &mut depot) else {
        return Ok(None);
    };
    let all = Come {
        files: u64::from(manifest.count()),
        bytes: manifest.total(),
    };
    let progress = Progress::of(rt.clone()?, Deed::Copied, come_in(&have));
    progress.expect(all, 0);
    Ok(Some(progress))
}

// So many files and bytes have come by a destination's log.
fn come_in(have: &Have) -> Come {
    let files = have.files();
    let mut bytes: u64 = 0;
    for file in files {
        bytes = bytes.saturating_add(file.spans.total());
    }
    Come {
        files: files.len() as u64,
        bytes,
    }
}
