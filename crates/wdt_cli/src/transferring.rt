//! The words of a transfer, run on real folders and sockets.
ghost use Rattle.std.specs.Prelude.{◌≡◌, IfOk, Some, length, map, string_bytes};
ghost use Rattle.wdt_words.specs.Words.{HasLimits, transfer_of};

use crate::over_pipes::copy_folders;
use crate::over_tcp::{recv_folder, send_folder};
use std::alloc::{AllocError, Global};
use std::fs::File;
use std::io;
use std::net::{Net, TcpListener, TcpStream};
use std::os::unix::fs::FileExt;
use std::rt::{Clock, Files};
use std::sync::{Arc, Wait};
use std::thread::Threads;
use wdt_console::{Hold, lie_apart, take_hold};
use wdt_folder::{FolderSource, InThreads, OneLine};
use wdt_progress::{Cleared, Progress, WatchedSource};
use wdt_tool::Status;
use wdt_units::{Sink, ToWrite};
use wdt_words::{Transfer, folders_of};

/// Runs the transfer that the words are: copies from one folder into another, over connections inside the
/// process, or sends a folder's files to another machine, or receives such. Folders of a copy of which one
/// is the other, or lies in it, are left alone, and so is a destination into which another transfer is going
/// on. Where `is_shown`, a line on standard error tells how far it is. `Err` is want of memory.
pub fn transfer<
    R: Threads
        + Wait
        + Net<Listener = TcpListener, Stream = TcpStream>
        + Files<File = File>
        + AllocGlobal
        + Clock
        + Print
        + Eprint
        + Clone
        + Drop
        + Send
        + Sync,
>(
    rt: &R,
    alloc: Global,
    words: &[String],
    command: Transfer,
    is_shown: bool,
) -> Result<Status, AllocError>
where
    R::Dir: Send + Sync,
    requires words { transfer_of (map string_bytes words.now) ≡ Some command }
    requires limits { HasLimits command }
{
    let named = match folders_of(alloc, words) {
        Ok(Some(named)) => named,
        Ok(None) => return Ok(Status::Usage),
        Err(_) => return Err(AllocError),
    };
    let shown = if is_shown { Some(rt.clone()?) } else { None };
    let mut out = Cleared::of(ToWrite::of(io::writer(rt)), shown);
    if !named.source.is_empty() && !named.dest.is_empty() {
        if !lie_apart(rt, &named.source, &named.dest) {
            return Ok(end_early(Status::Usage, &mut out));
        }
    }
    let _held = match hold(rt, &named.dest) {
        Some(held) => held,
        None => return Ok(end_early(Status::DiskFault, &mut out)),
    };
    match command {
        Transfer::Copy { lanes, .. } => {
            let syncs = InThreads::of(rt.clone()?);
            copy_folders(rt, alloc, words, named, lanes, syncs, is_shown, &mut out)
        }
        Transfer::Send { port, lanes, .. } => {
            send_folder(rt, alloc, words, named, port, lanes, is_shown, &mut out)
        }
        Transfer::Recv { port, lanes, .. } => {
            let syncs = InThreads::of(rt.clone()?);
            recv_folder(
                rt, alloc, words, named, port, lanes, syncs, is_shown, &mut out,
            )
        }
    }
}

// Ends before the transfer begins, with the last line of a status. A line that can't be put changes none.
fn end_early(status: Status, out: &mut impl Sink) -> Status {
    let _ = out.put(status.line());
    status
}

// Holds the destination of a transfer, where it has one. None where another transfer holds it, which is said
// on standard error.
fn hold<R: Files<File = File> + AllocGlobal + Eprint>(rt: &R, dest: &str) -> Option<Hold> {
    if dest.is_empty() {
        return Some(Hold::Untold);
    }
    match take_hold(rt, dest) {
        Hold::Taken => {
            let _ = eprintln!(rt; "wdt: another transfer into {} is going on", OneLine(dest));
            None
        }
        held => Some(held),
    }
}

/// A source of the files below a folder for each lane, which counts what is read of it. `Err` is want of
/// memory.
pub fn sources_of<R: Files + AllocGlobal + Clock + Eprint + Clone + Drop>(
    rt: &R,
    alloc: Global,
    folder: &String,
    lanes: u8,
    progress: &Option<Arc<Progress<R>, Global>>,
) -> Result<Vec<WatchedSource<FolderSource<R>, R>>, AllocError>
where
    R::File: FileExt,
    ensures { IfOk result (λ sources. length sources.items ≡ lanes) }
{
    let mut sources = Vec::new(alloc);
    for _ in 0..lanes {
        let source = FolderSource::at(rt.clone()?, folder.clone()?);
        sources.push(WatchedSource::of(source, progress.clone()?))?;
    }
    Ok(sources)
}

/// Of the sources of a transfer the one that failed, or else the first, which was listed. None where there
/// is none.
pub fn failed_of<R: Files + AllocGlobal + Clock + Eprint + Clone + Drop>(
    sources: &[WatchedSource<FolderSource<R>, R>],
) -> Option<&FolderSource<R>>
where
    R::File: FileExt,
{
    let failed = sources
        .iter()
        .find(|watched| watched.source().fault().is_some());
    let watched = failed.or(sources.first())?;
    Some(watched.source())
}
