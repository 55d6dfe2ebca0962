//! A send from a real folder, and a receiver into one, over TCP.
ghost use Rattle.std.specs.Prelude.{◌≤◌, ◌+◌, ◌^◌, IfSome, map, string_bytes};
ghost use Rattle.wdt_words.specs.Words.{transfer_of};
ghost use Rattle.wdt_cli.specs.Carried.{IsServed};

use crate::carry::carry;
use crate::transferring::{failed_of, sources_of};
use std::alloc::{AllocError, Global};
use std::io;
use std::net::{Net, TcpListener, TcpStream};
use std::os::unix::fs::FileExt;
use std::rt::{Clock, Files};
use std::sync::Wait;
use std::thread::Threads;
use wdt_console::{Failed, explain, shared_progress, watched_arrival};
use wdt_depot::MemDepot;
use wdt_folder::{Fault, FolderDepot, FolderSource, Syncs};
use wdt_net::{NetFault, TcpAccept, TcpDial, tcp_accepts, tcp_dials};
use wdt_progress::{Cleared, Watched, WatchedSource};
use wdt_sending::Carried;
use wdt_tool::Status;
use wdt_tree::Untold;
use wdt_units::ToWrite;
use wdt_words::Named;

/// Sends the words' folder to the receiver at their host, with a source for each lane, whose ports begin at
/// `port`, and says on standard error what went wrong, and where `is_shown` how far it is. `Err` is want of
/// memory.
pub fn send_folder<
    R: Threads
        + Wait
        + Net<Listener = TcpListener, Stream = TcpStream>
        + Files
        + AllocGlobal
        + Clock
        + Eprint
        + Clone
        + Drop
        + Send
        + Sync,
    W: io::Write + Drop,
>(
    rt: &R,
    alloc: Global,
    words: &[String],
    named: Named,
    port: u16,
    lanes: u8,
    is_shown: bool,
    out: &mut Cleared<ToWrite<W>, R>,
) -> Result<Status, AllocError>
where
    R::File: FileExt + Send + Sync,
    R::Dir: Send + Sync,
    // The words are a send over so many lanes, and each has a port.
    requires served { IfSome (transfer_of (map string_bytes words.now)) (λ transfer. IsServed transfer lanes lanes 0) }
    requires ports { port + lanes ≤ 2 ^ 16 }
{
    let Named { source, host, .. } = named;
    let progress = shared_progress(rt, alloc, is_shown)?;
    let sources = sources_of(rt, alloc, &source, lanes, &progress)?;
    let Ok(dialers) = tcp_dials::<R, Untold>(rt, alloc, &host, port, lanes) else {
        return Err(AllocError);
    };
    let Ok(unused) = MemDepot::of(alloc, Vec::new(alloc), Vec::new(alloc)) else {
        return Err(AllocError);
    };
    let nobody: Vec<TcpAccept<R, Untold>> = Vec::new(alloc);
    let carried = carry::<R, Untold, _, _, _, _, _>(
        rt, alloc, words, sources, unused, dialers, nobody, out,
    );
    out.clear();
    let failed = Failed {
        source: failed_of(&carried.sources),
        disk: None,
        link: dial_fault(&carried.dialers),
        out: out.sink().fault(),
    };
    let _ = explain(rt, alloc, &carried.status, words, &failed);
    Ok(carried.status)
}

// The fault of the first dialer that has one.
fn dial_fault<R: Net<Listener = TcpListener, Stream = TcpStream> + Clock + Drop>(
    dialers: &[TcpDial<R, Untold>],
) -> Option<NetFault<'_>> {
    for dialer in dialers {
        if let Some(fault) = dialer.fault() {
            return Some(fault);
        }
    }
    None
}

/// Listens at the words' host, on a port for each lane from `port` on, receives into their folder what is
/// sent, where files are synced so, and says on standard error what went wrong, and where `is_shown` how much
/// has come. `Err` is want of memory.
pub fn recv_folder<
    R: Threads
        + Wait
        + Net<Listener = TcpListener, Stream = TcpStream>
        + Files
        + AllocGlobal
        + Clock
        + Eprint
        + Clone
        + Drop
        + Send
        + Sync,
    S: Syncs<R::File> + Drop + Send + Sync,
    W: io::Write + Drop,
>(
    rt: &R,
    alloc: Global,
    words: &[String],
    named: Named,
    port: u16,
    lanes: u8,
    syncs: S,
    is_shown: bool,
    out: &mut Cleared<ToWrite<W>, R>,
) -> Result<Status, AllocError>
where
    R::File: FileExt + Send + Sync,
    R::Dir: Send + Sync,
    // The words are a receiver over so many lanes, and each has a port.
    requires served { IfSome (transfer_of (map string_bytes words.now)) (λ transfer. IsServed transfer 0 0 lanes) }
    requires ports { port + lanes ≤ 2 ^ 16 }
{
    let Named { dest, host, .. } = named;
    let Ok(acceptors) = tcp_accepts::<R, Untold>(rt, alloc, &host, port, lanes) else {
        return Err(AllocError);
    };
    let depot = watched_arrival(rt, is_shown, dest, syncs)?;
    let sources: Vec<WatchedSource<FolderSource<R>, R>> = Vec::new(alloc);
    let nobody: Vec<TcpDial<R, Untold>> = Vec::new(alloc);
    let carried = carry::<R, Untold, _, _, _, _, _>(
        rt, alloc, words, sources, depot, nobody, acceptors, out,
    );
    out.clear();
    let failed = Failed {
        source: failed_of(&carried.sources),
        disk: disk_fault(&carried.depot),
        link: accept_fault(&carried.acceptors),
        out: out.sink().fault(),
    };
    let _ = explain(rt, alloc, &carried.status, words, &failed);
    Ok(carried.status)
}

// The fault of the destination, where it came back.
fn disk_fault<R: Files + AllocGlobal + Clock + Eprint + Clone + Drop, S: Syncs<R::File> + Drop>(
    depot: &Option<Watched<FolderDepot<R, S>, R>>,
) -> Option<&Fault>
where
    R::File: FileExt,
{
    match depot {
        Some(depot) => depot.depot().fault(),
        None => None,
    }
}

// The fault of the first acceptor that has one.
fn accept_fault<R: Net<Listener = TcpListener, Stream = TcpStream> + Clock + Wait + Drop>(
    acceptors: &[TcpAccept<R, Untold>],
) -> Option<NetFault<'_>> {
    for acceptor in acceptors {
        if let Some(fault) = acceptor.fault() {
            return Some(fault);
        }
    }
    None
}
