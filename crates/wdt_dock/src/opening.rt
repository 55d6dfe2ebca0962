//! The opening of a dock.
ghost use Rattle.std.specs.Prelude.{◌≡◌, ◌≤◌, List, map, replicate, IfOk, IsTrue};
ghost use Rattle.wdt_logfmt.specs.View.{is_view, named_file, named_files};
ghost use Rattle.wdt_writer.specs.PlainWriter.{opened};
ghost use Rattle.wdt_receiver_fsm.specs.End.{new_end};
ghost use Rattle.wdt_dock.specs.Dock.{AreStamped, IsStamped, of_log};

use std::alloc::Global;
use thiserror::Error;
use wdt_log::LogFail;
use wdt_logfmt::{LogFile, LogView};
use wdt_receiver_fsm::RecvEnd;
use wdt_units::{MAX_LANES, NoMemory};
use wdt_writer::Writer;

/// Why a dock doesn't open.
#[derive(Clone, Copy, Debug, PartialEq, Eq, Error)]
pub enum DockFail {
    /// The depot failed, and has counted a fault.
    #[error("the disk failed")]
    Disk,
    /// The log that is there has no reading from this place on, counted in bytes from its start.
    #[error("the log is damaged from byte {at} on")]
    BadLog { at: u64 },
    /// The log means what it meant before.
    #[error("out of memory")]
    NoMemory,
}

// Why a dock doesn't open, where its log doesn't.
pub fn of_log(fail: LogFail) -> DockFail
    ensures { result ≡ of_log fail }
{
    match fail {
        LogFail::Disk => DockFail::Disk,
        LogFail::BadLog { at } => DockFail::BadLog { at },
        LogFail::Shut => DockFail::Disk,
        LogFail::NoMemory => DockFail::NoMemory,
    }
}

// The writer and the end behind what a log says.
pub fn parts_of(
    alloc: Global,
    view: &LogView,
    lanes: u8,
    batch: u64,
) -> Result<(Writer, RecvEnd), NoMemory>
    requires view { IsTrue (is_view (named_files (view.now).files.items)) }
    requires lanes { lanes ≤ MAX_LANES }
    ensures writer { IfOk result (λ parts. parts.0 ≡ opened (named_files (view.now).files.items) lanes) }
    ensures end { IfOk result (λ parts. parts.1 ≡ new_end (named_files (view.now).files.items) batch lanes) }
    ensures stamped { IfOk result (λ _. AreStamped (named_files (view.now).files.items)) }
{
    let writer = Writer::of(alloc, view, lanes)?;
    let end = RecvEnd::of(alloc, copy_of(alloc, view)?, lanes, batch)?;
    Ok((writer, end))
}

// The same in memory of its own.
fn copy_of(alloc: Global, view: &LogView) -> Result<LogView, NoMemory>
    ensures files { IfOk result (λ copy. named_files copy.files.items ≡ named_files (view.now).files.items) }
    ensures stamped { IfOk result (λ _. AreStamped (named_files (view.now).files.items)) }
{
    Ok(LogView {
        files: copies_of(alloc, &view.files)?,
        end: view.end,
    })
}

fn copies_of(alloc: Global, files: &[LogFile]) -> Result<Vec<LogFile>, NoMemory>
    ensures files { IfOk result (λ copies. named_files copies.items ≡ named_files files.now) }
    ensures stamped { IfOk result (λ _. AreStamped (named_files files.now)) }
{
    let mut copies = Vec::new(alloc);
    for file in files {
        copies.push(copy_one(file)?)?;
    }
    Ok(copies)
}

// A file in memory of its own. Its stamp is one of 64 bits, as its type says.
fn copy_one(file: &LogFile) -> Result<LogFile, NoMemory>
    ensures value { IfOk result (λ copy. named_file copy ≡ named_file file.now) }
    ensures stamped { IfOk result (λ _. IsStamped (named_file file.now)) }
{
    Ok(LogFile {
        number: file.number,
        have: file.have.copy()?,
    })
}
