//! The words of a command that waits for nobody, run on real folders.
use crate::explaining::{Failed, explain, explain_out};
use crate::help::{HELP, VERSION};
use std::alloc::{AllocError, Global};
use std::io;
use std::os::unix::fs::FileExt;
use std::rt::Files;
use wdt_depot::MemDepot;
use wdt_folder::{FolderDepot, FolderSource, OneByOne};
use wdt_tool::{Status, tool};
use wdt_units::{Sink, ToWrite};
use wdt_words::{Named, folders_of};

/// Runs words that wait for nobody, puts their lines on standard output, and says on standard error what
/// went wrong. What can't be written there changes no status. `Err` is want of memory.
pub fn run<R: Files + AllocGlobal + Print + Eprint + Clone + Drop>(
    rt: &R,
    alloc: Global,
    words: &[String],
) -> Result<Status, AllocError>
where
    R::File: FileExt,
{
    if let [word] = words {
        if word.as_str() == "--help" {
            return Ok(tell(rt, &HELP));
        }
        if word.as_str() == "--version" {
            return Ok(tell(rt, &[VERSION]));
        }
    }
    match folders_of(alloc, words) {
        Ok(Some(named)) => run_on(rt, alloc, words, named),
        Ok(None) => in_memory(rt, alloc, words, String::new(alloc)),
        Err(_) => Err(AllocError),
    }
}

// Puts texts of the program's own on standard output.
fn tell<R: Print + Eprint>(rt: &R, texts: &[&str]) -> Status {
    let mut out = ToWrite::of(io::writer(rt));
    for text in texts {
        if out.put(text.as_bytes()).is_err() {
            let _ = explain_out(rt, out.fault());
            return Status::OutFault;
        }
    }
    Status::Done
}

// Runs the words of a command that names these folders: one that has no destination copies into memory.
fn run_on<R: Files + AllocGlobal + Print + Eprint + Clone + Drop>(
    rt: &R,
    alloc: Global,
    words: &[String],
    named: Named,
) -> Result<Status, AllocError>
where
    R::File: FileExt,
{
    let Named { source, dest, .. } = named;
    if dest.is_empty() {
        return in_memory(rt, alloc, words, source);
    }
    on_folders(rt, alloc, words, source, dest)
}

// Runs the words from a folder into memory.
fn in_memory<R: Files + AllocGlobal + Print + Eprint + Clone + Drop>(
    rt: &R,
    alloc: Global,
    words: &[String],
    source: String,
) -> Result<Status, AllocError>
where
    R::File: FileExt,
{
    let Ok(depot) = MemDepot::of(alloc, Vec::new(alloc), Vec::new(alloc)) else {
        return Err(AllocError);
    };
    let mut source = FolderSource::at(rt.clone()?, source);
    let mut out = ToWrite::of(io::writer(rt));
    let status = tool(alloc, words, &mut source, depot, &mut out).status;
    let failed = Failed {
        source: Some(&source),
        disk: None,
        link: None::<&str>,
        out: out.fault(),
    };
    let _ = explain(rt, alloc, &status, words, &failed);
    Ok(status)
}

// Runs the words on two folders.
fn on_folders<R: Files + AllocGlobal + Print + Eprint + Clone + Drop>(
    rt: &R,
    alloc: Global,
    words: &[String],
    source: String,
    dest: String,
) -> Result<Status, AllocError>
where
    R::File: FileExt,
{
    let mut source = FolderSource::at(rt.clone()?, source);
    let depot = FolderDepot::at(rt.clone()?, dest, OneByOne);
    let mut out = ToWrite::of(io::writer(rt));
    let tooled = tool(alloc, words, &mut source, depot, &mut out);
    let failed = Failed {
        source: Some(&source),
        disk: tooled.depot.fault(),
        link: None::<&str>,
        out: out.fault(),
    };
    let _ = explain(rt, alloc, &tooled.status, words, &failed);
    Ok(tooled.status)
}
