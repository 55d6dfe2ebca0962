//! Transfers on real folders, run as the program runs them.
use crate::fixtures::texts_of;
use crate::transferring::transfer;
use std::alloc::Global;
use std::env::temp_dir;
use std::fs::{self, File};
use std::net::{Net, TcpListener, TcpStream};
use std::rt::{Clock, Files};
use std::sync::Wait;
use std::test::Fail;
use std::thread::Threads;
use std::time::{SystemTime, UNIX_EPOCH};
use wdt_words::transfer_of;

/// A new folder in the temporary folder, which no other run has.
pub fn new_folder(rt: &HostRuntime) -> Result<String, Fail> {
    let temp = temp_dir(rt)?;
    let temp = temp.as_str();
    let nanos = SystemTime::now(rt)?.duration_since(UNIX_EPOCH)?.as_nanos();
    let folder = format!(in rt.alloc(); "{temp}/wdt_cli_{nanos}")?;
    fs::create_dir(rt, folder.as_str())?;
    Ok(folder)
}

/// Runs the words of a transfer and tells its exit status. None where they are no transfer, or memory ran
/// out.
pub fn status_of<
    R: Threads
        + Wait
        + Net<Listener = TcpListener, Stream = TcpStream>
        + Files<File = File>
        + AllocGlobal
        + Clock
        + Print
        + Eprint
        + Clone
        + Drop
        + Send
        + Sync,
>(rt: &R, alloc: Global, words: &[&str]) -> Option<u8>
where
    R::Dir: Send + Sync,
{
    let texts = texts_of(alloc, words).ok()?;
    let command = transfer_of(&texts)?;
    match transfer(rt, alloc, &texts, command, false) {
        Ok(status) => Some(status.code()),
        Err(_) => None,
    }
}
