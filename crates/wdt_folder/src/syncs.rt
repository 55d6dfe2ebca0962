//! How the files of which a sync is due are synced.
use crate::handle::Handle;
use std::fs::{File, OpenFile};
use std::thread;
use std::thread::{JoinHandle, Threads};

// So many files are synced at once.
const AT_ONCE: usize = 8;

/// A way to make files stable together.
///
/// A file is stable only where `Handle::sync` of it has answered so; one that wasn't tried, or that isn't
/// in the list any more, counts as one whose sync failed.
pub trait Syncs<F: Drop> {
    /// Syncs each of the files, and leaves them in the list, in any order. Behind one that fails others
    /// may be left out. Want of memory makes it slower, and fails nothing.
    fn sync(&mut self, files: &mut Vec<Handle<F>>);
}

/// One file after the other, up to the first that fails.
#[derive(Clone, Copy, Debug)]
pub struct OneByOne;

impl<F: OpenFile + Drop> Syncs<F> for OneByOne {
    fn sync(&mut self, files: &mut Vec<Handle<F>>) {
        sync_each(files);
    }
}

/// Several files of the system at once, each list of them in a thread of its own. All threads have ended
/// when a call returns. Where no thread can be made, it is slower.
#[derive(Drop)]
pub struct InThreads<T: Threads + Drop> {
    rt: T,
}

impl<T: Threads + Drop> InThreads<T> {
    /// Threads are made by this runtime.
    pub fn of(rt: T) -> InThreads<T> {
        InThreads { rt }
    }
}

impl<T: Threads + Drop> Syncs<File> for InThreads<T> {
    fn sync(&mut self, files: &mut Vec<Handle<File>>) {
        let mut threads = Vec::new(*files.allocator());
        let share = files.len().div_ceil(AT_ONCE);
        if threads.reserve(AT_ONCE).is_ok() {
            start(&self.rt, &mut threads, files, share);
        }
        sync_each(files);
        end(&self.rt, threads, files);
    }
}

// Syncs files one after the other, up to the first that fails.
fn sync_each<F: OpenFile + Drop>(files: &mut Vec<Handle<F>>) {
    for at in 0..files.len() {
        if !files[at].sync() {
            break;
        }
    }
}

fn synced(files: Vec<Handle<File>>) -> Vec<Handle<File>> {
    let mut files = files;
    sync_each(&mut files);
    files
}

// Starts threads that take a share of the files each, and leaves one share. There is room for the threads.
fn start<T: Threads>(
    rt: &T,
    threads: &mut Vec<JoinHandle<Vec<Handle<File>>>>,
    files: &mut Vec<Handle<File>>,
    share: usize,
) {
    for _ in 1..AT_ONCE {
        if files.len() <= share {
            break;
        }
        let Ok(taken) = files.split_off(files.len() - share) else {
            break;
        };
        match thread::spawn(rt, move || synced(taken)) {
            Ok(thread) => {
                let _ = threads.push(thread);
            }
            Err(refused) => {
                // No thread could be made.
                let job = refused.value;
                let _ = files.append(&mut job());
                break;
            }
        }
    }
}

// Waits for the threads, and puts their files back. There is room for them.
fn end<T: Threads>(
    rt: &T,
    threads: Vec<JoinHandle<Vec<Handle<File>>>>,
    files: &mut Vec<Handle<File>>,
) {
    for thread in threads {
        let mut taken = thread.join(rt);
        let _ = files.append(&mut taken);
    }
}
