//! Tries a receiver's end with its files against a slow, plain receiver, on random transfers.
//!
//! Each transfer goes to a depot in memory of its own, by ends that follow each other: connections are cut,
//! frames come that may not come, calls of the disk fail, machines go down, programs end. The real end and the
//! plain one get the same inputs and bytes, and behind each step are compared: what the lane is to do, where
//! all lanes stand and what they take, how the end fares, and all that happened. Behind each end what the
//! files read is compared, and what the log says, from which both go on. `sender` says what an honest sender
//! does next, `strays` what it never does; `ends` steps both, `comparing` compares them, `depots` is what is
//! between two ends, and `session` a whole transfer.
//!
//! The words are a seed and how many transfers there are. The same seed comes to the same transfers, so that a
//! difference can be had again. Three words, `blocks` and how many there are of how many bytes each, are another
//! thing: one transfer, to be timed (`bulk`).
#![tactic(auto)]

mod bulk;
mod comparing;
mod counts;
mod depots;
mod dice;
mod ends;
mod frames;
mod halt;
mod sender;
mod session;
mod strays;

use bulk::Bulk;
use counts::Counts;
use dice::Dice;
use std::io;
use std::process::ExitCode;
use std::rt::Env;

/// What the words ask for.
#[derive(Clone, Copy, Debug)]
enum Words {
    /// Trials of this seed, so many.
    Trials(u64, u32),
    /// One transfer, to be timed.
    Bulk(Bulk),
}

fn main(rt: HostRuntime) -> io::Result<ExitCode> {
    match words_of(&rt)? {
        Some(Words::Trials(seed, sessions)) => run_trials(&rt, seed, sessions),
        Some(Words::Bulk(bulk)) => run_bulk(&rt, bulk),
        None => {
            eprintln!(rt; "usage: wdt_dock_trials SEED SESSIONS | blocks COUNT BYTES")?;
            Ok(ExitCode::from(2))
        }
    }
}

// Runs trials until two ends differ, and prints what was counted, or in what they do.
fn run_trials(rt: &(impl Print + AllocGlobal), seed: u64, sessions: u32) -> io::Result<ExitCode> {
    let mut dice = Dice::of(seed);
    let mut counts = Counts::NONE;
    for session in 0..sessions {
        let before = counts.steps;
        if let Err(halt) = session::run(rt.alloc(), &mut dice, &mut counts) {
            let step = counts.steps.saturating_sub(before);
            println!(rt; "seed {seed} session {session} step {step}: {halt}")?;
            return Ok(ExitCode::from(1));
        }
    }
    println!(rt; "{counts}")?;
    Ok(ExitCode::from(0))
}

// Runs one transfer of many blocks.
fn run_bulk(rt: &(impl Print + AllocGlobal), bulk: Bulk) -> io::Result<ExitCode> {
    match bulk::take_all(rt.alloc(), bulk) {
        Ok(true) => {
            println!(rt; "ok")?;
            Ok(ExitCode::from(0))
        }
        Ok(false) => Ok(ExitCode::from(1)),
        Err(halt) => {
            println!(rt; "{halt}")?;
            Ok(ExitCode::from(1))
        }
    }
}

// The words behind the program's name.
fn words_of(rt: &(impl Env + AllocGlobal)) -> io::Result<Option<Words>> {
    let mut words = Vec::new(rt.alloc());
    for word in std::env::args(rt)?.skip(1) {
        words.push(word)?;
    }
    Ok(match words.as_slice() {
        [seed, sessions] => trials_of(seed, sessions),
        [word, count, length] if word.as_str() == "blocks" => bulk_of(count, length),
        _ => None,
    })
}

fn trials_of(seed: &str, sessions: &str) -> Option<Words> {
    match (seed.parse::<u64>(), sessions.parse::<u32>()) {
        (Ok(seed), Ok(sessions)) => Some(Words::Trials(seed, sessions)),
        _ => None,
    }
}

fn bulk_of(count: &str, length: &str) -> Option<Words> {
    match (count.parse::<u32>(), length.parse::<u32>()) {
        (Ok(count), Ok(length)) => Some(Words::Bulk(Bulk { count, length })),
        _ => None,
    }
}
