//! What a form of a command names.
ghost use Rattle.std.specs.Prelude.{◌≡◌, map, string_bytes, IfOk};
ghost use Rattle.wdt_words.specs.Named.{named_by, named_in, named_of, word_at};

use crate::command::{Command, Transfer};
use crate::forms::{command_of, transfer_of};
use std::alloc::{AllocError, Global};
use std::marker::Model;
use wdt_units::NoMemory;

/// What a form of a command names, by which `main` learns what to make. A form that has no folder,
/// host or port leaves an empty text or 0.
#[derive(Debug, Drop)]
pub struct Named {
    /// The folder to copy from.
    pub source: String,
    /// The folder to copy to.
    pub dest: String,
    /// The host to send to, or the address to listen on.
    pub host: String,
    /// The port of the first lane there.
    pub port: u16,
    /// How many lanes, 1 to 16.
    pub lanes: u8,
}

impl Model for Named {
    ghost use Rattle.std.specs.Prelude.{string_bytes};
    ghost use Rattle.wdt_words.specs.Named.{PlainNamed};

    ghost Value = { PlainNamed };

    ghost view = { λ n. record { source = string_bytes n.source; dest = string_bytes n.dest; host = string_bytes n.host; port = n.port; lanes = n.lanes } };

    ghost invariant = { λ _. Unit {0} };
}

/// What the words name, or None exactly where they are no form.
pub fn folders_of(alloc: Global, words: &[String]) -> Result<Option<Named>, NoMemory>
    ensures { IfOk result (λ found. found ≡ named_of (map string_bytes words.now)) }
{
    let made = match (command_of(words), transfer_of(words)) {
        (Some(command), _) => made_by(alloc, words, command),
        (None, Some(transfer)) => made_in(alloc, words, transfer),
        (None, None) => return Ok(None),
    };
    match made {
        Ok(named) => Ok(Some(named)),
        Err(_) => Err(NoMemory),
    }
}

// What the words of a command name.
fn made_by(alloc: Global, words: &[String], command: Command) -> Result<Named, AllocError>
    ensures { IfOk result (λ named. named ≡ named_by (map string_bytes words.now) command) }
{
    let (source, dest) = match command {
        Command::Rehearse => (word(words, 1), ""),
        Command::Plan { .. } => (word(words, 1), word(words, 2)),
        Command::Log => ("", word(words, 1)),
    };
    Ok(Named {
        source: String::from_str(alloc, source)?,
        dest: String::from_str(alloc, dest)?,
        host: String::new(alloc),
        port: 0,
        lanes: 1,
    })
}

// What the words of a transfer name.
fn made_in(alloc: Global, words: &[String], transfer: Transfer) -> Result<Named, AllocError>
    ensures { IfOk result (λ named. named ≡ named_in (map string_bytes words.now) transfer) }
{
    let (source, dest, host, port, lanes) = match transfer {
        Transfer::Copy { lanes, .. } => (word(words, 1), word(words, 2), "", 0, lanes),
        Transfer::Send { port, lanes, .. } => (word(words, 1), "", word(words, 2), port, lanes),
        Transfer::Recv { port, lanes, .. } => ("", word(words, 1), word(words, 2), port, lanes),
    };
    Ok(Named {
        source: String::from_str(alloc, source)?,
        dest: String::from_str(alloc, dest)?,
        host: String::from_str(alloc, host)?,
        port,
        lanes,
    })
}

// The word at a place, or an empty text where there is none.
fn word(words: &[String], at: usize) -> &str
    ensures { result.now ≡ word_at (map string_bytes words.now) at }
{
    match words.get(at) {
        Some(word) => word.as_str(),
        None => "",
    }
}
