//! A script, line by line.
ghost use Rattle.std.specs.Prelude.{◌≡◌, ℕ, List, Result, IfErr, OnOk};
ghost use Rattle.wdt_script.specs.Script.{in_front, script_of, with_events, Fails, Gives};
ghost use Rattle.wdt_script.specs.declared.event.Event.{Event as AnEvent};

use crate::event::Event;
use crate::fail::ScriptFail;
use crate::lines::line_end;
use crate::reading::{Reading, read_line};
use std::alloc::Global;

/// The greatest length of a line, in bytes, without the byte that ends it.
pub const MAX_LINE: usize = 80;

/// The greatest number of lines of a script.
pub const MAX_LINES: u32 = 65_536;

/// The events of a script for so many lanes, in the order of their lines. BadScript names the first
/// line that has no reading, or the first one past the 65,536th, whichever comes first.
pub fn read_script(alloc: Global, bytes: &[u8], lanes: u8) -> Result<Vec<Event>, ScriptFail>
    ensures { Gives result (script_of lanes bytes.now) }
{
    let mut events = Vec::new(alloc);
    let mut start = 0;
    let mut line = 0;
    while start < bytes.len() {
        if line >= MAX_LINES {
            return Err(ScriptFail::BadScript { line: line + 1 });
        }
        line += 1;
        let end = line_end(bytes, start);
        let reading = read_line(&bytes[start..end], lanes);
        match add(&mut events, reading, line) {
            Ok(()) => {}
            Err(fail) => return Err(fail),
        }
        start = end + 1;
    }
    Ok(events)
}

// Adds what the line of this number says.
fn add(events: &mut Vec<Event>, reading: Reading, line: u32) -> Result<(), ScriptFail>
    ensures added { OnOk result ((more : Result (List AnEvent) ℕ) → with_events events.old.items (in_front line reading more) ≡ with_events events.new.items more) }
    ensures failed { IfErr result (λ e. (more : Result (List AnEvent) ℕ) → Fails e (with_events events.old.items (in_front line reading more))) }
{
    match reading {
        Reading::Passed => Ok(()),
        Reading::Says(event) => match events.push(event) {
            Ok(()) => Ok(()),
            Err(_) => Err(ScriptFail::NoMemory),
        },
        Reading::Unread => Err(ScriptFail::BadScript { line }),
    }
}
