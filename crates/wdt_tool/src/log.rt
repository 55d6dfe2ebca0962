//! The command `log`: what the log of a destination says.
ghost use Rattle.std.specs.Prelude.{◌≡◌, [], IfErr, IfOk, IsErrOf};
ghost use Rattle.wdt_depot.specs.State.{Counts, OnlyLooks};
ghost use Rattle.wdt_tool.specs.Causes.{IsLogFail};
ghost use Rattle.wdt_tool.specs.Stored.{IsShown};

use crate::fail::CommandFail;
use crate::log_lines::{log_text, no_log_text};
use crate::stored::stored_log;
use std::alloc::Global;
use wdt_depot::Depot;

/// The lines of the log of a destination. `Disk` comes only where the depot failed, and `Refused`
/// only for a log without a meaning.
pub fn log_command<D: Depot>(alloc: Global, depot: &mut D) -> Result<Vec<u8>, CommandFail>
    requires { (D.state depot.old).spots ≡ [] }
    ensures shown { IfOk result (λ text. IsShown (D.state depot.old).told text.items) }
    ensures refused { IfErr result (IsLogFail (D.state depot.old).told) }
    ensures looks { OnlyLooks (D.state depot.old) (D.state depot.new) }
    ensures spots { (D.state depot.new).spots ≡ [] }
    ensures counts { Counts (IsErrOf result CommandFail.Disk) (D.state depot.old) (D.state depot.new) }
    ensures slips { (D.state depot.new).slips ≡ (D.state depot.old).slips }
{
    match stored_log(alloc, depot) {
        Ok(found) => match found {
            Some(view) => match log_text(alloc, &view) {
                Ok(text) => Ok(text),
                Err(_) => Err(CommandFail::NoMemory),
            },
            None => match no_log_text(alloc) {
                Ok(text) => Ok(text),
                Err(_) => Err(CommandFail::NoMemory),
            },
        },
        Err(fail) => Err(fail),
    }
}
