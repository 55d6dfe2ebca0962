//! The log of a destination, read as it stands. Nothing is made or synced.
ghost use Rattle.std.specs.Prelude.{◌≡◌, [], None, Some, option_map, MatchOption, OnOk, IfErr, IfOk, IfSome, IsErrOf, IsTrue};
ghost use Rattle.wdt_ranges.specs.Files.{is_in_order};
ghost use Rattle.wdt_depot.specs.Disk.{seen_of};
ghost use Rattle.wdt_depot.specs.Moments.{IfTold};
ghost use Rattle.wdt_depot.specs.State.{Counts, OnlyLooks};
ghost use Rattle.wdt_logfmt.specs.View.{is_view, meaning_of, named_files};
ghost use Rattle.wdt_good.specs.Good.{log_path};
ghost use Rattle.wdt_tool.specs.Causes.{IsLogFail};
ghost use Rattle.wdt_tool.specs.Stored.{IsFound, IsHeld};

use crate::fail::CommandFail;
use std::alloc::Global;
use wdt_depot::{Depot, DepotFail, read_whole};
use wdt_logfmt::{LogView, read_log};
use wdt_ranges::Have;
use wdt_units::{LOG_PATH, Name};

/// What the log of a destination says, or None where there is no log. `Disk` comes only where the
/// depot failed, and `Refused` only for a log without a meaning.
pub fn stored_log<D: Depot>(alloc: Global, depot: &mut D) -> Result<Option<LogView>, CommandFail>
    requires { (D.state depot.old).spots ≡ [] }
    ensures found { IfOk result (λ found. IfTold (λ t. IsFound (seen_of t.now log_path) (option_map meaning_of found)) (D.state depot.old).told) }
    ensures view { IfOk result (λ found. IfSome found (λ view. IsTrue (is_view (named_files view.files.items)))) }
    ensures refused { IfErr result (IsLogFail (D.state depot.old).told) }
    ensures looks { OnlyLooks (D.state depot.old) (D.state depot.new) }
    ensures spots { (D.state depot.new).spots ≡ [] }
    ensures counts { Counts (IsErrOf result CommandFail.Disk) (D.state depot.old) (D.state depot.new) }
    ensures slips { (D.state depot.new).slips ≡ (D.state depot.old).slips }
{
    match stored_bytes(alloc, depot) {
        Ok(Some(bytes)) => match read_log(alloc, &bytes) {
            Ok(view) => Ok(Some(view)),
            Err(fail) => Err(CommandFail::from(fail)),
        },
        Ok(None) => Ok(None),
        Err(fail) => Err(CommandFail::from(fail)),
    }
}

/// What a destination has by its log: nothing where there is no log. The errors are those of
/// `stored_log`.
pub fn stored_have<D: Depot>(alloc: Global, depot: &mut D) -> Result<Have, CommandFail>
    requires { (D.state depot.old).spots ≡ [] }
    ensures held { IfOk result (λ have. IsHeld (D.state depot.old).told have) }
    ensures order { IfOk result (λ have. IsTrue (is_in_order have)) }
    ensures refused { IfErr result (IsLogFail (D.state depot.old).told) }
    ensures looks { OnlyLooks (D.state depot.old) (D.state depot.new) }
    ensures spots { (D.state depot.new).spots ≡ [] }
    ensures counts { Counts (IsErrOf result CommandFail.Disk) (D.state depot.old) (D.state depot.new) }
    ensures slips { (D.state depot.new).slips ≡ (D.state depot.old).slips }
{
    match stored_log(alloc, depot) {
        Ok(found) => match found {
            Some(view) => match view.have(alloc) {
                Ok(have) => Ok(have),
                Err(_) => Err(CommandFail::NoMemory),
            },
            None => Ok(Have::none(alloc)),
        },
        Err(fail) => Err(fail),
    }
}

// The bytes of the log, or None where there is no log.
fn stored_bytes<D: Depot>(alloc: Global, depot: &mut D) -> Result<Option<Vec<u8>>, DepotFail>
    requires { (D.state depot.old).spots ≡ [] }
    ensures bytes { IfOk result (λ found. IfTold (λ t. MatchOption found (seen_of t.now log_path ≡ None) (λ bytes. seen_of t.now log_path ≡ Some bytes.items)) (D.state depot.old).told) }
    ensures looks { OnlyLooks (D.state depot.old) (D.state depot.new) }
    ensures spots { (D.state depot.new).spots ≡ [] }
    ensures counts { Counts (IsErrOf result DepotFail.Failed) (D.state depot.old) (D.state depot.new) }
    ensures slips { (D.state depot.new).slips ≡ (D.state depot.old).slips }
{
    let path = Name::of_lawful(alloc, &LOG_PATH)?;
    let Some(spot) = depot.enter(&path)? else {
        return Ok(None);
    };
    let read = read_whole(alloc, depot, spot);
    depot.leave(spot);
    Ok(Some(read?))
}
