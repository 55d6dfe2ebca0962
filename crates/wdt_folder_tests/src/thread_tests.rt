//! What a depot does whose files are synced in threads.
ghost use Rattle.std.specs.Prelude.{◌≡◌, []};

use crate::script::{below, name, new_root, numbered, sync, write};
use std::fs;
use std::test::Fail;
use wdt_depot::{Depot, DepotFail};
use wdt_folder::{FolderDepot, InThreads};
use wdt_units::Name;

#[test]
fn files_land_that_are_synced_in_threads(rt: HostRuntime) -> Result<(), Fail> {
    let alloc = rt.alloc();
    let root = new_root(&rt)?;
    let syncs = InThreads::of(rt.clone()?);
    let mut depot = FolderDepot::at(rt.clone()?, root.clone()?, syncs);
    let log = name(alloc, ".wlog")?;
    // More than stay open.
    let names = numbered(alloc, 300)?;
    land(&mut depot, &names)?;
    depot.make(&log)?;
    write(&mut depot, &log, 0, "log")?;
    // One of them, a few, and none.
    write(&mut depot, &name(alloc, "299")?, 2, "!")?;
    sync(&mut depot, &name(alloc, "299")?)?;
    sync(&mut depot, &log)?;
    land(&mut depot, &numbered(alloc, 3)?)?;
    write(&mut depot, &log, 3, "1")?;
    sync(&mut depot, &log)?;
    assert_eq!(rt; found(&rt, root.as_str(), &names, "hi")?, 299);
    assert_eq!(rt; found(&rt, root.as_str(), &names, "hi!")?, 1);
    let path = below(alloc, root.as_str(), ".wlog")?;
    assert_eq!(rt; fs::read_to_string(&rt, path)?.as_str(), "log1");
    fs::remove_dir_all(&rt, root.as_str())?;
    Ok(())
}

// Makes files with the bytes `hi`, of which a sync is asked for.
fn land<D: Depot>(depot: &mut D, names: &Vec<Name>) -> Result<(), DepotFail>
    requires { (D.state depot.old).spots ≡ [] }
    ensures { (D.state depot.new).spots ≡ [] }
{
    for name in names {
        depot.make(name)?;
        write(depot, name, 0, "hi")?;
        sync(depot, name)?;
    }
    Ok(())
}

// How many of the files have just this text.
fn found(rt: &HostRuntime, root: &str, names: &Vec<Name>, text: &str) -> Result<u32, Fail> {
    let mut count: u32 = 0;
    for name in names {
        let path = below(rt.alloc(), root, name.text())?;
        if fs::read_to_string(rt, path)?.as_str() == text {
            count = count.saturating_add(1);
        }
    }
    Ok(count)
}

#[test]
fn a_sync_that_fails_in_a_thread_is_told_with_its_path(rt: HostRuntime) -> Result<(), Fail> {
    let alloc = rt.alloc();
    let syncs = InThreads::of(rt.clone()?);
    // The system syncs none of these files.
    let root = String::from_str(alloc, "/proc/self")?;
    let mut depot = FolderDepot::at(rt.clone()?, root, syncs);
    sync(&mut depot, &name(alloc, "comm")?)?;
    sync(&mut depot, &name(alloc, "maps")?)?;
    sync(&mut depot, &name(alloc, "status")?)?;
    let log = name(alloc, ".wlog")?;
    assert!(rt; matches!(depot.make(&log), Err(DepotFail::Failed)));
    let fault = depot.fault().ok_or("no fault")?;
    assert_eq!(rt;
        format!(in alloc; "{fault}")?.as_str(),
        "syncing /proc/self/comm: Invalid argument (os error 22)"
    );
    // Nothing makes up for it.
    assert!(rt; matches!(depot.make(&name(alloc, "x")?), Err(DepotFail::Failed)));
    Ok(())
}
