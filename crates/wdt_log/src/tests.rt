//! What no clause says: the bytes of a worked log, that each call succeeds where there is memory, and
//! what a stop or a failure at each changing call leaves.
ghost use Rattle.std.specs.Prelude.{◌≡◌, [], ◌∷◌, IfOk, IsTrue, OnOk};
ghost use Rattle.wdt_depot.specs.MemState.{mem_state};

use crate::{Log, LogFail};
use std::alloc::Global;
use std::process::Abort;
use std::test::Fail;
use wdt_depot::{Crash, Depot, DepotFail, MemDepot};
use wdt_logfmt::{LogEntry, LogView};
use wdt_ranges::Span;
use wdt_units::Name;

/// A log that names no file.
const NEW: &[u8] = b"WDTL\0\x01\0";

/// A log that names `a`, of two bytes, and covers both.
const ONE: &[u8] =
    b"WDTL\0\x01\x01\0\0\0\x29\x46\0\0\0\0\0\x01a\0\0\0\0\0\0\0\x02\0\0\0\0\0\0\0\0\x4D\0\0\0\0\0\0\0\0\0\0\0\0\0\0\0\x02\0";

// A depot with no file, whose changing calls of these numbers fail.
fn depot_failing(alloc: Global, fails: &[u32]) -> Result<MemDepot, Fail>
    ensures { IfOk result (λ depot. (mem_state depot).spots ≡ []) }
{
    let depot = MemDepot::of(alloc, Vec::new(alloc), Vec::from_slice(alloc, fails)?)?;
    Ok(depot)
}

// Puts a file there through any depot.
fn put<D: Depot>(depot: &mut D, path: &Name, bytes: &[u8]) -> Result<(), DepotFail>
    requires { (D.state depot.old).spots ≡ [] }
    ensures { (D.state depot.new).spots ≡ [] }
{
    depot.make(path)?;
    let spot = depot.need(path)?;
    let written = depot.write_at(spot, 0, bytes);
    depot.leave(spot);
    written
}

// Reopens any depot.
fn restart<C: Crash>(depot: &mut C)
    ensures { (C.Depot.state depot.new).spots ≡ [] }
{
    depot.reopen();
}

fn names_nothing(log: &Log) -> bool
    ensures { IsTrue result → (log.now).meaning.files ≡ [] }
{
    log.view().files.is_empty()
}

// Appends that the file `a` has two bytes, and that both are there.
fn append_a<D: Depot>(
    alloc: Global,
    depot: &mut D,
    log: &mut Log,
) -> Result<Result<(), LogFail>, Fail>
    requires files { (log.old).meaning.files ≡ [] }
    requires spots { (D.state depot.old).spots ≡ [] }
    ensures spots { (D.state depot.new).spots ≡ [] }
    ensures files { IfOk result (λ done. OnOk done ((log.new).meaning.files ≡
        record { number = 0; have = record { path = 97 ∷ []; size = 2; stamp = 0; spans = record { offset = 0; count = 2 } ∷ [] } } ∷ [])) }
{
    let path = Name::read(alloc, b"a")?;
    let batch = [
        LogEntry::File {
            number: 0,
            path,
            size: 2,
            stamp: 0,
        },
        LogEntry::Covered {
            number: 0,
            offset: 0,
            length: 2,
        },
    ];
    Ok(log.append(alloc, depot, &batch))
}

// Appends behind it that the file `b` is empty.
fn append_b<D: Depot>(
    alloc: Global,
    depot: &mut D,
    log: &mut Log,
) -> Result<Result<(), LogFail>, Fail>
    requires files { (log.old).meaning.files ≡ record { number = 0; have = record { path = 97 ∷ []; size = 2; stamp = 0; spans = record { offset = 0; count = 2 } ∷ [] } } ∷ [] }
    requires spots { (D.state depot.old).spots ≡ [] }
    ensures { (D.state depot.new).spots ≡ [] }
{
    let path = Name::read(alloc, b"b")?;
    let batch = [LogEntry::File {
        number: 1,
        path,
        size: 0,
        stamp: 7,
    }];
    Ok(log.append(alloc, depot, &batch))
}

// Opens the log, appends to it, and after a failure of the disk appends again.
fn open_and_append<D: Depot>(
    rt: &impl Abort,
    alloc: Global,
    depot: &mut D,
) -> Result<Result<(), LogFail>, Fail>
    requires { (D.state depot.old).spots ≡ [] }
    ensures { (D.state depot.new).spots ≡ [] }
{
    match Log::open(alloc, depot) {
        Err(fail) => Ok(Err(fail)),
        Ok(mut log) => {
            assert!(rt; names_nothing(&log));
            let done = append_a(alloc, depot, &mut log)?;
            if done == Err(LogFail::Disk) {
                assert_eq!(rt; log.append(alloc, depot, &[]), Err(LogFail::Shut));
            }
            Ok(done)
        }
    }
}

// How many files the log of the depot names.
fn count<D: Depot>(alloc: Global, depot: &mut D) -> Result<usize, LogFail>
    requires { (D.state depot.old).spots ≡ [] }
    ensures { (D.state depot.new).spots ≡ [] }
{
    match Log::open(alloc, depot) {
        Ok(log) => Ok(log.view().files.len()),
        Err(fail) => Err(fail),
    }
}

// What the log says once both are appended.
fn assert_names_both(rt: &impl Abort, view: &LogView) {
    assert_eq!(rt; view.files.len(), 2);
    let a = &view.files[0];
    assert_eq!(rt; (a.number, a.have.size, a.have.stamp), (0, 2, 0));
    assert_eq!(rt; a.have.path.bytes(), b"a".as_slice());
    let first = Span {
        offset: 0,
        length: 2,
    };
    assert_eq!(rt; a.have.spans.count(), 1);
    assert_eq!(rt; a.have.spans.spans().next(), Some(first));
    let b = &view.files[1];
    assert_eq!(rt; (b.number, b.have.size, b.have.stamp), (1, 0, 7));
    assert_eq!(rt; b.have.path.bytes(), b"b".as_slice());
    assert_eq!(rt; view.end, 81);
}

#[test]
fn a_log_is_made_and_goes_on(rt: HostRuntime) -> Result<(), Fail> {
    let alloc = rt.alloc();
    let path = Name::read(alloc, b".wlog")?;
    let mut depot = depot_failing(alloc, &[])?;
    let mut log = Log::open(alloc, &mut depot)?;
    assert_eq!(rt; depot.shown(&path), Some(NEW));
    assert!(rt; names_nothing(&log));
    let done = append_a(alloc, &mut depot, &mut log)?;
    assert_eq!(rt; depot.shown(&path), Some(ONE));
    match done {
        Ok(()) => assert_eq!(rt; append_b(alloc, &mut depot, &mut log)?, Ok(())),
        Err(_) => assert!(rt; false, "no append"),
    }
    restart(&mut depot);
    let again = Log::open(alloc, &mut depot)?;
    assert_names_both(&rt, log.view());
    assert_names_both(&rt, again.view());
    Ok(())
}

// The first four changing calls make the log. The next two write and sync the batch behind the closed
// gate, which stands at 6, and the last two write and sync the gate.
#[test]
fn a_stop_leaves_the_log_with_the_batch_or_without_it(rt: HostRuntime) -> Result<(), Fail> {
    let alloc = rt.alloc();
    for (pick, opens) in [(0, false), (1, true), (2, false), (251, true)] {
        for call in 1..9 {
            let mut depot = depot_failing(alloc, &[])?;
            depot.arm(call, pick);
            assert_eq!(rt;
                open_and_append(&rt, alloc, &mut depot)?,
                Err(LogFail::Disk)
            );
            restart(&mut depot);
            let files = if call > 6 && opens { 1 } else { 0 };
            assert_eq!(rt;
                count(alloc, &mut depot),
                Ok(files),
                "call {call}, pick {pick}"
            );
        }
    }
    Ok(())
}

#[test]
fn a_failed_call_shuts_the_log(rt: HostRuntime) -> Result<(), Fail> {
    let alloc = rt.alloc();
    for call in 1..9 {
        let mut depot = depot_failing(alloc, &[call])?;
        assert_eq!(rt;
            open_and_append(&rt, alloc, &mut depot)?,
            Err(LogFail::Disk)
        );
        // The gate was written before the last call failed.
        let files = if call == 8 { 1 } else { 0 };
        assert_eq!(rt; count(alloc, &mut depot), Ok(files), "call {call}");
    }
    Ok(())
}

#[test]
fn a_log_with_no_meaning_is_not_opened(rt: HostRuntime) -> Result<(), Fail> {
    let alloc = rt.alloc();
    let path = Name::read(alloc, b".wlog")?;
    for (bytes, at) in [
        (b"".as_slice(), 0),
        (b"WDTL\0\x02\0", 0),
        (b"WDTL\0\x01\x01", 7),
        (b"WDTL\0\x01\x01\0\0\0\x01\x4D\0", 11),
    ] {
        let mut depot = depot_failing(alloc, &[])?;
        assert_eq!(rt; put(&mut depot, &path, bytes), Ok(()));
        assert_eq!(rt; count(alloc, &mut depot), Err(LogFail::BadLog { at }));
        assert_eq!(rt; depot.shown(&path), Some(bytes));
    }
    Ok(())
}
