//! Whole lanes of a sender, whose other end is a wire in memory.
ghost use Rattle.std.specs.Prelude.{◌≡◌, [], length, IfOk};

use std::alloc::Global;
use std::marker::Brand;
use std::process::Abort;
use std::sync::Wait;
use std::sync::ledger::{Blank, Ledger};
use std::test::Fail;
use std::thread::Threads;
use wdt_gate::MutexHub;
use wdt_lanes::{Begin, KeptYard, SendEnd, send_end};
use wdt_link::{MemDial, MemWire};
use wdt_sender_fsm::EndAnswer;
use wdt_source::{MemSource, Source};
use wdt_tree::{Manifest, Plain, Untold};
use wdt_units::{LaneSet, Name};
use wdt_yard::Yard;

// A receiver with nothing, on which all lands: it greets, says what it has, and twice that it is done.
const ALL_LANDS: &[u8] = b"G\0\0\0\0\0C\0\0\0\0LL";

// The same up to the block.
const GREETED: &[u8] = b"G\0\0\0\0\0C\0\0\0\0";

// How an end of one lane fared.
#[derive(Clone, Copy, Debug, PartialEq, Eq)]
enum Fared {
    Done,
    Source,
    Link,
    Aborted,
    Otherwise,
}

// A file `a` of two bytes.
fn source(alloc: Global, fails: &[u32]) -> Result<MemSource, Fail> {
    let file = Plain {
        path: Name::read(alloc, b"a")?,
        stamp: 0,
        bytes: Vec::from_slice(alloc, b"hi")?,
    };
    let fails = Vec::from_slice(alloc, fails)?;
    Ok(MemSource::of(vec![in alloc; file]?, fails))
}

fn listed(alloc: Global, source: &mut MemSource) -> Result<Manifest, Fail> {
    Ok(Manifest::check(alloc, source.list(alloc)?)?)
}

// An end of one lane, which sends these files in blocks of at most four bytes.
fn yard<B: Begin>(alloc: Global, manifest: Manifest) -> Result<KeptYard<Untold, B>, Fail>
    requires { B.begun ≡ record { manifest = manifest; block = 4 } }
    ensures lanes { IfOk result (λ yard. length yard.lanes ≡ 1) }
    ensures empty { IfOk result (λ yard. yard.history ≡ []) }
{
    Ok(KeptYard::of(Yard::open(alloc, manifest, 1, 4, 1)?))
}

fn outcome_of(yard: &Yard) -> Fared {
    match yard.answer() {
        EndAnswer::Done => Fared::Done,
        EndAnswer::Source => Fared::Source,
        EndAnswer::Link => Fared::Link,
        EndAnswer::Aborted(_) => Fared::Aborted,
        _ => Fared::Otherwise,
    }
}

// Sends the files over one connection, on which the other end says this, and answers how the end fared and
// which of its lanes lost their source, their connection, and heard the other end fail.
fn send<R: Threads + Wait + Sync + Copy + Drop, L: Ledger + Send + Sync, B: Begin + Send + Sync>(
    rt: R,
    alloc: Global,
    blank: Blank,
    manifest: Manifest,
    source: MemSource,
    said: &[u8],
) -> Result<(Fared, [LaneSet; 3]), Fail>
    requires name { blank.name ≡ L.name }
    requires parts { (blank.parts ≡ L.parts) × (blank.parts ≡ 1) }
    requires begun { B.begun ≡ record { manifest = manifest; block = 4 } }
{
    let yard = yard::<B>(alloc, manifest)?;
    let wire = MemWire::of(alloc, Vec::from_slice(alloc, said)?, Vec::new(alloc));
    let dialer = MemDial::of(alloc, vec![in alloc; wire]?);
    let sources = vec![in alloc; source]?;
    let dialers = vec![in alloc; dialer]?;
    let Ok((hub, passes)) = MutexHub::<R, KeptYard<Untold, B>, L>::open(rt, alloc, blank, yard, 1)
    else {
        return Err(Fail::from("no memory"));
    };
    let SendEnd {
        hub,
        passes,
        lost,
        cut,
        alarmed,
        ..
    } = send_end::<R, Untold, B, MemSource, MemDial, MutexHub<R, KeptYard<Untold, B>, L>>(
        &rt, alloc, hub, passes, sources, dialers,
    );
    let (yard, _turns) = hub.settle(passes);
    Ok((outcome_of(&yard.into_yard()), [lost, cut, alarmed]))
}

#[test]
fn a_lane_comes_to_its_end(rt: HostRuntime) -> Result<(), Fail> {
    let (none, one) = (LaneSet(0), LaneSet(1));
    for (said, fails, how, met) in [
        (ALL_LANDS, &[9], Fared::Done, [none, none, none]),
        (GREETED, &[9], Fared::Link, [none, one, none]),
        (GREETED, &[2], Fared::Source, [one, none, none]),
        (b"A\x02".as_slice(), &[9], Fared::Aborted, [none, none, one]),
    ] {
        let blank = Blank::new(1);
        let mut source = source(rt.alloc(), fails)?;
        let manifest = listed(rt.alloc(), &mut source)?;
        let ended = send::<HostRuntime, Brand, Brand>(
            rt,
            rt.alloc(),
            blank,
            manifest,
            source,
            said,
        )?;
        assert_eq!(rt; ended, (how, met), "{said:?}");
    }
    Ok(())
}
