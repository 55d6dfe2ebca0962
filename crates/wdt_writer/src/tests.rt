//! What no clause says: that each call succeeds where there is memory and the disk works, that a write that
//! fails is answered, and the texts of the failures.
#![tactic(auto)]

ghost use Rattle.std.specs.Prelude.{◌≡◌, ◌<◌, ◌≤◌, [], length, IfOk, None};
ghost use Rattle.wdt_units.specs.Headers.{FitsHeader};
ghost use Rattle.wdt_units.specs.declared.limits.TheConstants.{PIECE};
ghost use Rattle.wdt_depot.specs.MemState.{mem_state};
ghost use Rattle.wdt_writer.specs.PlainWriter.{opened, part_at};

use crate::{WriteFail, Writer};
use std::alloc::Global;
use std::test::Fail;
use wdt_depot::{Depot, MemDepot};
use wdt_logfmt::LogView;
use wdt_units::{Block, Header, Lane, Name};

// A depot with no file, whose changing calls of these numbers fail.
fn depot_failing(alloc: Global, fails: &[u32]) -> Result<MemDepot, Fail>
    ensures { IfOk result (λ depot. (mem_state depot).spots ≡ []) }
{
    let depot = MemDepot::of(alloc, Vec::new(alloc), Vec::from_slice(alloc, fails)?)?;
    Ok(depot)
}

// A writer of one lane that knows no file.
fn new_writer(alloc: Global) -> Result<Writer, Fail>
    ensures { IfOk result (λ writer. writer ≡ opened [] 1) }
{
    let log = LogView {
        files: Vec::new(alloc),
        end: 8,
    };
    Ok(Writer::of(alloc, &log, 1)?)
}

// Takes a block whole on lane 0.
fn take<D: Depot>(
    depot: &mut D,
    writer: &mut Writer,
    header: &Header,
    bytes: &[u8],
) -> Result<Block, WriteFail>
    requires lane { 0 < length (writer.old).parts }
    requires idle { part_at writer.old 0 ≡ None }
    requires header { FitsHeader header.now }
    requires some { 0 < length bytes.now }
    requires most { length bytes.now ≤ PIECE }
    requires whole { length bytes.now ≡ (header.now).length }
    requires spots { (D.state depot.old).spots ≡ [] }
{
    let lane = Lane(0);
    writer.begin(depot, lane, header)?;
    writer.piece(depot, lane, bytes)?;
    Ok(writer.land(lane)?)
}

// Takes an empty block on lane 0.
fn take_empty<D: Depot>(
    depot: &mut D,
    writer: &mut Writer,
    header: &Header,
) -> Result<Block, WriteFail>
    requires lane { 0 < length (writer.old).parts }
    requires idle { part_at writer.old 0 ≡ None }
    requires header { FitsHeader header.now }
    requires empty { (header.now).length ≡ 0 }
    requires spots { (D.state depot.old).spots ≡ [] }
{
    writer.place(depot, Lane(0), header)
}

#[test]
fn a_block_lands_and_is_taken_back(rt: HostRuntime) -> Result<(), Fail> {
    let alloc = rt.alloc();
    let mut depot = depot_failing(alloc, &[])?;
    let mut writer = new_writer(alloc)?;
    let header = Header {
        path: Name::read(alloc, b"a")?,
        size: 5,
        stamp: 7,
        offset: 0,
        length: 5,
    };
    let block = take(&mut depot, &mut writer, &header, b"hello")?;
    let whole = Block {
        file: 0,
        offset: 0,
        length: 5,
    };
    assert_eq!(rt; block, whole);
    assert_eq!(rt;
        (writer.files(), writer.bytes(), writer.unlogged_bytes()),
        (1, 5, 5)
    );
    assert_eq!(rt; (writer.pending().len(), writer.unlogged().len()), (2, 1));
    let dirty = writer.dirty(alloc)?;
    assert_eq!(rt; dirty.first().map(|path| path.text()), Some("a"));
    drop(dirty);
    writer.unland();
    assert_eq!(rt;
        (writer.files(), writer.bytes(), writer.pending().len()),
        (0, 0, 0)
    );
    Ok(())
}

#[test]
fn an_empty_block_lands_at_once(rt: HostRuntime) -> Result<(), Fail> {
    let alloc = rt.alloc();
    let mut depot = depot_failing(alloc, &[])?;
    let mut writer = new_writer(alloc)?;
    let header = Header {
        path: Name::read(alloc, b"a")?,
        size: 0,
        stamp: 7,
        offset: 0,
        length: 0,
    };
    take_empty(&mut depot, &mut writer, &header)?;
    assert_eq!(rt;
        (writer.files(), writer.bytes(), writer.pending().len()),
        (1, 0, 1)
    );
    writer.logged();
    assert_eq!(rt; (writer.files(), writer.unlogged().len()), (1, 0));
    Ok(())
}

#[test]
fn failures_are_told(rt: HostRuntime) -> Result<(), Fail> {
    let alloc = rt.alloc();
    let mut depot = depot_failing(alloc, &[2])?;
    let mut writer = new_writer(alloc)?;
    let header = Header {
        path: Name::read(alloc, b"a")?,
        size: 2,
        stamp: 7,
        offset: 0,
        length: 2,
    };
    assert_eq!(rt;
        take(&mut depot, &mut writer, &header, b"hi"),
        Err(WriteFail::Disk)
    );
    let overlap = WriteFail::Overlap { offset: 3 };
    let text = format!(in alloc; "{overlap}")?;
    assert_eq!(rt;
        text.as_str(),
        "position 3 of the file is there already, or on its way"
    );
    Ok(())
}
