//! Whether a receiver's end and the plain one say the same.
ghost use Rattle.std.specs.Prelude.{◌≡◌, ◌<◌, length};
ghost use Rattle.wdt_plain_receiver.specs.declared.lanes.TheConstants.{LANES as THREE};

use crate::halt::{Halt, Part, agree};
use std::alloc::Global;
use wdt_codec::{Frame, Mark, Marks};
use wdt_depot::MemDepot;
use wdt_dock::Dock;
use wdt_logfmt::LogFile;
use wdt_plain_receiver::{LANES, Plain, PlainAct, PlainLog, is_in, past, tree};
use wdt_ranges::{FileHave, Have, Ranges};
use wdt_receiver_fsm::RecvAct;
use wdt_units::{Block, Lane, LaneSet, NoMemory};

/// The two ends fare the same, the same has happened, and each lane stands at the same place and takes the
/// same.
pub fn compare(dock: &Dock<MemDepot>, plain: &Plain) -> Result<(), Halt>
    requires { length dock.now.plain.lanes ≡ THREE }
{
    agree(plain.answer.is_that_of(dock.answer()), Part::Answer)?;
    agree(plain.history.as_slice() == dock.history(), Part::History)?;
    for number in 0..LANES {
        let lane = Lane(number);
        agree(plain.lane(lane).state == dock.state(lane), Part::State)?;
        agree(is_wanted(dock, plain, lane), Part::Wanted)?;
    }
    Ok(())
}

// Whether a lane takes the same of its block.
fn is_wanted(dock: &Dock<MemDepot>, plain: &Plain, lane: Lane) -> bool
    requires lanes { length dock.now.plain.lanes ≡ THREE }
    requires lane { lane.0 < THREE }
{
    match (dock.wants(lane), plain.wants(lane)) {
        (Some((path, place, count)), Some((file, at, most))) => {
            path.bytes() == tree::path_of(file) && place == at && count == most
        }
        (None, None) => true,
        _ => false,
    }
}

/// A lane is given the same to do.
pub fn compare_acts(act: &RecvAct, told: PlainAct, plain: &Plain) -> Result<(), Halt> {
    match (act, told) {
        (RecvAct::Accept, PlainAct::Accept)
        | (RecvAct::Read, PlainAct::Read)
        | (RecvAct::Park, PlainAct::Park)
        | (RecvAct::Stop, PlainAct::Stop) => Ok(()),
        (RecvAct::TakePiece(count), PlainAct::TakePiece(most)) => agree(*count == most, Part::Act),
        (RecvAct::Write(frame), told) => agree(is_frame(frame, told, plain), Part::Frame),
        _ => Err(Halt::Differs(Part::Act)),
    }
}

// Whether a frame is the one that is to be written.
fn is_frame(frame: &Frame, told: PlainAct, plain: &Plain) -> bool {
    match (frame, told) {
        (Frame::Greeting(mark), PlainAct::WriteGreeting(told)) => *mark == told,
        (Frame::Chunks(have), PlainAct::WriteChunks) => is_have(have, &plain.opening),
        (Frame::Wait, PlainAct::WriteWait) | (Frame::Done, PlainAct::WriteDone) => true,
        (Frame::ErrMarks(marks), PlainAct::WriteErrMarks(lanes)) => are_marks(marks, lanes, plain),
        (Frame::Abort(code), PlainAct::WriteAbort(told)) => *code == told,
        _ => false,
    }
}

// Whether the marks are those of these lanes, in their order: how many blocks landed on each.
fn are_marks(marks: &Marks, lanes: LaneSet, plain: &Plain) -> bool {
    let mut found = marks.items().iter();
    for lane in lanes.lanes() {
        let count = past::count_landed(&plain.history, lane);
        match found.next() {
            Some(mark) if *mark == Mark { lane, count } => {}
            _ => return false,
        }
    }
    found.next().is_none()
}

// ---- logs

// Whether a have names the files of a log, and covers its blocks.
fn is_have(have: &Have, log: &PlainLog) -> bool {
    if have.files().len() != log.files.count() {
        return false;
    }
    for file in have.files() {
        let Some(place) = tree::file_of(file.path.bytes()) else {
            return false;
        };
        let Some(number) = log.files.number_of(place) else {
            return false;
        };
        if !is_file(file, place, number, log) {
            return false;
        }
    }
    true
}

/// Whether a log's files are those of a plain log, each at its number, and cover its blocks.
pub fn is_log(files: &[LogFile], log: &PlainLog) -> bool {
    if files.len() != log.files.count() {
        return false;
    }
    for file in files {
        let Some(place) = log.files.file_at(file.number) else {
            return false;
        };
        if !is_file(&file.have, place, file.number, log) {
            return false;
        }
    }
    true
}

// Whether this is what a log says of a file of this number.
fn is_file(file: &FileHave, place: usize, number: u32, log: &PlainLog) -> bool {
    let size = tree::size_of(place);
    if file.path.bytes() != tree::path_of(place) {
        return false;
    }
    if file.size != size || file.stamp != tree::stamp_of(place) {
        return false;
    }
    is_covered(&file.spans, size, number, &log.blocks)
}

// Whether the positions of a file of this size that the spans have are those of its blocks.
fn is_covered(spans: &Ranges, size: u64, number: u32, blocks: &[Block]) -> bool {
    let mut total: u64 = 0;
    for position in 0..size {
        let is_there = is_in(blocks, number, position);
        if is_there != has(spans, position) {
            return false;
        }
        if is_there {
            total = total.saturating_add(1);
        }
    }
    spans.total() == total
}

fn has(spans: &Ranges, position: u64) -> bool {
    for span in spans.spans() {
        if span.offset <= position && position.saturating_sub(span.offset) < span.length {
            return true;
        }
    }
    false
}

// ---- files

/// Whether a file reads as its blocks do in the tree.
pub fn has_blocks(
    alloc: Global,
    found: Option<&[u8]>,
    file: usize,
    number: u32,
    blocks: &[Block],
) -> Result<bool, NoMemory> {
    let Some(bytes) = found else {
        return Ok(false);
    };
    let whole = tree::bytes_of(alloc, file, 0, tree::size_of(file) as u32)?;
    for position in 0..whole.len() {
        if is_in(blocks, number, position as u64) && bytes.get(position) != whole.get(position) {
            return Ok(false);
        }
    }
    Ok(true)
}
