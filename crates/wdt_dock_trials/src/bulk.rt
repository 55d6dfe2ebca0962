//! A transfer of many blocks on one lane, to be timed.
ghost use Rattle.std.specs.Prelude.{◌≡◌, length, IfOk, IfSome};
ghost use Rattle.wdt_receiver_fsm.specs.Turn.{Given};
ghost use Rattle.wdt_receiver_fsm.specs.Writes.{FitsPut};
ghost use Rattle.wdt_units.specs.Headers.{FitsHeader};

use crate::frames::header_at;
use crate::halt::{Halt, Part};
use std::alloc::Global;
use wdt_codec::{Frame, Settings};
use wdt_depot::MemDepot;
use wdt_dock::Dock;
use wdt_receiver_fsm::{RecvAct, RecvIn};
use wdt_sender_fsm::EndAnswer;
use wdt_units::{Conn, DEFAULT_BATCH, Header, Lane, MAX_BLOCK, MAX_FILES, MAX_TOTAL, Name, PIECE};

/// How many blocks a file has.
const IN_FILE: u32 = 256;

/// The one lane.
const LANE: Lane = Lane(0);

/// So many blocks, of so many bytes each.
#[derive(Clone, Copy, Debug)]
pub struct Bulk {
    pub count: u32,
    pub length: u32,
}

// A receiver's end of one lane over an empty depot.
#[derive(Drop)]
struct End {
    dock: Dock<MemDepot>,
    ghost lane: { length dock.plain.lanes ≡ 1 },
}

/// Takes all blocks, and answers whether all has landed and is logged.
pub fn take_all(alloc: Global, bulk: Bulk) -> Result<bool, Halt> {
    let mut end = begin(alloc, bulk)?;
    let mut piece = Vec::new(alloc);
    piece.resize(PIECE, 0)?;
    for number in 0..bulk.count {
        match header(alloc, bulk, number)? {
            Some(header) => end.take(header, &piece)?,
            None => return Ok(false),
        }
    }
    end.hand_in(RecvIn::Got(Frame::Done))?;
    end.hand_in(RecvIn::Wrote)?;
    end.hand_in(RecvIn::Got(Frame::Done))?;
    let (_, _, answer) = end.dock.close();
    Ok(matches!(answer, EndAnswer::Done))
}

// An end that has read what is sent in all.
fn begin(alloc: Global, bulk: Bulk) -> Result<End, Halt> {
    let depot = MemDepot::of(alloc, Vec::new(alloc), Vec::new(alloc))?;
    let Ok(dock) = Dock::open(alloc, depot, 1, u64::from(DEFAULT_BATCH)) else {
        return Err(Halt::Differs(Part::Opening));
    };
    let mut end = End { dock };
    end.hand_in(RecvIn::Start)?;
    end.hand_in(RecvIn::Linked)?;
    end.hand_in(RecvIn::Got(Frame::Settings(settings(bulk.length))))?;
    end.hand_in(RecvIn::Wrote)?;
    end.hand_in(size(bulk))?;
    Ok(end)
}

// What the sender says of itself.
fn settings(length: u32) -> Settings
    ensures { FitsPut (Given (RecvIn.Got (Frame.Settings result))) }
{
    Settings {
        version: 1,
        session: 1,
        lane: LANE,
        lanes: 1,
        conn: Conn(1),
        block: length.min(MAX_BLOCK).max(1),
        ask: false,
    }
}

// What is sent in all.
fn size(bulk: Bulk) -> RecvIn
    ensures { FitsPut (Given result) }
{
    let bytes = u64::from(bulk.count) * u64::from(bulk.length);
    RecvIn::Got(Frame::Size {
        files: bulk.count.div_ceil(IN_FILE).min(MAX_FILES),
        bytes: bytes.min(MAX_TOTAL),
    })
}

// The header of the block of this number.
fn header(alloc: Global, bulk: Bulk, number: u32) -> Result<Option<Header>, Halt>
    ensures { IfOk result (λ found. IfSome found (λ header. FitsHeader header)) }
{
    let file = number / IN_FILE;
    let text = format!(in alloc; "f{file}")?;
    let Ok(path) = Name::read(alloc, text.as_bytes()) else {
        return Ok(None);
    };
    let blocks = bulk.count.saturating_sub(file * IN_FILE).min(IN_FILE);
    let size = u64::from(blocks) * u64::from(bulk.length);
    let offset = u64::from(number % IN_FILE) * u64::from(bulk.length);
    Ok(header_at(path, (size, 0), offset, bulk.length))
}

impl End {
    // A step of the lane with an input.
    fn hand_in(&mut self, put: RecvIn) -> Result<RecvAct, Halt>
        requires { FitsPut (Given put) }
    {
        match self.dock.step(LANE, put) {
            Ok(act) => Ok(act),
            Err(_) => Err(Halt::NoMemory),
        }
    }

    // A block, piece by piece.
    fn take(&mut self, header: Header, piece: &[u8]) -> Result<(), Halt>
        requires { FitsHeader header }
    {
        self.hand_in(RecvIn::Got(Frame::Block(header)))?;
        for _ in 0..MAX_BLOCK {
            let Some((_, _, most)) = self.dock.wants(LANE) else {
                return Ok(());
            };
            let count = (most as usize).min(piece.len());
            if count == 0 {
                return Ok(());
            }
            self.dock.piece(LANE, &piece[..count])?;
        }
        Ok(())
    }
}
