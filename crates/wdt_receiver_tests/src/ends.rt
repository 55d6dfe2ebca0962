//! Ends and inputs for tests.
ghost use Rattle.std.specs.Prelude.{◌≡◌, ◌+◌, ◌<◌, ◌≤◌, ◌∷◌, [], length, IfOk};
ghost use Rattle.wdt_codec.specs.Frames.{Fits};
ghost use Rattle.wdt_receiver_fsm.specs.Writes.{FitsPut};
ghost use Rattle.wdt_receiver_fsm.specs.Turn.{Given};
ghost use Rattle.wdt_units.specs.Headers.{FitsHeader};

use std::alloc::Global;
use std::process::Abort;
use std::test::Fail;
use wdt_codec::{Frame, Mark, Marks, Settings};
use wdt_depot::MemDepot;
use wdt_dock::Dock;
use wdt_ranges::Have;
use wdt_receiver_fsm::{RecvAct, RecvEvent, RecvIn};
use wdt_units::{Conn, Header, Lane, MAX_FILE_SIZE, MAX_FILES, MAX_TOTAL, Name};

/// How many lanes an end of a test has.
pub const LANES: u8 = 3;

/// What a sender says of itself on the first connection of lane 0.
pub const SETTINGS: Settings = Settings {
    version: 1,
    session: 1,
    lane: Lane(0),
    lanes: LANES,
    conn: Conn(1),
    block: 4,
    ask: true,
};

/// The bytes of the one file `a`.
const BYTES: &[u8; 2] = b"hi";

/// The greatest size of a file.
const LARGE: u64 = 1 << 40;

/// An end over an empty depot. What lands is logged at the finish.
pub fn open(rt: &impl Abort, alloc: Global) -> Result<Dock<MemDepot>, Fail>
    ensures { IfOk result (λ dock. length dock.plain.lanes ≡ LANES) }
{
    let depot = MemDepot::of(alloc, Vec::new(alloc), Vec::new(alloc))?;
    match Dock::open(alloc, depot, LANES, 1024) {
        Ok(dock) => Ok(dock),
        Err(_) => panic!(rt; "no end"),
    }
}

/// The input of a lane that a letter stands for. Settings are of the lane's connection of this number.
pub fn input(
    rt: &impl Abort,
    alloc: Global,
    lane: Lane,
    conn: Conn,
    letter: u8,
) -> Result<RecvIn, Fail>
    requires lane { lane.0 < LANES }
    requires conn { 1 ≤ conn.0 }
    ensures { IfOk result (λ put. FitsPut (Given put)) }
{
    match letter {
        b'S' => Ok(RecvIn::Start),
        b'L' => Ok(RecvIn::Linked),
        b'N' => Ok(RecvIn::NoLink),
        b'W' => Ok(RecvIn::Wrote),
        b'X' => Ok(RecvIn::Lost),
        b'B' => Ok(RecvIn::Bad(7)),
        b'K' => Ok(RecvIn::Woken),
        b'O' => Ok(RecvIn::Odd),
        b'V' => Ok(RecvIn::Starved),
        _ => Ok(RecvIn::Got(frame(rt, alloc, lane, conn, letter)?)),
    }
}

// The frame that a letter stands for.
fn frame(rt: &impl Abort, alloc: Global, lane: Lane, conn: Conn, letter: u8) -> Result<Frame, Fail>
    requires lane { lane.0 < LANES }
    requires conn { 1 ≤ conn.0 }
    ensures { IfOk result (λ frame. Fits frame) }
{
    match letter {
        b's' => Ok(Frame::Settings(Settings {
            lane,
            conn,
            ..SETTINGS
        })),
        b'g' => Ok(Frame::Greeting(mark())),
        b'c' => Ok(Frame::Chunks(Have::none(alloc))),
        b'z' => Ok(Frame::Size { files: 1, bytes: 2 }),
        b'Z' => Ok(Frame::Size {
            files: MAX_FILES,
            bytes: MAX_TOTAL,
        }),
        b'b' => Ok(Frame::Block(header(rt, alloc, 2, 0, 2)?)),
        b'l' => Ok(Frame::Block(header(rt, alloc, LARGE, LARGE - 1, 1)?)),
        b'd' => Ok(Frame::Done),
        b'w' => Ok(Frame::Wait),
        b'e' => Ok(Frame::ErrMarks(marks())),
        b'a' => Ok(Frame::Abort(9)),
        _ => panic!(rt; "no such letter"),
    }
}

fn mark() -> Mark
    ensures { result ≡ record { lane = record { 0 = 0 }; count = 0 } }
{
    Mark {
        lane: Lane(0),
        count: 0,
    }
}

fn marks() -> Marks
    ensures { result ≡ record { lane = record { 0 = 0 }; count = 0 } ∷ [] }
{
    let mut marks = Marks::none();
    marks.push(mark());
    marks
}

// The header of a block of `a`.
fn header(
    rt: &impl Abort,
    alloc: Global,
    size: u64,
    offset: u64,
    length: u32,
) -> Result<Header, Fail>
    requires size { size ≤ MAX_FILE_SIZE }
    requires some { 1 ≤ length }
    requires few { length ≤ 2 }
    requires within { offset + length ≤ size }
    ensures { IfOk result (λ header. FitsHeader header) }
{
    let path = Name::read(alloc, b"a")?;
    assert!(rt; !path.reserved());
    Ok(Header {
        path,
        size,
        stamp: 0,
        offset,
        length,
    })
}

// The number of a lane's connection: how many it took, and 1 before the first.
fn conn_of(history: &[RecvEvent], lane: Lane) -> Conn
    ensures { 1 ≤ result.0 }
{
    let mut conn = Conn(1);
    for event in history {
        if let RecvEvent::Take(of, number) = event {
            if *of == lane && number.0 > 0 {
                conn = *number;
            }
        }
    }
    conn
}

/// A step of a lane with the input that a letter stands for; `p` is the piece that it wants.
pub fn step(
    rt: &impl Abort,
    alloc: Global,
    dock: &mut Dock<MemDepot>,
    lane: Lane,
    letter: u8,
) -> Result<RecvAct, Fail>
    requires lanes { length dock.old.plain.lanes ≡ LANES }
    requires lane { lane.0 < LANES }
    ensures { length dock.new.plain.lanes ≡ LANES }
{
    if letter == b'p' {
        return piece(rt, dock, lane);
    }
    let conn = conn_of(dock.history(), lane);
    let put = input(rt, alloc, lane, conn, letter)?;
    hand_in(rt, dock, lane, put)
}

/// A step of a lane with an input. There is memory for it.
pub fn hand_in(
    rt: &impl Abort,
    dock: &mut Dock<MemDepot>,
    lane: Lane,
    put: RecvIn,
) -> Result<RecvAct, Fail>
    requires lanes { length dock.old.plain.lanes ≡ LANES }
    requires lane { lane.0 < LANES }
    requires fits { FitsPut (Given put) }
    ensures { length dock.new.plain.lanes ≡ LANES }
{
    match dock.step(lane, put) {
        Ok(act) => Ok(act),
        Err(_) => panic!(rt; "no memory"),
    }
}

// The two bytes of the block come.
fn piece(rt: &impl Abort, dock: &mut Dock<MemDepot>, lane: Lane) -> Result<RecvAct, Fail>
    requires lanes { length dock.old.plain.lanes ≡ LANES }
    requires lane { lane.0 < LANES }
    ensures { length dock.new.plain.lanes ≡ LANES }
{
    match dock.wants(lane) {
        Some((_, _, 2)) => Ok(dock.piece(lane, BYTES)?),
        // The end failed before its block began.
        _ => Ok(RecvAct::Stop),
    }
}

/// Steps one after another: a digit says whose the next ones are.
pub fn run(
    rt: &impl Abort,
    alloc: Global,
    dock: &mut Dock<MemDepot>,
    letters: &[u8],
) -> Result<(), Fail>
    requires { length dock.old.plain.lanes ≡ LANES }
    ensures { length dock.new.plain.lanes ≡ LANES }
{
    let mut lane = Lane(0);
    for letter in letters {
        match *letter {
            b'0' => lane = Lane(0),
            b'1' => lane = Lane(1),
            b'2' => lane = Lane(2),
            other => {
                step(rt, alloc, dock, lane, other)?;
            }
        }
    }
    Ok(())
}
