//! Ends and inputs for tests.
ghost use Rattle.std.specs.Prelude.{◌≡◌, ◌<◌, ◌≤◌, [], ◌∷◌, length, IfOk};
ghost use Rattle.wdt_codec.specs.Frames.{FitsHeader};
ghost use Rattle.wdt_sender_fsm.specs.Sender.{FitsIn};

use std::alloc::Global;
use std::process::Abort;
use std::test::Fail;
use wdt_codec::{Frame, Mark, Marks, Settings};
use wdt_ranges::Have;
use wdt_sender_fsm::{SendAct, SendIn};
use wdt_tree::{Manifest, RawEntry};
use wdt_units::{Conn, Header, Lane, Name, NoMemory};
use wdt_yard::Yard;

const SETTINGS: Settings = Settings {
    version: 1,
    session: 1,
    lane: Lane(0),
    lanes: 1,
    conn: Conn(1),
    block: 4,
    ask: true,
};

// An end of so many lanes, on a tree of one file `a` of two bytes.
pub fn open(rt: &impl Abort, alloc: Global, lanes: u8) -> Result<Yard, Fail>
    requires some { 1 ≤ lanes }
    requires few { lanes ≤ 16 }
    ensures { IfOk result (λ yard. length yard.lanes ≡ lanes) }
{
    let path = Vec::from_slice(alloc, b"a")?;
    let mut raw = Vec::with_capacity(alloc, 1)?;
    raw.push(RawEntry {
        path,
        size: 2,
        stamp: 0,
    })?;
    assert!(rt; raw.len() < 10);
    let manifest = Manifest::check(alloc, raw)?;
    Ok(Yard::open(alloc, manifest, lanes, 4, 1)?)
}

// The input that a letter stands for.
fn input(rt: &impl Abort, alloc: Global, letter: u8) -> Result<SendIn, Fail>
    ensures { IfOk result (λ put. FitsIn put) }
{
    match letter {
        b'S' => Ok(SendIn::Start),
        b'L' => Ok(SendIn::Linked),
        b'N' => Ok(SendIn::NoLink),
        b'W' => Ok(SendIn::Wrote),
        b'X' => Ok(SendIn::Lost),
        b'B' => Ok(SendIn::Bad(7)),
        b'T' => Ok(SendIn::SourceLost(true)),
        b'F' => Ok(SendIn::SourceLost(false)),
        b'V' => Ok(SendIn::Starved),
        _ => Ok(SendIn::Got(frame(rt, alloc, letter)?)),
    }
}

// The frame that a letter stands for: `g` and `h` greet lane 0 and lane 1 with no block, `i` lane 0
// with one; `e` and `f` say that lane 1 and lane 0 are closed with no block.
fn frame(rt: &impl Abort, alloc: Global, letter: u8) -> Result<Frame, Fail>
    ensures { IfOk result (λ frame. FitsIn (SendIn.Got frame)) }
{
    match letter {
        b's' => Ok(Frame::Settings(SETTINGS)),
        b'g' => Ok(Frame::Greeting(mark(0, 0))),
        b'h' => Ok(Frame::Greeting(mark(1, 0))),
        b'i' => Ok(Frame::Greeting(mark(0, 1))),
        b'c' => Ok(Frame::Chunks(Have::none(alloc))),
        b'z' => Ok(Frame::Size { files: 1, bytes: 2 }),
        b'b' => Ok(Frame::Block(header(rt, alloc)?)),
        b'd' => Ok(Frame::Done),
        b'w' => Ok(Frame::Wait),
        b'e' => Ok(Frame::ErrMarks(marks(1))),
        b'f' => Ok(Frame::ErrMarks(marks(0))),
        b'a' => Ok(Frame::Abort(9)),
        _ => panic!(rt; "no such letter"),
    }
}

fn mark(lane: u8, count: u32) -> Mark
    ensures { result ≡ record { lane = record { 0 = lane }; count = count } }
{
    Mark {
        lane: Lane(lane),
        count,
    }
}

fn marks(lane: u8) -> Marks
    ensures { result ≡ record { lane = record { 0 = lane }; count = 0 } ∷ [] }
{
    let mut marks = Marks::none();
    marks.push(mark(lane, 0));
    marks
}

fn header(rt: &impl Abort, alloc: Global) -> Result<Header, Fail>
    ensures { IfOk result (λ header. FitsHeader header) }
{
    let path = Name::read(alloc, b"a")?;
    assert!(rt; !path.reserved());
    Ok(Header {
        path,
        size: 2,
        stamp: 0,
        offset: 0,
        length: 2,
    })
}

// A step of a lane with the input that a letter stands for.
pub fn step(
    rt: &impl Abort,
    alloc: Global,
    yard: &mut Yard,
    lane: Lane,
    letter: u8,
) -> Result<SendAct, Fail>
    requires { lane.0 < length yard.old.lanes }
    ensures { length yard.new.lanes ≡ length yard.old.lanes }
{
    let put = input(rt, alloc, letter)?;
    match yard.step(lane, put) {
        Ok(act) => Ok(act),
        Err(_) => {
            let none: Result<SendAct, NoMemory> = Err(NoMemory);
            Ok(none?)
        }
    }
}

// Steps of a lane one after another. A dot stands for none.
pub fn run(
    rt: &impl Abort,
    alloc: Global,
    yard: &mut Yard,
    lane: Lane,
    letters: &[u8],
) -> Result<(), Fail>
    requires { lane.0 < length yard.old.lanes }
    ensures { length yard.new.lanes ≡ length yard.old.lanes }
{
    for letter in letters {
        if *letter != b'.' {
            step(rt, alloc, yard, lane, *letter)?;
        }
    }
    Ok(())
}
