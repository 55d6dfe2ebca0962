//! What no clause says: which input belongs to which state.
use crate::{SendIn, SendState, allowed};
use std::alloc::Global;
use std::process::Abort;
use std::test::Fail;
use wdt_codec::{Frame, Mark, Marks, Settings};
use wdt_ranges::Have;
use wdt_units::{Conn, Header, Lane, Name};

// The states, each with a letter for each input of `inputs`: `y` where it belongs to the state.
const TABLE: [(SendState, &[u8; 18]); 11] = [
    (SendState::Connect, b"yyy.....y........."),
    (SendState::SendSettings, b"...yy...y........."),
    (SendState::ReadLocalCheckpoint, b"....yy..yyyyyyyyyy"),
    (SendState::ReadFileChunks, b"....yy..yyyyyyyyyy"),
    (SendState::SendSize, b"...yy...y........."),
    (SendState::SendBlocks, b"...yy.yyy........."),
    (SendState::SendDone, b"...yy...y........."),
    (SendState::ReadReceiverCmd, b"....yy..yyyyyyyyyy"),
    (SendState::AnswerDone, b"...yy...y........."),
    (SendState::SendAbort, b"...yy...y........."),
    (SendState::Ended, b"........y........."),
];

const SETTINGS: Settings = Settings {
    version: 1,
    session: 1,
    lane: Lane(0),
    lanes: 1,
    conn: Conn(1),
    block: 4,
    ask: true,
};

const MARK: Mark = Mark {
    lane: Lane(0),
    count: 0,
};

fn header(alloc: Global) -> Result<Header, Fail> {
    Ok(Header {
        path: Name::read(alloc, b"a")?,
        size: 2,
        stamp: 0,
        offset: 0,
        length: 2,
    })
}

// Each input, and the input of each frame.
fn inputs(alloc: Global) -> Result<Vec<SendIn>, Fail> {
    let mut inputs = Vec::with_capacity(alloc, 18)?;
    inputs.push(SendIn::Start)?;
    inputs.push(SendIn::Linked)?;
    inputs.push(SendIn::NoLink)?;
    inputs.push(SendIn::Wrote)?;
    inputs.push(SendIn::Lost)?;
    inputs.push(SendIn::Bad(0))?;
    inputs.push(SendIn::SourceLost(true))?;
    inputs.push(SendIn::SourceLost(false))?;
    inputs.push(SendIn::Starved)?;
    inputs.push(SendIn::Got(Frame::Settings(SETTINGS)))?;
    inputs.push(SendIn::Got(Frame::Greeting(MARK)))?;
    inputs.push(SendIn::Got(Frame::Chunks(Have::none(alloc))))?;
    inputs.push(SendIn::Got(Frame::Size { files: 1, bytes: 2 }))?;
    inputs.push(SendIn::Got(Frame::Block(header(alloc)?)))?;
    inputs.push(SendIn::Got(Frame::Done))?;
    inputs.push(SendIn::Got(Frame::Wait))?;
    inputs.push(SendIn::Got(Frame::ErrMarks(Marks::none())))?;
    inputs.push(SendIn::Got(Frame::Abort(5)))?;
    Ok(inputs)
}

#[test]
fn inputs_belong_to_states(rt: HostRuntime) -> Result<(), Fail> {
    let inputs = inputs(rt.alloc())?;
    for (state, row) in TABLE {
        for (input, letter) in inputs.iter().zip(row) {
            assert!(rt;
                allowed(state, input) == (*letter == b'y'),
                "{state:?} {input:?}"
            );
        }
    }
    Ok(())
}
