//! What a sender may not say: each fault at its least and its greatest value, or at the ones that a test can
//! reach.
ghost use Rattle.std.specs.Prelude.{IfOk};
ghost use Rattle.wdt_codec.specs.Frames.{Fits};
ghost use Rattle.wdt_receiver_fsm.specs.Turn.{Given};
ghost use Rattle.wdt_receiver_fsm.specs.Writes.{FitsPut};
ghost use Rattle.wdt_units.specs.Headers.{FitsHeader};

use crate::ends::{SETTINGS, hand_in, open, run};
use std::alloc::Global;
use std::process::Abort;
use std::test::Fail;
use wdt_codec::{Frame, Settings};
use wdt_ranges::Have;
use wdt_receiver_fsm::{RecvAct, RecvEvent, RecvIn};
use wdt_sender_fsm::{EndAnswer, PeerKind};
use wdt_units::{Conn, Header, Lane, MAX_FILE_SIZE, MAX_FILES, MAX_TOTAL, Name};

// What lane 1 reads that it may not read.
#[derive(Clone, Copy, Debug)]
enum Said {
    Bad(u32),
    Chunks,
    Size(u32, u64),
    // Settings that differ in the field of this number, from 1.
    Settings(u8),
    // A block of `a`: the file's size and stamp, the block's offset and length.
    Block(u64, u64, u64, u32),
    Done,
}

// What lane 1 reads.
fn put_of(rt: &impl Abort, alloc: Global, said: Said) -> Result<RecvIn, Fail>
    ensures { IfOk result (λ put. FitsPut (Given put)) }
{
    match said {
        Said::Bad(at) => Ok(RecvIn::Bad(at)),
        Said::Chunks => Ok(RecvIn::Got(Frame::Chunks(Have::none(alloc)))),
        Said::Size(files, bytes) => {
            assert!(rt; files <= MAX_FILES && bytes <= MAX_TOTAL);
            Ok(RecvIn::Got(Frame::Size { files, bytes }))
        }
        Said::Settings(field) => Ok(RecvIn::Got(Frame::Settings(settings(field)))),
        Said::Block(size, stamp, offset, length) => {
            let header = header(rt, alloc, size, stamp, offset, length)?;
            Ok(RecvIn::Got(Frame::Block(header)))
        }
        Said::Done => Ok(RecvIn::Got(Frame::Done)),
    }
}

// Settings of lane 1 that differ in a field.
fn settings(field: u8) -> Settings
    ensures { Fits (Frame.Settings result) }
{
    let right = Settings {
        lane: Lane(1),
        ..SETTINGS
    };
    match field {
        1 => Settings {
            version: 2,
            ..right
        },
        2 => Settings {
            session: 2,
            ..right
        },
        3 => Settings {
            lane: Lane(2),
            ..right
        },
        4 => Settings { lanes: 16, ..right },
        6 => Settings { block: 5, ..right },
        _ => right,
    }
}

// The header of a block of `a`.
fn header(
    rt: &impl Abort,
    alloc: Global,
    size: u64,
    stamp: u64,
    offset: u64,
    length: u32,
) -> Result<Header, Fail>
    ensures { IfOk result (λ header. FitsHeader header) }
{
    let path = Name::read(alloc, b"a")?;
    assert!(rt; !path.reserved());
    assert!(rt; size <= MAX_FILE_SIZE && offset <= size);
    assert!(rt; 0 < length && length <= 64 && u64::from(length) <= size - offset);
    Ok(Header {
        path,
        size,
        stamp,
        offset,
        length,
    })
}

// The greatest size of a file and its last position.
const LARGE: u64 = 1 << 40;

const LAST: u64 = LARGE - 1;

// Behind these inputs lane 1 reads what it may not read, and exactly this fault is told. A digit says whose
// the inputs are.
fn check(
    rt: &(impl Abort + AllocGlobal),
    way: &[u8],
    said: Said,
    kind: PeerKind,
) -> Result<(), Fail> {
    let mut dock = open(rt, rt.alloc())?;
    run(rt, rt.alloc(), &mut dock, way)?;
    let put = put_of(rt, rt.alloc(), said)?;
    let act = hand_in(rt, &mut dock, Lane(1), put)?;
    assert!(rt; matches!(act, RecvAct::Write(Frame::Abort(5))), "{said:?}");
    assert!(rt; is_last(dock.history(), kind), "{said:?}");
    assert!(rt; is_told(dock.answer(), kind), "{said:?}");
    Ok(())
}

// Whether the last entry is this fault of lane 1.
fn is_last(history: &[RecvEvent], kind: PeerKind) -> bool {
    match history.last() {
        Some(event) => *event == RecvEvent::Peer(Lane(1), kind),
        None => false,
    }
}

// Whether this fault is the answer.
fn is_told(answer: &EndAnswer, kind: PeerKind) -> bool {
    match answer {
        EndAnswer::Peer(told) => *told == kind,
        _ => false,
    }
}

#[test]
fn no_frame_may_come_out_of_turn(rt: HostRuntime) -> Result<(), Fail> {
    check(&rt, b"1SL", Said::Bad(0), PeerKind::BadFrame { at: 0 })?;
    check(
        &rt,
        b"1SL",
        Said::Bad(u32::MAX),
        PeerKind::BadFrame { at: u32::MAX },
    )?;
    check(
        &rt,
        b"1SL",
        Said::Chunks,
        PeerKind::Unexpected {
            state: 1,
            command: 0x43,
        },
    )?;
    check(
        &rt,
        b"0SLsWWzdW2SLsWWzdW1SLsWWzbpdW",
        Said::Size(1, 2),
        PeerKind::Unexpected {
            state: 10,
            command: 0x5A,
        },
    )
}

#[test]
fn the_least_wrong_field_is_told(rt: HostRuntime) -> Result<(), Fail> {
    check(
        &rt,
        b"1SL",
        Said::Settings(1),
        PeerKind::BadSettings { field: 1 },
    )?;
    check(
        &rt,
        b"0SLs1SL",
        Said::Settings(2),
        PeerKind::BadSettings { field: 2 },
    )?;
    check(
        &rt,
        b"1SL",
        Said::Settings(3),
        PeerKind::BadSettings { field: 3 },
    )?;
    check(
        &rt,
        b"1SL",
        Said::Settings(4),
        PeerKind::BadSettings { field: 4 },
    )?;
    check(
        &rt,
        b"1SLsXL",
        Said::Settings(5),
        PeerKind::BadSettings { field: 5 },
    )?;
    check(
        &rt,
        b"0SLs1SL",
        Said::Settings(6),
        PeerKind::BadSettings { field: 6 },
    )
}

#[test]
fn other_totals_are_told(rt: HostRuntime) -> Result<(), Fail> {
    check(
        &rt,
        b"0SLsWWz1SLsWW",
        Said::Size(0, 0),
        PeerKind::SizesDiffer {
            files: 1,
            bytes: 2,
            told_files: 0,
            told_bytes: 0,
        },
    )?;
    check(
        &rt,
        b"0SLsWWz1SLsWW",
        Said::Size(MAX_FILES, MAX_TOTAL),
        PeerKind::SizesDiffer {
            files: 1,
            bytes: 2,
            told_files: MAX_FILES,
            told_bytes: MAX_TOTAL,
        },
    )
}

// The block is on its way on another lane, or there.
#[test]
fn a_taken_position_is_told(rt: HostRuntime) -> Result<(), Fail> {
    check(
        &rt,
        b"0SLsWWzb1SLsWWz",
        Said::Block(2, 0, 0, 2),
        PeerKind::Overlap { offset: 0 },
    )?;
    check(
        &rt,
        b"0SLsWWzb1SLsWWz",
        Said::Block(2, 0, 1, 1),
        PeerKind::Overlap { offset: 1 },
    )?;
    check(
        &rt,
        b"0SLsWWzbp1SLsWWz",
        Said::Block(2, 0, 0, 1),
        PeerKind::Overlap { offset: 0 },
    )?;
    check(
        &rt,
        b"0SLsWWzl1SLsWWz",
        Said::Block(LARGE, 0, LAST, 1),
        PeerKind::Overlap { offset: LAST },
    )
}

// The file is known otherwise, which is told before any position is looked at.
#[test]
fn a_file_that_is_known_otherwise_is_told(rt: HostRuntime) -> Result<(), Fail> {
    check(
        &rt,
        b"0SLsWWzb1SLsWWz",
        Said::Block(3, 0, 0, 2),
        PeerKind::SizeDiffers {
            size: 2,
            stamp: 0,
            told_size: 3,
            told_stamp: 0,
        },
    )?;
    check(
        &rt,
        b"0SLsWWzb1SLsWWz",
        Said::Block(LARGE, u64::MAX, 0, 2),
        PeerKind::SizeDiffers {
            size: 2,
            stamp: 0,
            told_size: LARGE,
            told_stamp: u64::MAX,
        },
    )
}

// The finish is ready, and less is there than was to be sent.
#[test]
fn what_is_missing_at_the_finish_is_told(rt: HostRuntime) -> Result<(), Fail> {
    check(
        &rt,
        b"0SLsWWzdW2SLsWWzdW1SLsWWz",
        Said::Done,
        PeerKind::Short {
            files: 0,
            bytes: 0,
            told_files: 1,
            told_bytes: 2,
        },
    )?;
    check(
        &rt,
        b"0SLsWWZdW2SLsWWZdW1SLsWWZ",
        Said::Done,
        PeerKind::Short {
            files: 0,
            bytes: 0,
            told_files: MAX_FILES,
            told_bytes: MAX_TOTAL,
        },
    )?;
    check(
        &rt,
        b"0SLsWWZbpdW2SLsWWZdW1SLsWWZ",
        Said::Done,
        PeerKind::Short {
            files: 1,
            bytes: 2,
            told_files: MAX_FILES,
            told_bytes: MAX_TOTAL,
        },
    )
}
