//! The table of a receiver's end: each state by each input, on an end that is sound, on one whose finish has
//! come, and on one that has failed.
ghost use Rattle.std.specs.Prelude.{◌≡◌, length};

use crate::ends::{LANES, input, open, run, step};
use std::alloc::Global;
use std::process::Abort;
use std::test::Fail;
use wdt_codec::Frame;
use wdt_depot::MemDepot;
use wdt_dock::Dock;
use wdt_receiver_fsm::{RecvAct, RecvState, allowed};
use wdt_units::{Conn, Lane};

// The inputs of the table, a letter each: S Start, L Linked, N NoLink, W Wrote, X Lost, B Bad, K Woken,
// O Odd, V Starved. Then a frame that is read: s Settings, g Greeting, c Chunks, z Size, b Block, d Done,
// w Wait, e ErrMarks, a Abort.
const INPUTS: &[u8; 18] = b"SLNWXBKOVsgczbdwea";

// An act as a letter.
fn letter_of(act: &RecvAct) -> u8 {
    match act {
        RecvAct::Accept => b'C',
        RecvAct::Write(Frame::Abort(_)) => b'A',
        RecvAct::Write(_) => b'W',
        RecvAct::Read => b'R',
        RecvAct::TakePiece(_) => b'T',
        RecvAct::Park => b'P',
        RecvAct::Stop => b'S',
    }
}

// The cell of a step of lane 0: the state behind it, by its place in the list of states, the act, and how
// many entries are noted.
fn cell_of(state: RecvState, act: &RecvAct, entries: usize) -> [u8; 3] {
    [
        b"0123456789abc"[state.place() as usize % 13],
        letter_of(act),
        b"0123456789"[entries % 10],
    ]
}

// What the input of a letter comes to on lane 0: a cell.
fn cell(
    rt: &impl Abort,
    alloc: Global,
    dock: &mut Dock<MemDepot>,
    letter: u8,
) -> Result<[u8; 3], Fail>
    requires { length dock.old.plain.lanes ≡ LANES }
    ensures { length dock.new.plain.lanes ≡ LANES }
{
    let before = dock.history().len();
    let act = step(rt, alloc, dock, Lane(0), letter)?;
    let entries = dock.history().len().saturating_sub(before);
    Ok(cell_of(dock.state(Lane(0)), &act, entries))
}

// The cell of an input behind the inputs of this way, which lead lane 0 to a state.
fn cell_behind(
    rt: &impl Abort,
    alloc: Global,
    state: RecvState,
    way: Way<'_>,
    letter: u8,
) -> Result<[u8; 3], Fail> {
    let mut dock = open(rt, alloc)?;
    run(rt, alloc, &mut dock, way.first)?;
    run(rt, alloc, &mut dock, way.more)?;
    assert_eq!(rt; dock.state(Lane(0)), state);
    cell(rt, alloc, &mut dock, letter)
}

// What an input comes to is as the table tells: `---` where it doesn't belong to the state.
fn check_cell(
    rt: &impl Abort,
    alloc: Global,
    state: RecvState,
    letter: u8,
    found: [u8; 3],
    told: &[u8],
) -> Result<(), Fail> {
    if told.starts_with(b"---") {
        let put = input(rt, alloc, Lane(0), Conn(1), letter)?;
        assert!(rt; !allowed(state, &put), "{state:?} {letter}");
        assert_eq!(rt;
            found,
            cell_of(state, &RecvAct::Stop, 0),
            "{state:?} {letter}"
        );
    } else {
        assert!(rt;
            told.starts_with(found.as_slice()),
            "{state:?} {letter} {found:?}"
        );
    }
    Ok(())
}

// Inputs that lead to a state, and more behind them.
#[derive(Clone, Copy)]
struct Way<'a> {
    first: &'a [u8],
    more: &'a [u8],
}

// Lane 0 stands in the state behind the inputs of this way, and behind each further input as the cell of
// the line says, which has a cell for each input.
fn check_line(
    rt: &impl Abort,
    alloc: Global,
    state: RecvState,
    way: Way<'_>,
    line: &[u8],
) -> Result<(), Fail> {
    assert_eq!(rt; line.len(), 71);
    for (letter, told) in INPUTS.iter().zip(line.chunks(4)) {
        let found = cell_behind(rt, alloc, state, way, *letter)?;
        check_cell(rt, alloc, state, *letter, found, told)?;
    }
    Ok(())
}

// What makes the end fail over another lane.
const FAILING: &[u8; 2] = b"2V";

// The lines of a state: of a sound end, and of one that has failed since.
fn check(
    rt: &(impl Abort + AllocGlobal),
    state: RecvState,
    way: &[u8],
    sound: &[u8],
    failed: &[u8],
) -> Result<(), Fail> {
    let (first, alloc) = (way, rt.alloc());
    check_line(rt, alloc, state, Way { first, more: b"" }, sound)?;
    check_line(
        rt,
        alloc,
        state,
        Way {
            first,
            more: FAILING,
        },
        failed,
    )
}

// Each state of lane 0, and the inputs that lead to it: a digit says whose the next ones are, and p is a
// piece. Then a line of cells, one for each input of lane 0, and a line of an end that has failed since.
//
// A cell is the state behind the step, by its place below, the act, and how many entries are noted. So
// `1R1` is: the lane reads the settings (state 1, act Read), and one entry is noted. `---` is an input that
// doesn't belong to the state: the lane stays as it is, and gets Stop. The states: 0 Listen, 1 ReadSettings,
// 2 SendLocalCheckpoint, 3 SendFileChunks, 4 ReadNextCmd, 5 TakeBlock, 6 SendWait, 7 WaitForFinish,
// 8 SendGlobalCheckpoint, 9 SendDone, a ReadAck, b SendAbort, c Ended. The acts: C Accept, W Write of any
// frame but Abort, A Write of Abort, R Read, T TakePiece, P Park, S Stop.

// Up to the totals.
#[test]
fn a_lane_says_what_it_has(rt: HostRuntime) -> Result<(), Fail> {
    //              S   L   N   W   X   B   K   O   V   s   g   c   z   b   d   w   e   a
    check(
        &rt,
        RecvState::Listen,
        b"0S",
        b"0C0 1R1 0C1 --- --- --- --- --- cS0 --- --- --- --- --- --- --- --- ---",
        b"cS0 cS0 cS0 cS0 cS0 cS0 cS0 cS0 cS0 cS0 cS0 cS0 cS0 cS0 cS0 cS0 cS0 cS0",
    )?;
    check(
        &rt,
        RecvState::ReadSettings,
        b"0SL",
        b"--- --- --- --- 0C1 bA1 --- --- bA0 2W1 bA1 bA1 bA1 bA1 bA1 bA1 bA1 cS1",
        b"cS0 cS0 cS0 cS0 cS0 bA0 cS0 cS0 bA0 bA0 bA0 bA0 bA0 bA0 bA0 bA0 bA0 cS0",
    )?;
    check(
        &rt,
        RecvState::SendLocalCheckpoint,
        b"0SLs",
        b"--- --- --- 3W0 0C1 --- --- --- bA0 --- --- --- --- --- --- --- --- ---",
        b"cS0 cS0 cS0 bA0 cS0 cS0 cS0 cS0 bA0 cS0 cS0 cS0 cS0 cS0 cS0 cS0 cS0 cS0",
    )?;
    check(
        &rt,
        RecvState::SendFileChunks,
        b"0SLsW",
        b"--- --- --- 4R0 0C1 --- --- --- bA0 --- --- --- --- --- --- --- --- ---",
        b"cS0 cS0 cS0 bA0 cS0 cS0 cS0 cS0 bA0 cS0 cS0 cS0 cS0 cS0 cS0 cS0 cS0 cS0",
    )?;
    check(
        &rt,
        RecvState::ReadNextCmd,
        b"0SLsWW",
        b"--- --- --- --- 0C1 bA1 --- --- bA0 bA1 bA1 bA1 4R1 bA1 bA1 bA1 bA1 cS1",
        b"cS0 cS0 cS0 cS0 cS0 bA0 cS0 cS0 bA0 bA0 bA0 bA0 bA0 bA0 bA0 bA0 bA0 cS0",
    )
}

// From the totals to the finish. Behind the last of these ways lane 1 is closed, and lane 0 tells of it.
#[test]
fn a_lane_takes_blocks_and_waits(rt: HostRuntime) -> Result<(), Fail> {
    //              S   L   N   W   X   B   K   O   V   s   g   c   z   b   d   w   e   a
    check(
        &rt,
        RecvState::ReadNextCmd,
        b"0SLsWWz",
        b"--- --- --- --- 0C1 bA1 --- --- bA0 bA1 bA1 bA1 bA1 5T1 6W1 bA1 bA1 cS1",
        b"cS0 cS0 cS0 cS0 cS0 bA0 cS0 cS0 bA0 bA0 bA0 bA0 bA0 bA0 bA0 bA0 bA0 cS0",
    )?;
    check(
        &rt,
        RecvState::TakeBlock,
        b"0SLsWWzb",
        b"--- --- --- --- 0C1 --- --- --- bA0 --- --- --- --- --- --- --- --- ---",
        b"cS0 cS0 cS0 cS0 cS0 cS0 cS0 cS0 bA0 cS0 cS0 cS0 cS0 cS0 cS0 cS0 cS0 cS0",
    )?;
    check(
        &rt,
        RecvState::SendWait,
        b"0SLsWWzd",
        b"--- --- --- 7P0 0C1 --- --- --- bA0 --- --- --- --- --- --- --- --- ---",
        b"cS0 cS0 cS0 bA0 cS0 cS0 cS0 cS0 bA0 cS0 cS0 cS0 cS0 cS0 cS0 cS0 cS0 cS0",
    )?;
    check(
        &rt,
        RecvState::WaitForFinish,
        b"0SLsWWzdW",
        b"--- --- --- --- 0C1 --- 7P0 --- bA0 --- --- --- --- --- --- --- --- ---",
        b"cS0 cS0 cS0 cS0 cS0 cS0 bA0 cS0 bA0 cS0 cS0 cS0 cS0 cS0 cS0 cS0 cS0 cS0",
    )?;
    check(
        &rt,
        RecvState::SendGlobalCheckpoint,
        b"1SNNNNNNNN0SLsWWzd",
        b"--- --- --- 4R0 0C1 --- --- --- bA0 --- --- --- --- --- --- --- --- ---",
        b"cS0 cS0 cS0 bA0 cS0 cS0 cS0 cS0 bA0 cS0 cS0 cS0 cS0 cS0 cS0 cS0 cS0 cS0",
    )
}

// From the finish on: lanes 1 and 2 are idle first.
#[test]
fn a_lane_comes_behind_the_finish(rt: HostRuntime) -> Result<(), Fail> {
    //              S   L   N   W   X   B   K   O   V   s   g   c   z   b   d   w   e   a
    check(
        &rt,
        RecvState::Listen,
        b"1SLsWWzdW2SLsWWzdW0SLsWWzbpdX",
        b"0C0 1R1 0C1 --- --- --- --- --- cS0 --- --- --- --- --- --- --- --- ---",
        b"cS0 cS0 cS0 cS0 cS0 cS0 cS0 cS0 cS0 cS0 cS0 cS0 cS0 cS0 cS0 cS0 cS0 cS0",
    )?;
    check(
        &rt,
        RecvState::ReadSettings,
        b"1SLsWWzdW2SLsWWzdW0SLsWWzbpdXL",
        b"--- --- --- --- 0C1 bA1 --- --- bA0 9W0 bA1 bA1 bA1 bA1 bA1 bA1 bA1 cS1",
        b"cS0 cS0 cS0 cS0 cS0 bA0 cS0 cS0 bA0 bA0 bA0 bA0 bA0 bA0 bA0 bA0 bA0 cS0",
    )?;
    check(
        &rt,
        RecvState::SendWait,
        b"1SLsWWzdW0SLsWWzbpd2SLsWWzd",
        b"--- --- --- 9W0 0C1 --- --- --- bA0 --- --- --- --- --- --- --- --- ---",
        b"cS0 cS0 cS0 bA0 cS0 cS0 cS0 cS0 bA0 cS0 cS0 cS0 cS0 cS0 cS0 cS0 cS0 cS0",
    )?;
    check(
        &rt,
        RecvState::WaitForFinish,
        b"1SLsWWzdW0SLsWWzbpdW2SLsWWzd",
        b"--- --- --- --- 0C1 --- 9W0 --- bA0 --- --- --- --- --- --- --- --- ---",
        b"cS0 cS0 cS0 cS0 cS0 cS0 bA0 cS0 bA0 cS0 cS0 cS0 cS0 cS0 cS0 cS0 cS0 cS0",
    )
}

// From the last word on.
#[test]
fn a_lane_ends_behind_the_finish(rt: HostRuntime) -> Result<(), Fail> {
    //              S   L   N   W   X   B   K   O   V   s   g   c   z   b   d   w   e   a
    check(
        &rt,
        RecvState::SendDone,
        b"1SLsWWzdW2SLsWWzdW0SLsWWzbpd",
        b"--- --- --- aR0 0C1 --- --- --- bA0 --- --- --- --- --- --- --- --- ---",
        b"cS0 cS0 cS0 bA0 cS0 cS0 cS0 cS0 bA0 cS0 cS0 cS0 cS0 cS0 cS0 cS0 cS0 cS0",
    )?;
    check(
        &rt,
        RecvState::ReadAck,
        b"1SLsWWzdW2SLsWWzdW0SLsWWzbpdW",
        b"--- --- --- --- 0C1 bA1 --- --- bA0 bA1 bA1 bA1 bA1 bA1 cS1 bA1 bA1 cS1",
        b"cS0 cS0 cS0 cS0 cS0 bA0 cS0 cS0 bA0 bA0 bA0 bA0 bA0 bA0 bA0 bA0 bA0 cS0",
    )?;
    check(
        &rt,
        RecvState::Ended,
        b"1SLsWWzdW2SLsWWzdW0SLsWWzbpdWd",
        b"--- --- --- --- --- --- --- --- cS0 --- --- --- --- --- --- --- --- ---",
        b"cS0 cS0 cS0 cS0 cS0 cS0 cS0 cS0 cS0 cS0 cS0 cS0 cS0 cS0 cS0 cS0 cS0 cS0",
    )
}

// The end has failed already: its own lane tells it.
#[test]
fn a_lane_ends_on_a_failed_end(rt: HostRuntime) -> Result<(), Fail> {
    //              S   L   N   W   X   B   K   O   V   s   g   c   z   b   d   w   e   a
    check(
        &rt,
        RecvState::SendAbort,
        b"0SLB",
        b"cS0 cS0 cS0 cS0 cS0 cS0 cS0 cS0 cS0 cS0 cS0 cS0 cS0 cS0 cS0 cS0 cS0 cS0",
        b"cS0 cS0 cS0 cS0 cS0 cS0 cS0 cS0 cS0 cS0 cS0 cS0 cS0 cS0 cS0 cS0 cS0 cS0",
    )?;
    check(
        &rt,
        RecvState::Ended,
        b"0SLBW",
        b"cS0 cS0 cS0 cS0 cS0 cS0 cS0 cS0 cS0 cS0 cS0 cS0 cS0 cS0 cS0 cS0 cS0 cS0",
        b"cS0 cS0 cS0 cS0 cS0 cS0 cS0 cS0 cS0 cS0 cS0 cS0 cS0 cS0 cS0 cS0 cS0 cS0",
    )
}

// The bytes of a block belong to no other state than that of a lane that takes one.
#[test]
fn the_bytes_of_a_block_are_taken(rt: HostRuntime) -> Result<(), Fail> {
    check_piece(&rt, b"0SLsWWzb", b"4R1")?;
    check_piece(&rt, b"0SLsWWzb2V", b"bA0")
}

// Lane 0 takes a piece behind the inputs of this way.
fn check_piece(rt: &(impl Abort + AllocGlobal), way: &[u8], told: &[u8; 3]) -> Result<(), Fail> {
    let mut dock = open(rt, rt.alloc())?;
    run(rt, rt.alloc(), &mut dock, way)?;
    let found = cell(rt, rt.alloc(), &mut dock, b'p')?;
    assert_eq!(rt; found, *told);
    Ok(())
}
