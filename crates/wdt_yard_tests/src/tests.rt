//! What no clause says: worked steps of whole ends, and that each call succeeds where there is memory.
use crate::testing::{open, run, step};
use std::test::Fail;
use wdt_codec::Frame;
use wdt_history::Place;
use wdt_sender_fsm::{EndAnswer, PeerKind, SendAct, SendEvent, SendState};
use wdt_units::{Block, Lane};

// The one block of the tree.
const BLOCK: Block = Block {
    file: 0,
    offset: 0,
    length: 2,
};

// An act as a letter.
fn letter_of(act: &SendAct) -> u8 {
    match act {
        SendAct::Dial(_) => b'D',
        SendAct::Write(Frame::Abort(_)) => b'A',
        SendAct::Write(_) => b'W',
        SendAct::SendBlock(_) => b'B',
        SendAct::Read => b'R',
        SendAct::Stop => b'S',
    }
}

// The inputs of the table, a letter each: S Start, L Linked, N NoLink, W Wrote, X Lost, B Bad, T and F
// SourceLost before and in a block, V Starved. Then a frame that is read: s Settings, g Greeting,
// c Chunks, z Size, b Block, d Done, w Wait, e ErrMarks, a Abort.
const INPUTS: &[u8; 18] = b"SLNWXBTFVsgczbdwea";

type Row<'a> = (SendState, &'a [u8; 10], &'a [u8; 71], &'a [u8; 71]);

// Each state, and the inputs that lead to it. Then a line of cells, one for each input, of an end that
// hasn't failed, where the state is one of such an end, and a line of an end that has.
//
// A cell is the state behind the step, by its place below, the act, and how many entries are noted. So
// `0D1` is: the lane dials again (state 0, act Dial), and one entry says so. The states: 0 Connect,
// 1 SendSettings, 2 ReadLocalCheckpoint, 3 ReadFileChunks, 4 SendSize, 5 SendBlocks, 6 SendDone,
// 7 ReadReceiverCmd, 8 AnswerDone, 9 SendAbort, a Ended. The acts: D Dial, W Write of any frame but
// Abort, A Write of Abort, B SendBlock, R Read, S Stop.
const TABLE: [Row<'_>; 11] = [
    //   S   L   N   W   X   B   T   F   V   s   g   c   z   b   d   w   e   a
    (
        SendState::Connect,
        b"S.........",
        b"0D0 1W1 0D1 0S0 0S0 0S0 0S0 0S0 aS0 0S0 0S0 0S0 0S0 0S0 0S0 0S0 0S0 0S0",
        b"aS0 aS0 aS0 aS0 aS0 aS0 aS0 aS0 aS0 aS0 aS0 aS0 aS0 aS0 aS0 aS0 aS0 aS0",
    ),
    (
        SendState::SendSettings,
        b"SL........",
        b"1S0 1S0 1S0 2R0 0D1 1S0 1S0 1S0 9A0 1S0 1S0 1S0 1S0 1S0 1S0 1S0 1S0 1S0",
        b"aS0 aS0 aS0 9A0 aS0 aS0 aS0 aS0 9A0 aS0 aS0 aS0 aS0 aS0 aS0 aS0 aS0 aS0",
    ),
    (
        SendState::ReadLocalCheckpoint,
        b"SLW.......",
        b"2S0 2S0 2S0 2S0 0D1 9A1 2S0 2S0 9A0 9A1 3R1 9A1 9A1 9A1 9A1 9A1 9A1 aS1",
        b"aS0 aS0 aS0 aS0 aS0 9A0 aS0 aS0 9A0 9A0 9A0 9A0 9A0 9A0 9A0 9A0 9A0 aS0",
    ),
    (
        SendState::ReadFileChunks,
        b"SLWg......",
        b"3S0 3S0 3S0 3S0 0D1 9A1 3S0 3S0 9A0 9A1 9A1 4W1 9A1 9A1 9A1 9A1 9A1 aS1",
        b"aS0 aS0 aS0 aS0 aS0 9A0 aS0 aS0 9A0 9A0 9A0 9A0 9A0 9A0 9A0 9A0 9A0 aS0",
    ),
    (
        SendState::SendSize,
        b"SLWgc.....",
        b"4S0 4S0 4S0 5B1 0D1 4S0 4S0 4S0 9A0 4S0 4S0 4S0 4S0 4S0 4S0 4S0 4S0 4S0",
        b"aS0 aS0 aS0 9A0 aS0 aS0 aS0 aS0 9A0 aS0 aS0 aS0 aS0 aS0 aS0 aS0 aS0 aS0",
    ),
    (
        SendState::SendBlocks,
        b"SLWgcW....",
        b"5S0 5S0 5S0 6W1 0D1 5S0 9A0 aS0 aS0 5S0 5S0 5S0 5S0 5S0 5S0 5S0 5S0 5S0",
        b"aS0 aS0 aS0 9A0 aS0 aS0 9A0 aS0 aS0 aS0 aS0 aS0 aS0 aS0 aS0 aS0 aS0 aS0",
    ),
    (
        SendState::SendDone,
        b"SLWgcWW...",
        b"6S0 6S0 6S0 7R1 0D1 6S0 6S0 6S0 9A0 6S0 6S0 6S0 6S0 6S0 6S0 6S0 6S0 6S0",
        b"aS0 aS0 aS0 9A0 aS0 aS0 aS0 aS0 9A0 aS0 aS0 aS0 aS0 aS0 aS0 aS0 aS0 aS0",
    ),
    (
        SendState::ReadReceiverCmd,
        b"SLWgcWWW..",
        b"7S0 7S0 7S0 7S0 0D1 9A1 7S0 7S0 9A0 9A1 9A1 9A1 9A1 9A1 8W1 7R0 6W1 aS1",
        b"aS0 aS0 aS0 aS0 aS0 9A0 aS0 aS0 9A0 9A0 9A0 9A0 9A0 9A0 9A0 9A0 9A0 aS0",
    ),
    (
        SendState::AnswerDone,
        b"SLWgcWWWd.",
        b"8S0 8S0 8S0 aS1 0D1 8S0 8S0 8S0 9A0 8S0 8S0 8S0 8S0 8S0 8S0 8S0 8S0 8S0",
        b"aS0 aS0 aS0 9A0 aS0 aS0 aS0 aS0 9A0 aS0 aS0 aS0 aS0 aS0 aS0 aS0 aS0 aS0",
    ),
    (
        SendState::SendAbort,
        b"SLWB......",
        b"aS0 aS0 aS0 aS0 aS0 aS0 aS0 aS0 aS0 aS0 aS0 aS0 aS0 aS0 aS0 aS0 aS0 aS0",
        b"aS0 aS0 aS0 aS0 aS0 aS0 aS0 aS0 aS0 aS0 aS0 aS0 aS0 aS0 aS0 aS0 aS0 aS0",
    ),
    (
        SendState::Ended,
        b"SLWgcWWWdW",
        b"aS0 aS0 aS0 aS0 aS0 aS0 aS0 aS0 aS0 aS0 aS0 aS0 aS0 aS0 aS0 aS0 aS0 aS0",
        b"aS0 aS0 aS0 aS0 aS0 aS0 aS0 aS0 aS0 aS0 aS0 aS0 aS0 aS0 aS0 aS0 aS0 aS0",
    ),
];

#[test]
fn steps_answer_by_the_table(rt: HostRuntime) -> Result<(), Fail> {
    for (state, way, sound, failed) in TABLE {
        for at in 0..18 {
            for (cells, first) in [(sound, b"".as_slice()), (failed, b"SLWB")] {
                let mut yard = open(&rt, rt.alloc(), 2)?;
                run(&rt, rt.alloc(), &mut yard, Lane(0), way)?;
                run(&rt, rt.alloc(), &mut yard, Lane(1), first)?;
                assert_eq!(rt; yard.state(Lane(0)), state);
                let before = yard.history().len();
                let act = step(&rt, rt.alloc(), &mut yard, Lane(0), INPUTS[at])?;
                let place = yard.state(Lane(0)).place();
                let entries = yard.history().len().saturating_sub(before);
                let cell = [
                    b"0123456789a"[place as usize % 11],
                    letter_of(&act),
                    b"0123456789a"[entries % 11],
                ];
                assert_eq!(rt;
                    cell.as_slice(),
                    &cells[4 * at..4 * at + 3],
                    "{state:?} {at}"
                );
            }
        }
    }
    Ok(())
}

#[test]
fn a_count_of_a_block_never_claimed_is_refused(rt: HostRuntime) -> Result<(), Fail> {
    let mut yard = open(&rt, rt.alloc(), 1)?;
    run(&rt, rt.alloc(), &mut yard, Lane(0), b"SLW")?;
    let act = step(&rt, rt.alloc(), &mut yard, Lane(0), b'i')?;
    assert!(rt; matches!(act, SendAct::Write(Frame::Abort(5))));
    let kind = PeerKind::BadCheckpoint {
        n: 1,
        low: 0,
        high: 0,
    };
    assert!(rt; matches!(yard.answer(), EndAnswer::Peer(told) if *told == kind));
    assert_eq!(rt;
        yard.history().last(),
        Some(&SendEvent::Peer(Lane(0), kind))
    );
    assert!(rt; yard.planned().is_none());
    Ok(())
}

#[test]
fn a_last_word_comes_too_early(rt: HostRuntime) -> Result<(), Fail> {
    let mut yard = open(&rt, rt.alloc(), 2)?;
    run(&rt, rt.alloc(), &mut yard, Lane(0), b"SLWgcW")?;
    assert_eq!(rt; yard.place(BLOCK), Place::Held);
    assert_eq!(rt; yard.planned(), Some([BLOCK].as_slice()));
    run(&rt, rt.alloc(), &mut yard, Lane(1), b"SLW")?;
    let act = step(&rt, rt.alloc(), &mut yard, Lane(1), b'd')?;
    assert!(rt; matches!(act, SendAct::Write(Frame::Abort(5))));
    let (history, answer) = yard.close();
    assert!(rt; matches!(answer, EndAnswer::Peer(PeerKind::EarlyDone { count: 1 })));
    assert_eq!(rt; history.len(), 6);
    Ok(())
}

#[test]
fn a_block_of_a_closed_lane_is_taken_over(rt: HostRuntime) -> Result<(), Fail> {
    let mut yard = open(&rt, rt.alloc(), 2)?;
    run(&rt, rt.alloc(), &mut yard, Lane(0), b"SLWgcWXNNNNNNNN")?;
    assert_eq!(rt; yard.state(Lane(0)), SendState::Ended);
    run(&rt, rt.alloc(), &mut yard, Lane(1), b"SLWhWW")?;
    let act = step(&rt, rt.alloc(), &mut yard, Lane(1), b'f')?;
    assert!(rt; matches!(&act, SendAct::SendBlock(header) if header.length == 2));
    assert_eq!(rt; yard.place(BLOCK), Place::Held);
    let act = step(&rt, rt.alloc(), &mut yard, Lane(0), b'S')?;
    assert!(rt; matches!(act, SendAct::Stop));
    run(&rt, rt.alloc(), &mut yard, Lane(1), b"WWdW")?;
    assert!(rt; matches!(yard.answer(), EndAnswer::Done));
    assert_eq!(rt; yard.place(BLOCK), Place::Confirmed);
    Ok(())
}
