//! The lines, by histories whose counts are counted by hand.
use crate::{copy_lines, recv_lines, send_lines};
use std::test::Fail;
use wdt_receiver_fsm::RecvEvent;
use wdt_sender_fsm::SendEvent;
use wdt_units::{Block, Conn, Lane};

const fn block(offset: u64, length: u32) -> Block {
    Block {
        file: 0,
        offset,
        length,
    }
}

#[test]
fn what_happened_is_counted(rt: HostRuntime) -> Result<(), Fail> {
    let alloc = rt.alloc();
    let (a, b, c) = (block(0, 4), block(4, 3), block(7, 2));
    // A checkpoint takes one block off, and the lane's closing two, which is told twice.
    let first = vec![in alloc;
        SendEvent::Linked(Lane(0), Conn(1)),
        SendEvent::Claim(Lane(0), a),
        SendEvent::Claim(Lane(0), b),
        SendEvent::Linked(Lane(0), Conn(2)),
        SendEvent::Greet(Lane(0), 1),
        SendEvent::Claim(Lane(0), b),
        SendEvent::Claim(Lane(0), c),
        SendEvent::Linked(Lane(1), Conn(1)),
        SendEvent::Global(Lane(1), Lane(0), 1),
        SendEvent::Global(Lane(2), Lane(0), 1),
    ]?;
    let second = vec![in alloc;
        SendEvent::Linked(Lane(0), Conn(1)),
        SendEvent::Greet(Lane(0), 5),
    ]?;
    // A block is lost, and two land in the other order. A landing without a block has no bytes.
    let landed = vec![in alloc;
        RecvEvent::Begin(Lane(0), a),
        RecvEvent::Land(Lane(0)),
        RecvEvent::Begin(Lane(0), b),
        RecvEvent::Dropped(Lane(0)),
        RecvEvent::Land(Lane(0)),
        RecvEvent::Close(Lane(0)),
        RecvEvent::Begin(Lane(1), b),
        RecvEvent::Begin(Lane(2), c),
        RecvEvent::Land(Lane(2)),
        RecvEvent::Land(Lane(1)),
    ]?;
    let sent = [first, second];
    let received = [landed, Vec::new(alloc)];
    let lines = copy_lines(alloc, 5, &sent, &received)?.into_bytes();
    let told = b"files 5\nblocks 4\nbytes 9\nconnections 4\nrequeued 3\nclosed 1\nsessions 2\n";
    assert_eq!(rt; lines.as_slice(), told.as_slice());
    Ok(())
}

#[test]
fn what_has_surely_landed_is_counted(rt: HostRuntime) -> Result<(), Fail> {
    let alloc = rt.alloc();
    let (a, b, c) = (block(0, 4), block(4, 3), block(7, 2));
    // A checkpoint keeps the first block. The lane's closing keeps two, and is told twice.
    let mut sent = vec![in alloc;
        SendEvent::Linked(Lane(0), Conn(1)),
        SendEvent::Claim(Lane(0), a),
        SendEvent::Claim(Lane(0), b),
        SendEvent::Linked(Lane(0), Conn(2)),
        SendEvent::Greet(Lane(0), 1),
        SendEvent::Claim(Lane(0), b),
        SendEvent::Claim(Lane(0), c),
        SendEvent::Linked(Lane(15), Conn(1)),
        SendEvent::Global(Lane(15), Lane(0), 2),
        SendEvent::Claim(Lane(15), c),
        SendEvent::Global(Lane(15), Lane(0), 1),
    ]?;
    let lines = send_lines(alloc, 1, &sent)?.into_bytes();
    let told = b"files 1\nblocks 2\nbytes 7\nconnections 3\nrequeued 2\n";
    assert_eq!(rt; lines.as_slice(), told.as_slice());
    // Behind the finish all that is on a list has landed.
    sent.push(SendEvent::Finish(Lane(15)))?;
    let lines = send_lines(alloc, 1, &sent)?.into_bytes();
    let told = b"files 1\nblocks 3\nbytes 9\nconnections 3\nrequeued 2\n";
    assert_eq!(rt; lines.as_slice(), told.as_slice());
    Ok(())
}

#[test]
fn what_a_receiver_took_is_counted(rt: HostRuntime) -> Result<(), Fail> {
    let alloc = rt.alloc();
    let received = [
        RecvEvent::Take(Lane(0), Conn(1)),
        RecvEvent::Begin(Lane(0), block(0, 4)),
        RecvEvent::Land(Lane(0)),
        RecvEvent::Begin(Lane(0), block(4, 3)),
        RecvEvent::Dropped(Lane(0)),
        RecvEvent::Take(Lane(0), Conn(2)),
        RecvEvent::Close(Lane(0)),
    ];
    let lines = recv_lines(alloc, &received)?.into_bytes();
    let told = b"blocks 1\nbytes 4\nconnections 2\nclosed 1\n";
    assert_eq!(rt; lines.as_slice(), told.as_slice());
    Ok(())
}
