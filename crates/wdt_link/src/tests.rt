//! What no clause says: bytes that were worked out by hand, and that each call succeeds where there is
//! memory.
ghost use Rattle.std.specs.Prelude.{◌≡◌, IsSome};

use crate::{Accept, ByteLink, Dial, Link, LinkFail, MemAccept, MemDial, MemWire, RecvFail};
use std::alloc::Global;
use std::test::*;
use wdt_codec::Frame;
use wdt_units::Conn;

// A block of 5 bytes.
const BLOCK: &[u8] =
    b"D\x00\x01a\0\0\0\0\0\0\0\x05\0\0\0\0\0\0\0\x07\0\0\0\0\0\0\0\0\0\0\0\x05hello";

// What of it is written where the second piece is lost.
const WRITTEN: &[u8] =
    b"D\x00\x01a\0\0\0\0\0\0\0\x05\0\0\0\0\0\0\0\x07\0\0\0\0\0\0\0\0\0\0\0\x05he";

// A link over a wire in memory, of which one call fails.
fn link(alloc: Global, bytes: &[u8], fails: u32) -> Option<ByteLink<MemWire>> {
    let bytes = Vec::from_slice(alloc, bytes).ok()?;
    let fails = Vec::from_slice(alloc, &[fails]).ok()?;
    Some(ByteLink::over(alloc, MemWire::of(alloc, bytes, fails)))
}

// Passes a block on in pieces of 2 and 3 bytes, and answers the place of the second.
fn pass_on(from: &mut ByteLink<MemWire>, to: &mut ByteLink<MemWire>) -> Option<u64> {
    to.send(from.recv().ok()?).ok()?;
    to.send_piece(from.recv_piece(2).ok()?).ok()?;
    let second = from.recv_piece(3).ok()?;
    let (_, place) = second.place()?;
    let _lost = to.send_piece(second).is_err();
    Some(place)
}

#[test]
fn a_block_goes_from_wire_to_wire(rt: HostRuntime) -> Result<(), Fail> {
    let mut from = link(rt.alloc(), BLOCK, 1).ok_or("a link")?;
    let mut to = link(rt.alloc(), b"", 3).ok_or("a link")?;
    assert!(rt; from.recv().is_err(), "the first call fails");
    assert_eq!(rt; pass_on(&mut from, &mut to), Some(2));
    assert!(rt; from.recv().is_err(), "the end");
    assert_eq!(rt; (from.faults(), to.faults()), (2, 1));
    assert_eq!(rt; to.into_wire().written(), WRITTEN);
    Ok(())
}

#[test]
fn what_cant_come_is_a_slip(rt: HostRuntime) -> Result<(), Fail> {
    let mut link = link(rt.alloc(), BLOCK, 9).ok_or("a link")?;
    assert!(rt; link.recv().is_ok());
    assert!(rt; link.recv().is_err(), "a block is owed");
    assert!(rt; link.recv_piece(6).is_err(), "5 bytes are owed");
    assert!(rt; link.recv_piece(5).is_ok());
    assert_eq!(rt; (link.faults(), link.slips()), (2, 2));
    Ok(())
}

// The bad place, 90 for a frame, or 99 for another failure.
fn bad_at(link: &mut ByteLink<MemWire>) -> u32 {
    match link.recv() {
        Ok(_) => 90,
        Err(RecvFail::Bad { at }) => at,
        Err(_) => 99,
    }
}

#[test]
fn the_other_end_is_heard_to_fail(rt: HostRuntime) -> Result<(), Fail> {
    for (bytes, at) in [(b"A\x02".as_slice(), 90), (b"X", 0), (b"G\x00\x00\xFF", 3)] {
        let mut link = link(rt.alloc(), bytes, 9).ok_or("a link")?;
        assert_eq!(rt; (bad_at(&mut link), link.alarms()), (at, 1), "{bytes:?}");
    }
    Ok(())
}

// Reads a frame over the next connection, and hangs up. The talk goes on being told.
fn call(dialer: &mut MemDial) -> Result<Option<Frame>, LinkFail>
    requires { dialer.old.out ≡ 0 }
    ensures out { dialer.new.out ≡ 0 }
    ensures told { IsSome dialer.old.talk → IsSome dialer.new.talk }
{
    let mut link = dialer.dial(Conn(1))?;
    let heard = link.recv();
    dialer.hang_up(link);
    match heard {
        Ok(said) => Ok(said.into_frame()),
        Err(_) => Ok(None),
    }
}

#[test]
fn wires_are_called_one_after_the_other(rt: HostRuntime) -> Result<(), Fail> {
    let alloc = rt.alloc();
    let done = MemWire::of(alloc, Vec::from_slice(alloc, b"L")?, Vec::new(alloc));
    let wait = MemWire::of(alloc, Vec::from_slice(alloc, b"W")?, Vec::new(alloc));
    let mut dialer: MemDial = MemDial::of(alloc, Vec::from_array(alloc, [done, wait])?);
    assert!(rt; matches!(call(&mut dialer), Ok(Some(Frame::Done))));
    assert!(rt; matches!(call(&mut dialer), Ok(Some(Frame::Wait))));
    assert!(rt;
        matches!(call(&mut dialer), Err(LinkFail::Failed)),
        "no wire is left"
    );
    dialer.retire();
    Ok(())
}

#[test]
fn a_wire_is_accepted(rt: HostRuntime) -> Result<(), Fail> {
    let alloc = rt.alloc();
    let done = MemWire::of(alloc, Vec::from_slice(alloc, b"L")?, Vec::new(alloc));
    let mut acceptor: MemAccept = MemAccept::of(alloc, Vec::from_array(alloc, [done])?);
    let mut link = acceptor.accept()?;
    assert!(rt; link.recv().is_ok());
    acceptor.hang_up(link);
    acceptor.retire();
    Ok(())
}
