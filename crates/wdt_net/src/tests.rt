//! What no clause says: that what one end says the other hears, and what is told where a call fails. All
//! of it goes over a loopback address of the test's own process, so that two runs at a time don't meet.
ghost use Rattle.std.specs.Prelude.{◌≡◌, ◌≤◌, length, IfSome, false, true};
ghost use Rattle.wdt_link.specs.Saying.{is_whole};

use crate::{Met, TcpAccept, TcpDial, TcpLink, tcp_accepts, tcp_dials};
use std::alloc::{AllocError, Global};
use std::io::Write;
use std::net::{Net, TcpListener, TcpStream};
use std::sync::Wait;
use std::test::*;
use std::time::{Clock, Duration, Instant};
use std::{process, thread};
use wdt_codec::Frame;
use wdt_link::{Accept, Dial, Link, RecvFail, Said};
use wdt_tree::Untold;
use wdt_units::{Conn, Header, Name};

const PORT: u16 = 7_000;

// An address of this machine that other processes don't take.
fn own_host(rt: &HostRuntime) -> Result<String, AllocError> {
    let [_, high, middle, low] = process::id(rt.process()).to_be_bytes();
    format!(in rt.alloc(); "127.{}.{middle}.{low}", high / 4 + 64)
}

fn block(alloc: Global) -> Option<Said<Untold>>
    ensures { IfSome result (λ said. is_whole said ≡ true) }
{
    let header = Header {
        path: Name::read(alloc, b"a").ok()?,
        size: 5,
        stamp: 7,
        offset: 0,
        length: 5,
    };
    Some(Said::frame(Frame::Block(header)))
}

fn piece(alloc: Global, offset: u64, bytes: &[u8]) -> Option<Said<Untold>>
    requires some { 1 ≤ length bytes.now }
    requires most { length bytes.now ≤ 5 }
    ensures { IfSome result (λ said. is_whole said ≡ false) }
{
    let path = Name::read(alloc, b"a").ok()?;
    let bytes = Vec::from_slice(alloc, bytes).ok()?;
    Some(Said::piece(path, offset, bytes))
}

// Says a block in two pieces, and hears the answer.
fn say_block(alloc: Global, link: &mut TcpLink) -> Option<Frame> {
    link.send(block(alloc)?).ok()?;
    link.send_piece(piece(alloc, 0, b"he")?).ok()?;
    link.send_piece(piece(alloc, 2, b"llo")?).ok()?;
    link.recv().ok()?.into_frame()
}

// Hears a block in pieces that were cut elsewhere, and says that there is no more.
fn hear_block(link: &mut TcpLink) -> Option<(Vec<u8>, Vec<u8>)> {
    let _block = link.recv().ok()?;
    let first = link.recv_piece(4).ok()?.into_piece()?;
    let second = link.recv_piece(1).ok()?.into_piece()?;
    link.send(Said::frame(Frame::Done)).ok()?;
    Some((first, second))
}

// Sends a block, and answers what was heard.
fn send_block<R: Net<Listener = TcpListener, Stream = TcpStream> + Clock + Drop>(
    alloc: Global,
    dialer: &mut TcpDial<R, Untold>,
) -> Option<Frame>
    requires { dialer.old.out ≡ 0 }
{
    let mut link = dialer.dial(Conn(1)).ok()?;
    let heard = say_block(alloc, &mut link);
    dialer.hang_up(link);
    heard
}

// Takes a block, some time after the dialer was there and found nobody.
fn take_block<R: Net<Listener = TcpListener, Stream = TcpStream> + Clock + Wait + Drop>(
    rt: &R,
    acceptor: &mut TcpAccept<R, Untold>,
) -> Option<(Vec<u8>, Vec<u8>)>
    requires { acceptor.old.out ≡ 0 }
{
    thread::sleep(rt, Duration::from_millis(250));
    let mut link = acceptor.accept().ok()?;
    let taken = hear_block(&mut link);
    acceptor.hang_up(link);
    acceptor.retire();
    taken
}

#[test]
fn a_block_goes_over_a_lane_of_its_own(rt: HostRuntime) -> Result<(), Fail> {
    let (alloc, host) = (rt.alloc(), own_host(&rt)?);
    let mut dialers = tcp_dials::<HostRuntime, Untold>(&rt, alloc, host.as_str(), PORT, 3)?;
    let mut acceptor = TcpAccept::at(rt.clone()?, alloc, host, PORT + 2, Met::new(alloc)?);
    let mut dialer = dialers.pop().ok_or("a dialer for each lane")?;
    let (heard, taken) = thread::join(
        &rt,
        || send_block(alloc, &mut dialer),
        || take_block(&rt, &mut acceptor),
    );
    assert!(rt; matches!(heard, Some(Frame::Done)));
    let (first, second) = taken.ok_or("the block")?;
    assert_eq!(rt;
        (first.as_slice(), second.as_slice()),
        (b"hell".as_slice(), b"o".as_slice())
    );
    Ok(())
}

// What is told of a dialer's last failure.
fn dial_fault<R: Net<Listener = TcpListener, Stream = TcpStream> + Clock + Drop>(
    alloc: Global,
    dialer: &TcpDial<R, Untold>,
) -> Option<String> {
    let fault = dialer.fault()?;
    format!(in alloc; "{fault}").ok()
}

// What is told of an acceptor's last failure.
fn accept_fault<R: Net<Listener = TcpListener, Stream = TcpStream> + Clock + Wait + Drop>(
    alloc: Global,
    acceptor: &TcpAccept<R, Untold>,
) -> Option<String> {
    let fault = acceptor.fault()?;
    format!(in alloc; "{fault}").ok()
}

// How another program answers a connection.
#[derive(Clone, Copy, Debug)]
enum Answer {
    // It says this and hangs up.
    Says(&'static [u8]),
    // It hangs up on what it was told.
    Resets,
}

fn respond(stream: TcpStream, answer: Answer) -> Result<(), Fail> {
    let mut stream = stream;
    match answer {
        Answer::Says(bytes) => stream.write_all(bytes)?,
        Answer::Resets => {
            let mut byte = [0];
            let _told = stream.peek(&mut byte)?;
        }
    }
    Ok(())
}

// A link's first call that fails, where the other end answers so.
fn heard_of(link: &mut TcpLink, listener: &TcpListener, how: Answer) -> Result<RecvFail, Fail> {
    if let Answer::Resets = how {
        link.send(Said::frame(Frame::Done))
            .map_err(|_| "nothing could be said")?;
    }
    let (stream, _) = listener.accept()?;
    respond(stream, how)?;
    match link.recv() {
        Ok(_) => Err(Fail::new("a frame was heard")),
        Err(fail) => Ok(fail),
    }
}

const ANSWERS: &[(Answer, RecvFail, &str)] = &[
    (
        Answer::Says(b"G\0"),
        RecvFail::Failed,
        ": the other end hung up",
    ),
    (
        Answer::Says(b""),
        RecvFail::Failed,
        ": the other end hung up",
    ),
    (
        Answer::Resets,
        RecvFail::Failed,
        ": Connection reset by peer (os error 104)",
    ),
    // A frame that can't be ends no connection, so the last failure is still the one before.
    (
        Answer::Says(b"HTTP/1.1 400 Bad Request"),
        RecvFail::Bad { at: 0 },
        ": Connection reset by peer (os error 104)",
    ),
];

#[test]
fn an_end_that_fails_is_told(rt: HostRuntime) -> Result<(), Fail> {
    let alloc = rt.alloc();
    let listener = TcpListener::bind(&rt, "127.0.0.1:0")?;
    let port = listener.local_addr()?.port();
    let host = String::from_str(alloc, "127.0.0.1")?;
    let mut dialer: TcpDial<HostRuntime> = TcpDial::to(rt.clone()?, alloc, host, port);
    for (how, heard, told) in ANSWERS {
        let mut link = dialer.dial(Conn(1)).map_err(|_| "no connection")?;
        assert_eq!(rt; heard_of(&mut link, &listener, *how)?, *heard, "{how:?}");
        dialer.hang_up(link);
        let fault = dial_fault(alloc, &dialer).ok_or("a fault")?;
        let is_told = fault.starts_with("receiving from 127.0.0.1:") && fault.ends_with(*told);
        assert!(rt; is_told, "{fault}");
    }
    Ok(())
}

#[test]
fn a_port_that_is_taken_is_told(rt: HostRuntime) -> Result<(), Fail> {
    let alloc = rt.alloc();
    let listener = TcpListener::bind(&rt, "127.0.0.1:0")?;
    let port = listener.local_addr()?.port();
    let host = String::from_str(alloc, "127.0.0.1")?;
    let mut acceptor: TcpAccept<HostRuntime> = TcpAccept::at(
        rt.clone()?,
        alloc,
        host,
        port,
        Met::new(alloc)?,
    );
    assert!(rt; acceptor.accept().is_err());
    let told = format!(in alloc;
        "listening on 127.0.0.1 port {port}: Address already in use (os error 98)"
    )?;
    assert_eq!(rt; accept_fault(alloc, &acceptor), Some(told));
    Ok(())
}

// Dials where nobody listens, and answers what is told of it and how many seconds it took.
fn dial_nobody<R: Net<Listener = TcpListener, Stream = TcpStream> + Clock + Clone + Drop>(
    rt: &R,
    alloc: Global,
    host: String,
) -> Option<(String, u64)> {
    let mut dialer: TcpDial<R> = TcpDial::to(rt.clone().ok()?, alloc, host, PORT);
    let start = Instant::now(rt).ok()?;
    let _fail = dialer.dial(Conn(1)).err()?;
    Some((
        dial_fault(alloc, &dialer)?,
        start.elapsed(rt).ok()?.as_secs(),
    ))
}

// Accepts where nobody comes, as a lane whose port is barred while another lane is joined.
fn accept_nobody<R: Net<Listener = TcpListener, Stream = TcpStream> + Clock + Wait + Clone + Drop>(
    rt: &R,
    alloc: Global,
    host: String,
) -> Option<(String, u64)> {
    let met = Met::new(alloc).ok()?;
    met.note();
    let mut acceptor: TcpAccept<R> = TcpAccept::at(rt.clone().ok()?, alloc, host, PORT + 1, met);
    let start = Instant::now(rt).ok()?;
    let _fail = acceptor.accept().err()?;
    Some((
        accept_fault(alloc, &acceptor)?,
        start.elapsed(rt).ok()?.as_secs(),
    ))
}

#[test]
fn nobody_is_waited_for_without_end(rt: HostRuntime) -> Result<(), Fail> {
    let alloc = rt.alloc();
    let host = own_host(&rt)?;
    let (to, at) = (host.clone()?, host.clone()?);
    let (dialed, accepted) = thread::join(
        &rt,
        || dial_nobody(&rt, alloc, to),
        || accept_nobody(&rt, alloc, at),
    );
    let (told, seconds) = dialed.ok_or("somebody listens")?;
    let refused = format!(in alloc;
        "connecting to {host} port 7000: Connection refused (os error 111)"
    )?;
    assert_eq!(rt; told, refused);
    assert!(rt; seconds >= 10, "{seconds}");
    let (told, seconds) = accepted.ok_or("somebody came")?;
    let alone = format!(in alloc; "accepting on {host} port 7001: nobody connected in time")?;
    assert_eq!(rt; told, alone);
    assert!(rt; seconds >= 15, "{seconds}");
    Ok(())
}
