//! What no clause says: that what one thread says another hears, and that a hang-up is heard, too.
ghost use Rattle.std.specs.Prelude.{◌≡◌, ◌≤◌, length, IfOk, IfSome, false, true};
ghost use Rattle.wdt_link.specs.Saying.{is_whole};

use crate::{PipeAccept, PipeDial, PipeLink, pipe_ends};
use std::alloc::{AllocError, Global};
use std::sync::Wait;
use std::test::*;
use std::thread;
use wdt_codec::Frame;
use wdt_link::{Accept, Dial, Link, Said};
use wdt_tree::Untold;
use wdt_units::{Conn, Header, Lane, Name};

// What is said on one side, or asked for on the other.
#[derive(Clone, Copy, Debug)]
enum Item {
    Done,
    // A block of 5 bytes.
    Block,
    // 2 bytes of it, from a place on.
    Two(u64),
    // 3 bytes of it, from a place on.
    Three(u64),
}

fn block(alloc: Global) -> Option<Said<Untold>>
    ensures { IfSome result (λ said. is_whole said ≡ true) }
{
    let header = Header {
        path: Name::read(alloc, b"a").ok()?,
        size: 5,
        stamp: 7,
        offset: 0,
        length: 5,
    };
    Some(Said::frame(Frame::Block(header)))
}

fn piece(alloc: Global, offset: u64, bytes: &[u8]) -> Option<Said<Untold>>
    requires some { 1 ≤ length bytes.now }
    requires most { length bytes.now ≤ 5 }
    ensures { IfSome result (λ said. is_whole said ≡ false) }
{
    let path = Name::read(alloc, b"a").ok()?;
    let bytes = Vec::from_slice(alloc, bytes).ok()?;
    Some(Said::piece(path, offset, bytes))
}

// Whether it could be said.
fn say<R: Wait + Drop>(alloc: Global, link: &mut PipeLink<R, Untold>, item: &Item) -> Option<()> {
    match item {
        Item::Done => link.send(Said::frame(Frame::Done)).ok(),
        Item::Block => link.send(block(alloc)?).ok(),
        Item::Two(offset) => link.send_piece(piece(alloc, *offset, b"he")?).ok(),
        Item::Three(offset) => link.send_piece(piece(alloc, *offset, b"llo")?).ok(),
    }
}

// Whether it came.
fn hear<R: Wait + Drop>(link: &mut PipeLink<R, Untold>, item: &Item) -> bool {
    match item {
        Item::Done | Item::Block => link.recv().is_ok(),
        Item::Two(_) => link.recv_piece(2).is_ok(),
        Item::Three(_) => link.recv_piece(3).is_ok(),
    }
}

// Says all of it on one connection, hangs up and retires.
fn say_all<R: Wait + Clone + Drop>(
    alloc: Global,
    dialer: &mut PipeDial<R, Untold>,
    items: &[Item],
) -> bool
    requires { dialer.old.out ≡ 0 }
{
    let mut said = false;
    if let Ok(mut link) = dialer.dial(Conn(1)) {
        said = items
            .iter()
            .all(|item| say(alloc, &mut link, item).is_some());
        dialer.hang_up(link);
    }
    dialer.retire();
    said
}

// What came of all that was asked for: nothing where there is no connection.
fn hear_all<R: Wait + Clone + Drop>(
    alloc: Global,
    acceptor: &mut PipeAccept<R, Untold>,
    items: &[Item],
) -> Result<Vec<bool>, AllocError>
    requires { acceptor.old.out ≡ 0 }
{
    let mut heard = Vec::new(alloc);
    if let Ok(mut link) = acceptor.accept() {
        for item in items {
            heard.push(hear(&mut link, item))?;
        }
        acceptor.hang_up(link);
    }
    acceptor.retire();
    Ok(heard)
}

// The ends of the only lane, where a call of the dialer fails.
fn ends_of<R: Wait + Clone + Drop>(
    rt: R,
    alloc: Global,
    number: u32,
) -> Option<(PipeDial<R, Untold>, PipeAccept<R, Untold>)>
    ensures dialer { IfSome result (λ ends. ends.0.out ≡ 0) }
    ensures acceptor { IfSome result (λ ends. ends.1.out ≡ 0) }
{
    let fails = Vec::from_array(alloc, [(Lane(0), number)]).ok()?;
    let (mut dialers, mut acceptors) = pipe_ends(rt, alloc, 1, fails, Vec::new(alloc)).ok()?;
    Some((dialers.pop()?, acceptors.pop()?))
}

// A first call that fails, what is said, what is asked for, and what of that comes.
const ROWS: &[(u32, &[Item], &[Item], &[bool])] = &[
    (9, &[Item::Done], &[Item::Done, Item::Done], &[true, false]),
    (
        9,
        &[Item::Block, Item::Two(0), Item::Three(2)],
        &[Item::Block, Item::Two(0), Item::Three(2), Item::Done],
        &[true, true, true, false],
    ),
    // A frame while bytes are owed, and more bytes than are owed.
    (
        9,
        &[Item::Block, Item::Two(0)],
        &[Item::Block, Item::Done, Item::Two(0)],
        &[true, false, true],
    ),
    (
        9,
        &[Item::Block, Item::Three(0)],
        &[Item::Block, Item::Three(0), Item::Three(0)],
        &[true, true, false],
    ),
    // A piece of another length, of another place, where a frame is asked for, and the other way round.
    (
        9,
        &[Item::Block, Item::Three(0)],
        &[Item::Block, Item::Two(0)],
        &[true, false],
    ),
    (
        9,
        &[Item::Block, Item::Two(1)],
        &[Item::Block, Item::Two(0)],
        &[true, false],
    ),
    (9, &[Item::Two(0)], &[Item::Done], &[false]),
    (
        9,
        &[Item::Block, Item::Done],
        &[Item::Block, Item::Two(0)],
        &[true, false],
    ),
    // No connection comes, since the dialer retires behind its failure.
    (1, &[Item::Done], &[Item::Done], &[]),
];

#[test]
fn what_is_said_is_heard(rt: HostRuntime) -> Result<(), Fail> {
    let alloc = rt.alloc();
    for (number, said, asked, came) in ROWS {
        let (mut dialer, mut acceptor) = ends_of(rt.clone()?, alloc, *number).ok_or("the ends")?;
        let (_, heard) = thread::join(
            &rt,
            || say_all(alloc, &mut dialer, said),
            || hear_all(alloc, &mut acceptor, asked),
        );
        assert_eq!(rt; heard?.as_slice(), *came, "{said:?} {asked:?}");
    }
    Ok(())
}
