//! Acceptors of which one is held until another lane has carried something.
ghost use Rattle.std.specs.Prelude.{◌≡◌, None, IfOk};

use std::alloc::{AllocError, Global};
use std::marker::Model;
use std::sync::Wait;
use std::sync::atomic::{AtomicBool, Ordering};
use std::thread;
use wdt_link::{Accept, Link, LinkFail, RecvFail, Said};
use wdt_pipes::{PipeAccept, PipeLink};
use wdt_tree::Untold;
use wdt_units::Lane;

// How often a held acceptor looks whether the gate is open.
const TURNS: u32 = 10_000_000;

/// An acceptor over pipes whose links open a gate as they give a piece. Where it is held, it lets nobody
/// in before the gate is open; once it has looked too often, it fails for good.
#[derive(Drop)]
pub struct GatedAccept<'a, R: Wait + Clone + Drop> {
    acceptor: PipeAccept<R, Untold>,
    is_held: bool,
    gate: &'a AtomicBool,
}

/// A link that opens a gate as it gives a piece.
#[derive(Drop)]
pub struct GatedLink<'a, R: Wait + Drop> {
    link: PipeLink<R, Untold>,
    gate: &'a AtomicBool,
}

/// The acceptors of all lanes, of which one may be held.
pub fn gated<'a, R: Wait + Clone + Drop>(
    alloc: Global,
    acceptors: Vec<PipeAccept<R, Untold>>,
    held: Option<Lane>,
    gate: &'a AtomicBool,
) -> Result<Vec<GatedAccept<'a, R>>, AllocError>
    ensures { IfOk result (λ gated. gated.items ≡ acceptors.items) }
{
    let held = held.map(|lane| usize::from(lane.0));
    let mut gated = Vec::new(alloc);
    for acceptor in acceptors {
        let is_held = held == Some(gated.len());
        gated.push(GatedAccept::of(acceptor, is_held, gate))?;
    }
    Ok(gated)
}

impl<'a, R: Wait + Clone + Drop> Model for GatedAccept<'a, R> {
    ghost use Rattle.wdt_pipes.specs.Ends.{EndView};

    ghost Value = { EndView };

    ghost view = { λ s. s.acceptor };
}

impl<'a, R: Wait + Clone + Drop> GatedAccept<'a, R> {
    // An acceptor of a lane.
    fn of(
        acceptor: PipeAccept<R, Untold>,
        is_held: bool,
        gate: &'a AtomicBool,
    ) -> GatedAccept<'a, R>
        ensures { result ≡ acceptor }
    {
        GatedAccept {
            acceptor,
            is_held,
            gate,
        }
    }
}

// Waits until the gate is open. Whether it is; or false where that takes too long.
fn opens(gate: &AtomicBool) -> bool {
    for _ in 0..TURNS {
        if gate.load(Ordering::SeqCst) {
            return true;
        }
        thread::yield_now();
    }
    false
}

impl<'a, R: Wait + Clone + Drop> Accept<Untold> for GatedAccept<'a, R> {
    ghost use Rattle.std.specs.Prelude.{None};

    type L = GatedLink<'a, R>;

    ghost faults = { λ s. s.faults };

    ghost alarms = { λ s. s.alarms };

    ghost slips = { λ s. s.slips };

    ghost mark = { λ s. 0 };

    ghost out = { λ s. s.out };

    ghost talk = { λ s. None };

    fn accept(&mut self) -> Result<GatedLink<'a, R>, LinkFail> {
        let is_barred = self.is_held && !opens(self.gate);
        self.is_held = false;
        if is_barred {
            self.acceptor.retire();
        }
        match self.acceptor.accept() {
            Ok(link) => Ok(GatedLink {
                link,
                gate: self.gate,
            }),
            Err(fail) => Err(fail),
        }
    }

    fn hang_up(&mut self, link: GatedLink<'a, R>) {
        let GatedLink { link, gate: _ } = link;
        self.acceptor.hang_up(link);
    }

    fn retire(&mut self) {
        self.acceptor.retire();
    }
}

impl<R: Wait + Drop> Link<Said<Untold>> for GatedLink<'_, R> {
    ghost use Rattle.std.specs.Prelude.{None};

    ghost told = { λ s. None };

    ghost faults = { λ s. s.link.faults };

    ghost alarms = { λ s. s.link.alarms };

    ghost slips = { λ s. s.link.slips };

    ghost owing = { λ s. s.link.owing };

    ghost mark = { λ s. 0 };

    fn send(&mut self, frame: Said<Untold>) -> Result<(), LinkFail> {
        self.link.send(frame)
    }

    fn send_piece(&mut self, piece: Said<Untold>) -> Result<(), LinkFail> {
        self.link.send_piece(piece)
    }

    fn recv(&mut self) -> Result<Said<Untold>, RecvFail> {
        self.link.recv()
    }

    fn recv_piece(&mut self, count: u32) -> Result<Said<Untold>, RecvFail> {
        let given = self.link.recv_piece(count);
        if given.is_ok() {
            self.gate.store(true, Ordering::SeqCst);
        }
        given
    }
}
