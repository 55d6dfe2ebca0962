//! Acceptors inside a process.
ghost use Rattle.std.specs.Prelude.{◌≡◌, ◌<◌, ◌+◌, None, IfOk, IfErr, IsErrOf, OnErr, OnOk, true};
ghost use Rattle.wdt_units.specs.Schedule.{is_due};
ghost use Rattle.wdt_link.specs.Calls.{HasFault};
ghost use Rattle.wdt_pipes.specs.Ends.{called, new_end, retiring, taking_back};
ghost use Rattle.wdt_pipes.specs.Pipes.{unused};

use crate::end::End;
use crate::fresh::Fresh;
use crate::pipe::PipeLink;
use crossbeam_channel::Receiver;
use std::marker::Model;
use std::sync::Wait;
use wdt_link::{Accept, LinkFail};
use wdt_tree::Run;

/// Takes a lane's connections. A call fails where its number, from 1, is one of those that it was made
/// with, where the lane has retired, and where no connection waits and the lane's dialer has retired.
#[derive(Drop)]
pub struct PipeAccept<R: Wait + Clone + Drop, N: Run> {
    rt: R,
    end: End<Receiver<Fresh<R, N>>>,
}

impl<R: Wait + Clone + Drop, N: Run> Model for PipeAccept<R, N> {
    ghost use Rattle.wdt_pipes.specs.Ends.{EndView};

    ghost Value = { EndView };

    ghost view = { λ s. s.end };
}

impl<R: Wait + Clone + Drop, N: Run> PipeAccept<R, N> {
    /// An acceptor of which no call was made.
    pub(crate) fn of(rt: R, door: Receiver<Fresh<R, N>>, fails: Vec<u32>) -> PipeAccept<R, N>
        ensures { result ≡ new_end fails.items }
    {
        PipeAccept {
            rt,
            end: End::of(door, fails),
        }
    }

    // The connection that waits, once there is one.
    fn next(&self) -> Option<Fresh<R, N>>
        ensures { self.now.retired ≡ true → result ≡ None }
    {
        match self.end.door() {
            Some(door) => door.recv(&self.rt).ok(),
            None => None,
        }
    }
}

impl<R: Wait + Clone + Drop, N: Run> Accept<N> for PipeAccept<R, N> {
    ghost use Rattle.std.specs.Prelude.{None};

    type L = PipeLink<R, N>;

    ghost faults = { λ s. s.faults };

    ghost alarms = { λ s. s.alarms };

    ghost slips = { λ s. s.slips };

    ghost mark = { λ s. 0 };

    ghost out = { λ s. s.out };

    ghost talk = { λ s. None };

    fn accept(&mut self) -> Result<PipeLink<R, N>, LinkFail>
        requires { self.old.out ≡ 0 }
        ensures fresh { IfOk result (λ link. link ≡ unused) }
        ensures called { self.new ≡ called result self.old }
        ensures fail { IfErr result (λ e. e ≡ LinkFail.Failed) }
        ensures due { is_due self.old.schedule ≡ true → IsErrOf result LinkFail.Failed }
        ensures retired { self.old.retired ≡ true → IsErrOf result LinkFail.Failed }
        ensures cause { HasFault LinkFail.Failed result self.old.faults self.new.faults }
    {
        if self.end.is_due() {
            return Err(self.end.fail());
        }
        match self.next() {
            Some(Fresh { link }) => {
                self.end.give();
                Ok(link)
            }
            None => Err(self.end.fail()),
        }
    }

    fn hang_up(&mut self, link: PipeLink<R, N>)
        requires { 0 < self.old.out }
        ensures { self.new ≡ taking_back link self.old }
    {
        self.end.take_back(link);
    }

    fn retire(&mut self)
        ensures { self.new ≡ retiring self.old }
    {
        self.end.retire();
    }
}
