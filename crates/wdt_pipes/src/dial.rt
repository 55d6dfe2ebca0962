//! Dialers inside a process.
ghost use Rattle.std.specs.Prelude.{◌≡◌, ◌<◌, ◌+◌, None, IfOk, IsErrOf, OnErr, OnOk, true};
ghost use Rattle.wdt_units.specs.Counts.{added};
ghost use Rattle.wdt_units.specs.Schedule.{is_due};
ghost use Rattle.wdt_link.specs.Calls.{HasFault};
ghost use Rattle.wdt_pipes.specs.Ends.{called, new_end, retiring, taking_back};
ghost use Rattle.wdt_pipes.specs.Pipes.{unused};

use crate::end::End;
use crate::fresh::Fresh;
use crate::pipe::{PipeLink, pair};
use crossbeam_channel::{SendError, Sender};
use std::alloc::{AllocError, Global};
use std::marker::Model;
use std::sync::Wait;
use wdt_link::{Dial, LinkFail};
use wdt_tree::Run;
use wdt_units::Conn;

/// Makes a lane's connections. A call fails where its number, from 1, is one of those that it was made
/// with, where the lane has retired, and where the lane's acceptor has.
#[derive(Drop)]
pub struct PipeDial<R: Wait + Clone + Drop, N: Run> {
    rt: R,
    alloc: Global,
    end: End<Sender<Fresh<R, N>>>,
}

impl<R: Wait + Clone + Drop, N: Run> Model for PipeDial<R, N> {
    ghost use Rattle.wdt_pipes.specs.Ends.{EndView};

    ghost Value = { EndView };

    ghost view = { λ s. s.end };
}

fn two_of<R: Clone + Drop>(rt: &R) -> Result<(R, R), AllocError> {
    let near = rt.clone()?;
    let far = rt.clone()?;
    Ok((near, far))
}

impl<R: Wait + Clone + Drop, N: Run> PipeDial<R, N> {
    /// A dialer of which no call was made.
    pub(crate) fn of(
        rt: R,
        alloc: Global,
        door: Sender<Fresh<R, N>>,
        fails: Vec<u32>,
    ) -> PipeDial<R, N>
        ensures { result ≡ new_end fails.items }
    {
        PipeDial {
            rt,
            alloc,
            end: End::of(door, fails),
        }
    }

    // The two ends of a new connection.
    fn ends(&self) -> Result<(PipeLink<R, N>, PipeLink<R, N>), LinkFail>
        ensures near { IfOk result (λ ends. ends.0 ≡ unused) }
        ensures far { IfOk result (λ ends. ends.1 ≡ unused) }
        ensures fail { OnErr result (IsErrOf result LinkFail.NoMemory) }
    {
        let Ok((near, far)) = two_of(&self.rt) else {
            return Err(LinkFail::NoMemory);
        };
        match pair(self.alloc, near, far) {
            Ok(ends) => Ok(ends),
            Err(_) => Err(LinkFail::NoMemory),
        }
    }

    // Hands the far end of a connection to the acceptor.
    fn hand_over(&self, far: Fresh<R, N>) -> Result<(), LinkFail> {
        match self.end.door() {
            Some(door) => match door.send(&self.rt, far) {
                Ok(()) => Ok(()),
                Err(SendError::Disconnected(_)) => Err(LinkFail::Failed),
                Err(SendError::OutOfMemory(_)) => Err(LinkFail::NoMemory),
            },
            None => Err(LinkFail::Failed),
        }
    }
}

impl<R: Wait + Clone + Drop, N: Run> Dial<N> for PipeDial<R, N> {
    ghost use Rattle.std.specs.Prelude.{None};

    type L = PipeLink<R, N>;

    ghost faults = { λ s. s.faults };

    ghost alarms = { λ s. s.alarms };

    ghost slips = { λ s. s.slips };

    ghost mark = { λ s. 0 };

    ghost out = { λ s. s.out };

    ghost talk = { λ s. None };

    fn dial(&mut self, _conn: Conn) -> Result<PipeLink<R, N>, LinkFail>
        requires { self.old.out ≡ 0 }
        ensures fresh { IfOk result (λ link. link ≡ unused) }
        ensures called { self.new ≡ called result self.old }
        ensures due { is_due self.old.schedule ≡ true → IsErrOf result LinkFail.Failed }
        ensures retired { self.old.retired ≡ true → IsErrOf result LinkFail.Failed }
        ensures cause { HasFault LinkFail.Failed result self.old.faults self.new.faults }
    {
        if self.end.is_due() || self.end.door().is_none() {
            return Err(self.end.fail());
        }
        let (near, far) = match self.ends() {
            Ok(ends) => ends,
            Err(fail) => return Err(fail),
        };
        match self.hand_over(Fresh::of(far)) {
            Ok(()) => {
                self.end.give();
                Ok(near)
            }
            Err(LinkFail::Failed) => Err(self.end.fail()),
            Err(LinkFail::NoMemory) => Err(LinkFail::NoMemory),
        }
    }

    fn hang_up(&mut self, link: PipeLink<R, N>)
        requires { 0 < self.old.out }
        ensures { self.new ≡ taking_back link self.old }
    {
        self.end.take_back(link);
    }

    fn retire(&mut self)
        ensures { self.new ≡ retiring self.old }
    {
        self.end.retire();
    }
}
