//! The funnel.
ghost use Rattle.std.specs.Prelude.{◌≡◌, ◌<◌, ◌≤◌, ◌||◌, not};
ghost use Rattle.wdt_units.specs.LaneSets.{has_lane};
ghost use Rattle.wdt_funnel.specs.Barrier.{after, is_open, no_barrier, untold};
ghost use Rattle.wdt_funnel.specs.Happenings.{Took, Dropped, Idled, Told, Closed, every, some};

use std::marker::Model;
use wdt_units::{Lane, LaneSet};

/// What stands between a receiver and its finish. It can be copied, so that a caller may ask what would
/// be if one thing more had happened.
#[derive(Clone, Copy, Debug)]
pub struct Funnel {
    lanes: u8,
    closed: LaneSet,
    idle: LaneSet,
    // The lanes of which the sender knows that they are closed.
    heard: LaneSet,
    // For each lane, those of which it told on its last connection.
    named: [LaneSet; 16],
    // For each lane, those of which it told and wasn't idle since.
    telling: [LaneSet; 16],
}

impl Model for Funnel {
    ghost use Rattle.wdt_funnel.specs.Barrier.{Barrier};

    ghost Value = { Barrier };

    ghost use Rattle.wdt_funnel.specs.Inside.{kept_of, seen, IsFunnel};

    ghost view = { seen };

    ghost inverse = { kept_of };

    ghost invariant = { IsFunnel };
}

impl Funnel {
    /// A receiver of so many lanes, 1 to 16, on which nothing has happened.
    pub fn of(lanes: u8) -> Funnel
        requires { lanes ≤ 16 }
        ensures { result ≡ no_barrier lanes }
    {
        let none = LaneSet::empty();
        Funnel {
            lanes,
            closed: none,
            idle: none,
            heard: none,
            named: [none; 16],
            telling: [none; 16],
        }
    }

    /// A lane took a connection, on which it has told of no closed lane.
    pub fn took(&mut self, lane: Lane)
        requires { lane.0 < self.old.lanes }
        ensures { self.new ≡ after self.old (Took lane.0) }
    {
        self.named[lane.0 as usize] = LaneSet::empty();
    }

    /// A lane's connection is lost. It isn't idle, and what it told and the sender hasn't answered
    /// counts for nothing.
    pub fn dropped(&mut self, lane: Lane)
        requires { lane.0 < self.old.lanes }
        ensures { self.new ≡ after self.old (Dropped lane.0) }
    {
        self.idle = self.idle.without(LaneSet::only(lane));
        self.telling[lane.0 as usize] = LaneSet::empty();
    }

    /// A lane read that the sender has nothing more to send: it is idle, and what it told before is
    /// heard.
    pub fn idle(&mut self, lane: Lane)
        requires { lane.0 < self.old.lanes }
        ensures { self.new ≡ after self.old (Idled lane.0) }
    {
        let at = lane.0 as usize;
        self.idle = self.idle.with(LaneSet::only(lane));
        self.heard = self.heard.with(self.telling[at]);
        self.telling[at] = LaneSet::empty();
    }

    /// A lane is given up.
    pub fn close(&mut self, lane: Lane)
        requires { lane.0 < self.old.lanes }
        ensures { self.new ≡ after self.old (Closed lane.0) }
    {
        self.closed = self.closed.with(LaneSet::only(lane));
    }

    /// A lane tells of all closed lanes that are untold for it, which are the answer. It is then no
    /// longer idle.
    pub fn tell(&mut self, lane: Lane) -> LaneSet
        requires { lane.0 < self.old.lanes }
        ensures lanes { result ≡ untold self.old lane.0 }
        ensures told { self.new ≡ after self.old (Told lane.0 result) }
    {
        let told = self.untold(lane);
        let at = lane.0 as usize;
        self.named[at] = self.named[at].with(told);
        self.telling[at] = self.telling[at].with(told);
        let teller = LaneSet::only(lane);
        self.idle = self.idle.without(teller);
        told
    }

    /// The closed lanes that aren't confirmed and of which a lane hasn't told on its connection.
    pub fn untold(&self, lane: Lane) -> LaneSet
        requires { lane.0 < self.now.lanes }
        ensures { result ≡ untold self.now lane.0 }
    {
        self.closed
            .without(self.heard)
            .without(self.named[lane.0 as usize])
    }

    /// Whether the finish may come: every lane is idle or closed, one is idle, and every closed lane
    /// is confirmed.
    pub fn ready(&self) -> bool
        ensures { result ≡ is_open self.now }
    {
        self.are_idle_or_closed() && self.has_idle() && self.are_confirmed()
    }

    // Whether every lane is idle or closed.
    fn are_idle_or_closed(&self) -> bool
        ensures { result ≡ every self.now.lanes (λ l. has_lane self.now.idle l || has_lane self.now.closed l) }
    {
        LaneSet::first(self.lanes)
            .without(self.idle)
            .without(self.closed)
            .is_empty()
    }

    // Whether one lane is idle.
    fn has_idle(&self) -> bool
        ensures { result ≡ some self.now.lanes (has_lane self.now.idle) }
    {
        !self.idle.is_empty()
    }

    // Whether every closed lane is confirmed.
    fn are_confirmed(&self) -> bool
        ensures { result ≡ every self.now.lanes (λ l. not (has_lane self.now.closed l) || has_lane self.now.heard l) }
    {
        self.closed.without(self.heard).is_empty()
    }
}
