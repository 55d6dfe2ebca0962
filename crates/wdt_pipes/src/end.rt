//! What a dialer and an acceptor have in common.
ghost use Rattle.std.specs.Prelude.{◌≡◌, ◌<◌, is_none};
ghost use Rattle.wdt_units.specs.Counts.{Rises};
ghost use Rattle.wdt_units.specs.Schedule.{is_due};
ghost use Rattle.wdt_pipes.specs.Ends.{failing, giving, new_end, retiring, taking_back};

use crate::pipe::PipeLink;
use std::marker::Model;
use std::sync::Wait;
use wdt_link::LinkFail;
use wdt_tree::Run;

/// A lane's end of its door, which of its calls fail by their numbers, from 1, and its counts.
#[derive(Drop)]
pub(crate) struct End<D: Drop> {
    // None once the lane makes no further call.
    door: Option<D>,
    fails: Vec<u32>,
    calls: u32,
    out: u64,
    faults: u64,
    alarms: u64,
    slips: u64,
}

impl<D: Drop> Model for End<D> {
    ghost use Rattle.std.specs.Prelude.{is_none};
    ghost use Rattle.wdt_pipes.specs.Ends.{EndView};

    ghost Value = { EndView };

    ghost view = { λ s. record {
      schedule = record { fails = s.fails.items; calls = s.calls };
      retired = is_none s.door;
      out = s.out;
      faults = s.faults;
      alarms = s.alarms;
      slips = s.slips;
    } };
}

impl<D: Drop> End<D> {
    /// An end of which no call was made.
    pub(crate) fn of(door: D, fails: Vec<u32>) -> End<D>
        ensures { result ≡ new_end fails.items }
    {
        End {
            door: Some(door),
            fails,
            calls: 0,
            out: 0,
            faults: 0,
            alarms: 0,
            slips: 0,
        }
    }

    /// The door. None exactly where the lane has retired.
    pub(crate) fn door(&self) -> Option<&D>
        ensures { self.now.retired ≡ is_none result }
    {
        self.door.as_ref()
    }

    /// Whether the next call fails by its number.
    pub(crate) fn is_due(&self) -> bool
        ensures { result ≡ is_due self.now.schedule }
    {
        self.fails.contains(&self.calls.saturating_add(1))
    }

    /// Numbers a call that gives a link.
    pub(crate) fn give(&mut self)
        ensures { self.new ≡ giving self.old }
    {
        self.calls = self.calls.saturating_add(1);
        self.out = 1;
    }

    /// Numbers a call that fails.
    pub(crate) fn fail(&mut self) -> LinkFail
        ensures failed { result ≡ LinkFail.Failed }
        ensures failing { self.new ≡ failing self.old }
        ensures rises { Rises self.old.faults self.new.faults }
    {
        self.calls = self.calls.saturating_add(1);
        self.faults = self.faults.saturating_add(1);
        LinkFail::Failed
    }

    /// Takes a link back, with its counts, and lets it go.
    pub(crate) fn take_back<R: Wait + Drop, N: Run>(&mut self, link: PipeLink<R, N>)
        requires { 0 < self.old.out }
        ensures { self.new ≡ taking_back link self.old }
    {
        self.out -= 1;
        self.faults = self.faults.saturating_add(link.faults());
        self.alarms = self.alarms.saturating_add(link.alarms());
        self.slips = self.slips.saturating_add(link.slips());
    }

    /// Lets the door go.
    pub(crate) fn retire(&mut self)
        ensures { self.new ≡ retiring self.old }
    {
        self.door = None;
    }
}
