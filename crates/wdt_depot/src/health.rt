//! What goes wrong in a depot: a stop, the calls that fail by their numbers, and the counts.
ghost use Rattle.std.specs.Prelude.{◌≡◌, is_some};
ghost use Rattle.wdt_depot.specs.Health.{IsBarred, IsCountedOn, IsEnded, IsFaulted, IsFresh, IsOwnFault, IsRefused, IsStruck, IsTurn, goes, is_whole, reaches_disk};

use crate::failure::DepotFail;

/// A depot's stop and its counts, for an `impl Depot` to keep them by. The counts stop at 2^64 less 1.
#[derive(Debug, Drop)]
pub struct Health {
    /// The changing calls up to the stop, and its pick.
    pub armed: Option<(u32, u64)>,
    /// The pick of the stop that has struck.
    pub struck: Option<u64>,
    // The changing calls that fail, by their numbers from 1, and how many have a number. One that is
    // refused for memory has none.
    fails: Vec<u32>,
    calls: u32,
    pub faults: u64,
    /// The faults that no stop made, and how many they were at the last reopening.
    pub own: u64,
    pub own_then: u64,
    /// What no caller may ask for, where the disk is told.
    pub slips: u64,
}

// What becomes of a changing call that can be done.
#[derive(Clone, Copy, Debug)]
pub enum Turn {
    // A stop struck before.
    Bars,
    // The stop strikes it, with this pick.
    Strikes(u64),
    // It fails by its number.
    Fails,
    Goes,
}

impl Turn {
    // Whether the call goes on.
    pub fn goes(self) -> bool
        ensures { result ≡ goes self }
    {
        matches!(self, Turn::Goes)
    }

    // Whether the call reaches the disk: it goes on, or the stop strikes it there.
    pub fn reaches_disk(self) -> bool
        ensures { result ≡ reaches_disk self }
    {
        matches!(self, Turn::Strikes(_) | Turn::Goes)
    }

    // Whether a call that is done whole or not at all is done: it goes on, or the stop strikes it by an
    // odd pick.
    pub fn is_whole(self) -> bool
        ensures { result ≡ is_whole self }
    {
        match self {
            Turn::Strikes(pick) => pick % 2 == 1,
            _ => self.goes(),
        }
    }
}

impl Health {
    /// No stop, and all counts 0. The changing calls of these numbers fail, from 1.
    pub fn of(fails: Vec<u32>) -> Health
        ensures { IsFresh fails.items result }
    {
        Health {
            armed: None,
            struck: None,
            fails,
            calls: 0,
            faults: 0,
            own: 0,
            own_then: 0,
            slips: 0,
        }
    }

    /// Whether a stop has struck.
    pub fn is_down(&self) -> bool
        ensures { result ≡ is_some self.now.struck }
    {
        self.struck.is_some()
    }

    /// Counts a fault of a stop that has struck.
    pub fn fault(&mut self) -> DepotFail
        ensures failed { result ≡ DepotFail.Failed }
        ensures health { IsFaulted self.old self.new }
    {
        self.faults = self.faults.saturating_add(1);
        DepotFail::Failed
    }

    /// Counts a fault that no stop made, and a slip where it is one. It is no changing call: see `count`.
    pub fn own_fault(&mut self, slips: bool) -> DepotFail
        ensures failed { result ≡ DepotFail.Failed }
        ensures health { IsOwnFault slips self.old self.new }
    {
        self.faults = self.faults.saturating_add(1);
        self.own = self.own.saturating_add(1);
        if slips {
            self.slips = self.slips.saturating_add(1);
        }
        DepotFail::Failed
    }

    // What becomes of the next changing call.
    pub(crate) fn turn(&self) -> Turn
        ensures { IsTurn self.now result }
    {
        if self.struck.is_some() {
            return Turn::Bars;
        }
        if let Some((1, pick)) = self.armed {
            return Turn::Strikes(pick);
        }
        if self.fails.contains(&self.calls.saturating_add(1)) {
            return Turn::Fails;
        }
        Turn::Goes
    }

    // Counts a changing call that a stop bars, which struck before.
    fn bar(&mut self) -> DepotFail
        ensures failed { result ≡ DepotFail.Failed }
        ensures health { IsBarred self.old self.new }
    {
        self.calls = self.calls.saturating_add(1);
        self.fault()
    }

    /// The stop strikes, which is a fault but no own one.
    pub fn strike(&mut self, pick: u64) -> DepotFail
        ensures failed { result ≡ DepotFail.Failed }
        ensures health { IsStruck pick self.old self.new }
    {
        self.calls = self.calls.saturating_add(1);
        self.armed = None;
        self.struck = Some(pick);
        self.fault()
    }

    /// Counts a changing call: one less up to the stop. It isn't the last.
    pub fn count(&mut self)
        ensures { IsCountedOn self.old self.new }
    {
        self.calls = self.calls.saturating_add(1);
        if let Some((calls, pick)) = self.armed {
            self.armed = Some((calls.saturating_sub(1), pick));
        }
    }

    // The call can't be done: a stop had struck or strikes, or else it is an own fault.
    pub(crate) fn refuse(&mut self, turn: Turn, slips: bool) -> DepotFail
        ensures failed { result ≡ DepotFail.Failed }
        ensures health { IsRefused turn slips self.old self.new }
    {
        match turn {
            Turn::Bars => self.bar(),
            Turn::Strikes(pick) => self.strike(pick),
            Turn::Fails | Turn::Goes => {
                self.count();
                self.own_fault(slips)
            }
        }
    }

    // Ends a call that can be done, by its turn.
    pub(crate) fn end(&mut self, turn: Turn) -> Result<(), DepotFail>
        ensures { IsEnded turn result self.old self.new }
    {
        match turn {
            Turn::Bars => Err(self.bar()),
            Turn::Strikes(pick) => Err(self.strike(pick)),
            Turn::Fails => {
                self.count();
                Err(self.own_fault(false))
            }
            Turn::Goes => {
                self.count();
                Ok(())
            }
        }
    }
}
