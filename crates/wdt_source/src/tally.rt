// The counts of a source in memory, and the calls that fail by their numbers.
ghost use Rattle.std.specs.Prelude.{◌≡◌};
ghost use Rattle.wdt_units.specs.Schedule.{is_due};
ghost use Rattle.wdt_source.specs.Tally.{IsFailed, IsNumbered, schedule_of};

use crate::failure::SourceFail;

// The calls that fail, by their numbers from 1, how many have a number, and how often a call failed or
// was a slip. The counts stop at their ends.
#[derive(Debug, Drop)]
pub struct Tally {
    pub fails: Vec<u32>,
    pub calls: u32,
    pub faults: u64,
    pub slips: u64,
}

impl Tally {
    // No call yet.
    pub fn of(fails: Vec<u32>) -> Tally
        ensures schedule { schedule_of result ≡ record { fails = fails.items; calls = 0 } }
        ensures faults { result.faults ≡ 0 }
        ensures slips { result.slips ≡ 0 }
    {
        Tally {
            fails,
            calls: 0,
            faults: 0,
            slips: 0,
        }
    }

    // Whether the next call fails by its number.
    pub fn is_due(&self) -> bool
        ensures { result ≡ is_due (schedule_of self.now) }
    {
        self.fails.contains(&self.calls.saturating_add(1))
    }

    // Numbers a call that succeeds.
    pub fn end(&mut self)
        ensures { IsNumbered self.old self.new }
    {
        self.calls = self.calls.saturating_add(1);
    }

    // Numbers a call that fails, and counts the fault, and a slip where it is one.
    pub fn fail(&mut self, slips: bool) -> SourceFail
        ensures failed { result ≡ SourceFail.Failed }
        ensures tally { IsFailed slips self.old self.new }
    {
        self.end();
        self.faults = self.faults.saturating_add(1);
        if slips {
            self.slips = self.slips.saturating_add(1);
        }
        SourceFail::Failed
    }
}
