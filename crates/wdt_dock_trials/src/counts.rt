//! What is counted of all trials.
use std::fmt;

/// What happened in all trials.
#[derive(Clone, Copy, Debug)]
pub struct Counts {
    /// Transfers, each into a depot of its own.
    pub sessions: u32,
    /// Inputs, pieces and flushes.
    pub steps: u32,
    /// Connections that were lost.
    pub cuts: u32,
    /// Calls of the disk that failed by themselves.
    pub failed: u32,
    /// Calls at which the machine went down.
    pub stops: u32,
    /// Ends that were begun behind an earlier one.
    pub reopenings: u32,
    /// Transfers that ended with all that was to be sent.
    pub done: u32,
}

impl Counts {
    /// Nothing has happened.
    pub const NONE: Counts = Counts {
        sessions: 0,
        steps: 0,
        cuts: 0,
        failed: 0,
        stops: 0,
        reopenings: 0,
        done: 0,
    };
}

/// One more.
pub fn count(number: &mut u32) {
    *number = number.saturating_add(1);
}

impl fmt::Display for Counts {
    fn fmt<W: fmt::Write>(&self, f: &mut fmt::Formatter<W>) -> fmt::Result {
        let sessions = self.sessions;
        let steps = self.steps;
        let cuts = self.cuts;
        let failed = self.failed;
        let stops = self.stops;
        let reopenings = self.reopenings;
        let done = self.done;
        write!(
            f,
            "sessions {sessions} steps {steps} cuts {cuts} failed calls {failed} stops {stops} reopenings {reopenings} done {done}"
        )
    }
}
