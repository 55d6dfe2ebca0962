//! What a dialer and an acceptor have in common.
ghost use Rattle.std.specs.Prelude.{◌≡◌, ◌<◌};
ghost use Rattle.wdt_units.specs.Counts.{Rises};
ghost use Rattle.wdt_net.specs.Ends.{failing, giving, new_end, taking_back};

use crate::link::TcpLink;
use crate::reason::{NetFault, Reason};
use std::marker::Model;
use wdt_link::LinkFail;
use wdt_tree::Run;

/// A host and a port, the counts of one end, and why it failed last.
#[derive(Drop)]
pub(crate) struct End {
    host: String,
    port: u16,
    out: u64,
    faults: u64,
    alarms: u64,
    slips: u64,
    reason: Option<Reason>,
}

impl Model for End {
    ghost use Rattle.wdt_net.specs.Ends.{EndView};

    ghost Value = { EndView };

    ghost view = { λ s. record { port = s.port; out = s.out; faults = s.faults; alarms = s.alarms; slips = s.slips } };
}

impl End {
    /// An end of which no call was made.
    pub(crate) fn of(host: String, port: u16) -> End
        ensures { result ≡ new_end port }
    {
        End {
            host,
            port,
            out: 0,
            faults: 0,
            alarms: 0,
            slips: 0,
            reason: None,
        }
    }

    /// The host and the port.
    pub(crate) fn place(&self) -> (&str, u16) {
        (self.host.as_str(), self.port)
    }

    /// Why a call failed last, on this end or on a link that it took back.
    pub(crate) fn fault(&self) -> Option<NetFault<'_>> {
        let reason = self.reason?;
        Some(NetFault::of(self.host.as_str(), self.port, reason))
    }

    /// Notes a link that is given.
    pub(crate) fn give(&mut self)
        ensures { self.new ≡ giving self.old }
    {
        self.out = 1;
    }

    /// Counts a call that fails.
    pub(crate) fn fail(&mut self, reason: Reason) -> LinkFail
        ensures failed { result ≡ LinkFail.Failed }
        ensures failing { self.new ≡ failing self.old }
        ensures rises { Rises self.old.faults self.new.faults }
    {
        self.faults = self.faults.saturating_add(1);
        self.reason = Some(reason);
        LinkFail::Failed
    }

    /// Takes a link back, with its counts, and ends the connection.
    pub(crate) fn take_back<N: Run>(&mut self, link: TcpLink<N>)
        requires { 0 < self.old.out }
        ensures { self.new ≡ taking_back link self.old }
    {
        self.out -= 1;
        self.faults = self.faults.saturating_add(link.faults());
        self.alarms = self.alarms.saturating_add(link.alarms());
        self.slips = self.slips.saturating_add(link.slips());
        if let Some(reason) = link.into_reason() {
            self.reason = Some(reason);
        }
    }
}
