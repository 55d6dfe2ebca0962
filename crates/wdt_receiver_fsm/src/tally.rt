//! What is kept of a lane.
ghost use Rattle.std.specs.Prelude.{◌≡◌};
ghost use Rattle.wdt_receiver_fsm.specs.Tallies.{counted, IsTally};

use crate::RecvEvent;
use wdt_units::Block;

/// What is kept of a lane.
#[derive(Clone, Copy, Debug, PartialEq, Eq)]
pub struct Tally {
    /// How many blocks landed, at most `MAX_BLOCKS` with the one that is begun.
    pub landed: u32,
    /// The block that is begun.
    pub begun: Option<Block>,
    /// How many connections were taken, at most `MAX_CONNECTIONS`.
    pub takes: u16,
    /// How often none could be taken, at most `MAX_TRIES`.
    pub failed_tries: u16,
    /// Whether the answer to the last word was read.
    pub is_acked: bool,
    /// Whether the lane was given up before the finish.
    pub is_closed: bool,
}

impl Tally {
    /// The tally of a lane on which nothing has happened.
    pub const NEW: Tally = Tally {
        landed: 0,
        begun: None,
        takes: 0,
        failed_tries: 0,
        is_acked: false,
        is_closed: false,
    };

    /// Counts an entry of the lane.
    pub fn count(&mut self, event: RecvEvent)
        requires { IsTally (counted self.old event) }
        ensures { self.new ≡ counted self.old event }
    {
        match event {
            RecvEvent::Take(..) => self.takes += 1,
            RecvEvent::NoLink(_) => self.failed_tries += 1,
            RecvEvent::Begin(_, block) => self.begun = Some(block),
            RecvEvent::Land(_) => {
                if self.begun.is_some() {
                    self.landed += 1;
                }
                self.begun = None;
            }
            RecvEvent::Dropped(_) => self.begun = None,
            RecvEvent::Acked(_) => self.is_acked = true,
            RecvEvent::Close(_) => self.is_closed = true,
            _ => {}
        }
    }
}
