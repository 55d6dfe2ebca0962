//! What is kept of the whole end.
ghost use Rattle.std.specs.Prelude.{◌≡◌};
ghost use Rattle.wdt_receiver_fsm.specs.Kept.{noted_in};

use crate::RecvEvent;
use wdt_codec::Settings;

/// What is kept of the whole end.
#[derive(Clone, Copy, Debug, PartialEq, Eq)]
pub struct Common {
    /// The first settings that were read.
    pub met: Option<Settings>,
    /// How many files and bytes are sent in all, as it was first read.
    pub sized: Option<(u32, u64)>,
    /// Whether everything has landed and is logged.
    pub has_finish: bool,
}

impl Common {
    /// What is kept of an end at which nothing has happened.
    pub const NEW: Common = Common {
        met: None,
        sized: None,
        has_finish: false,
    };

    /// Keeps what an entry says of the whole end.
    pub fn note(&mut self, event: RecvEvent)
        ensures { self.new ≡ noted_in self.old event }
    {
        match event {
            RecvEvent::Met(_, settings) => {
                if self.met.is_none() {
                    self.met = Some(settings);
                }
            }
            RecvEvent::Sized(_, files, bytes) => {
                if self.sized.is_none() {
                    self.sized = Some((files, bytes));
                }
            }
            RecvEvent::Finish => self.has_finish = true,
            _ => {}
        }
    }
}
