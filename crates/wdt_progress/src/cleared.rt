//! A sink in front of which the line is cleared.
ghost use Rattle.std.specs.Prelude.{◌≡◌};

use std::marker::Model;
use wdt_units::{Failed, Sink};

/// The sink behind it, call for call. The line that is shown is cleared first, so that nothing stands
/// behind it in the same row of a terminal. Contracts see it as that sink.
#[derive(Drop)]
pub struct Cleared<O: Sink + Drop, R: Eprint + Drop> {
    sink: O,
    // None where no line is shown.
    shown: Option<R>,
}

impl<O: Sink + Drop, R: Eprint + Drop> Model for Cleared<O, R> {
    ghost Value = { O };

    ghost view = { λ cleared. cleared.sink };
}

impl<O: Sink + Drop, R: Eprint + Drop> Cleared<O, R> {
    /// Clears the line that is shown on this runtime's standard error; with None nothing is shown.
    pub fn of(sink: O, shown: Option<R>) -> Cleared<O, R>
        ensures { result ≡ sink }
    {
        Cleared { sink, shown }
    }

    /// The sink behind it.
    pub fn sink(&self) -> &O
        ensures { result.now ≡ self.now }
    {
        &self.sink
    }

    /// Clears the line.
    pub fn clear(&self) {
        if let Some(rt) = &self.shown {
            let _ = eprint!(rt; "\r\x1b[K");
        }
    }
}

impl<O: Sink + Drop, R: Eprint + Drop> Sink for Cleared<O, R> {
    ghost written = { λ sink. O.written sink };

    ghost faults = { λ sink. O.faults sink };

    fn put(&mut self, bytes: &[u8]) -> Result<(), Failed> {
        self.clear();
        self.sink.put(bytes)
    }
}
