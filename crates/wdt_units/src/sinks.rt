//! Where the lines of a run are put.
ghost use Rattle.std.specs.Prelude.{◌≡◌, true, ℕ, List, Option, Some, None, [], IsErr, OnErr};
ghost use Rattle.wdt_units.specs.Counts.{HasCause};
ghost use Rattle.wdt_units.specs.Sinks.{Puts};

use crate::failures::Failed;
use std::alloc::Global;
use std::io::{self, Write};

/// A sink of bytes.
pub trait Sink {
    /// What was written, where told.
    ghost written: { Self → Option (List ℕ) };

    /// How often a call failed. The count stops at 2^64 less 1.
    ghost faults: { Self → ℕ };

    /// Writes the bytes. Where it fails, a front of them was written.
    fn put(&mut self, bytes: &[u8]) -> Result<(), Failed>
        ensures bytes { Puts bytes.now result (written self.old) (written self.new) }
        ensures cause { HasCause result (faults self.old) (faults self.new) };
}

/// A sink in memory. Calls are numbered from 1, and those whose numbers it is given fail. So does one
/// that finds no memory for its bytes, and that one gets no number. A call that fails writes nothing.
#[derive(Debug, Drop)]
pub struct MemSink {
    bytes: Vec<u8>,
    fails: Vec<u32>,
    calls: u32,
    faults: u64,
}

impl MemSink {
    ghost use Rattle.std.specs.Prelude.{◌≡◌, []};
    ghost use Rattle.wdt_units.specs.View.{written_in, new_schedule, schedule_of_sink, faults_of_sink};

    /// A sink to which nothing was written.
    pub fn of(alloc: Global, fails: Vec<u32>) -> MemSink
        ensures written { written_in result ≡ [] }
        ensures schedule { schedule_of_sink result ≡ new_schedule fails.items }
        ensures faults { faults_of_sink result ≡ 0 }
    {
        MemSink {
            bytes: Vec::new(alloc),
            fails,
            calls: 0,
            faults: 0,
        }
    }

    /// What was written so far.
    pub fn bytes(&self) -> &[u8]
        ensures { result.now ≡ written_in self.now }
    {
        &self.bytes
    }
}

impl Sink for MemSink {
    ghost use Rattle.wdt_units.specs.View.{written_in, schedule_of_sink, faults_of_sink, schedule_behind};
    ghost use Rattle.wdt_units.specs.Schedule.{is_due};

    ghost written = { λ s. Some (written_in s) };

    ghost faults = { faults_of_sink };

    fn put(&mut self, bytes: &[u8]) -> Result<(), Failed>
        ensures bytes { Puts bytes.now result (Some (written_in self.old)) (Some (written_in self.new)) }
        ensures nothing { OnErr result (written_in self.new ≡ written_in self.old) }
        ensures cause { HasCause result (faults_of_sink self.old) (faults_of_sink self.new) }
        ensures failing { is_due (schedule_of_sink self.old) ≡ true → IsErr result }
        ensures schedule { schedule_of_sink self.new ≡ schedule_behind result (schedule_of_sink self.old) }
    {
        let number = self.calls.saturating_add(1);
        if self.fails.contains(&number) {
            self.calls = number;
            self.faults = self.faults.saturating_add(1);
            return Err(Failed);
        }
        if self.bytes.extend_from_slice(bytes).is_err() {
            self.faults = self.faults.saturating_add(1);
            return Err(Failed);
        }
        self.calls = number;
        Ok(())
    }
}

/// Std's writer as a sink. It tells nothing of its bytes, and flushes them at each call.
#[derive(Drop)]
pub struct ToWrite<W: Write + Drop> {
    writer: W,
    faults: u64,
    fault: Option<io::Error>,
}

impl<W: Write + Drop> ToWrite<W> {
    ghost use Rattle.std.specs.Prelude.{◌≡◌};
    ghost use Rattle.wdt_units.specs.View.{faults_of_writer};

    /// A sink over the writer, of which no call has failed.
    pub fn of(writer: W) -> ToWrite<W>
        ensures { faults_of_writer result ≡ 0 }
    {
        ToWrite {
            writer,
            faults: 0,
            fault: None,
        }
    }

    /// The system's reason for the last fault.
    pub fn fault(&self) -> Option<&io::Error> {
        self.fault.as_ref()
    }
}

impl<W: Write + Drop> Sink for ToWrite<W> {
    ghost use Rattle.wdt_units.specs.View.{faults_of_writer};

    ghost written = { λ _. None };

    ghost faults = { faults_of_writer };

    fn put(&mut self, bytes: &[u8]) -> Result<(), Failed> {
        let written = match self.writer.write_all(bytes) {
            Ok(()) => self.writer.flush(),
            Err(error) => Err(error),
        };
        match written {
            Ok(()) => Ok(()),
            Err(error) => {
                self.faults = self.faults.saturating_add(1);
                self.fault = Some(error);
                Err(Failed)
            }
        }
    }
}
