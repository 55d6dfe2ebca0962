//! Where a script comes from.
ghost use Rattle.std.specs.Prelude.{◌≡◌, ◌≤◌, ℕ, List, length, min, take, Option, None, IfOk, is_err};
ghost use Rattle.wdt_units.specs.Counts.{HasCause};
ghost use Rattle.wdt_units.specs.Inputs.{Reads};

use crate::failures::Failed;
use std::io::{self, Read};

/// A source of bytes that is read from its start to its end.
pub trait Input {
    /// What is left to be read, where told.
    ghost left: { Self → Option (List ℕ) };

    /// How often a call failed. The count stops at 2^64 less 1.
    ghost faults: { Self → ℕ };

    /// Takes the next bytes into the front of the slice, and answers how many. 0 is the end, unless
    /// the slice is empty. `Failed` takes none.
    fn read(&mut self, into: &mut [u8]) -> Result<usize, Failed>
        ensures within { IfOk result (λ n. n ≤ length into.new) }
        ensures bytes { Reads result into.new (left self.old) (left self.new) }
        ensures cause { HasCause result (faults self.old) (faults self.new) };
}

/// Bytes in memory. Calls are numbered from 1, and those whose numbers it is given fail.
#[derive(Debug, Drop)]
pub struct MemInput {
    bytes: Vec<u8>,
    taken: usize,
    fails: Vec<u32>,
    calls: u32,
    faults: u64,
    ghost within: { taken ≤ length bytes.items },
}

impl MemInput {
    ghost use Rattle.std.specs.Prelude.{◌≡◌};
    ghost use Rattle.wdt_units.specs.View.{left_in, new_schedule, schedule_of_input, faults_of_input};

    /// An input of these bytes, of which no call was made.
    pub fn of(bytes: Vec<u8>, fails: Vec<u32>) -> MemInput
        ensures left { left_in result ≡ bytes.items }
        ensures schedule { schedule_of_input result ≡ new_schedule fails.items }
        ensures faults { faults_of_input result ≡ 0 }
    {
        MemInput {
            bytes,
            taken: 0,
            fails,
            calls: 0,
            faults: 0,
        }
    }
}

impl Input for MemInput {
    ghost use Rattle.std.specs.Prelude.{Some};
    ghost use Rattle.wdt_units.specs.View.{left_in, schedule_of_input, faults_of_input};
    ghost use Rattle.wdt_units.specs.Schedule.{is_due, numbered};

    ghost left = { λ i. Some (left_in i) };

    ghost faults = { faults_of_input };

    fn read(&mut self, into: &mut [u8]) -> Result<usize, Failed>
        ensures within { IfOk result (λ n. n ≤ length into.new) }
        ensures bytes { Reads result into.new (Some (left_in self.old)) (Some (left_in self.new)) }
        ensures cause { HasCause result (faults_of_input self.old) (faults_of_input self.new) }
        ensures failing { is_err result ≡ is_due (schedule_of_input self.old) }
        ensures schedule { schedule_of_input self.new ≡ numbered (schedule_of_input self.old) }
    {
        self.calls = self.calls.saturating_add(1);
        if self.fails.contains(&self.calls) {
            self.faults = self.faults.saturating_add(1);
            return Err(Failed);
        }
        let count = copy_front(&self.bytes[self.taken..], into);
        self.taken += count;
        Ok(count)
    }
}

// Copies as many bytes as both have, and answers how many.
fn copy_front(bytes: &[u8], into: &mut [u8]) -> usize
    ensures count { result ≡ min (length bytes.now) (length into.new) }
    ensures copied { take result into.new ≡ take result bytes.now }
{
    let count = bytes.len().min(into.len());
    into[..count].copy_from_slice(&bytes[..count]);
    count
}

/// Std's reader as an input. It tells nothing of its bytes.
#[derive(Drop)]
pub struct FromRead<T: Read + Drop> {
    reader: T,
    faults: u64,
    fault: Option<io::Error>,
}

impl<T: Read + Drop> FromRead<T> {
    ghost use Rattle.std.specs.Prelude.{◌≡◌};
    ghost use Rattle.wdt_units.specs.View.{faults_of_reader};

    /// An input over the reader, of which no call has failed.
    pub fn of(reader: T) -> FromRead<T>
        ensures { faults_of_reader result ≡ 0 }
    {
        FromRead {
            reader,
            faults: 0,
            fault: None,
        }
    }

    /// The system's reason for the last fault.
    pub fn fault(&self) -> Option<&io::Error> {
        self.fault.as_ref()
    }
}

impl<T: Read + Drop> Input for FromRead<T> {
    ghost use Rattle.wdt_units.specs.View.{faults_of_reader};

    ghost left = { λ _. None };

    ghost faults = { faults_of_reader };

    fn read(&mut self, into: &mut [u8]) -> Result<usize, Failed> {
        match self.reader.read(into) {
            Ok(count) => Ok(count),
            Err(error) => {
                self.faults = self.faults.saturating_add(1);
                self.fault = Some(error);
                Err(Failed)
            }
        }
    }
}
