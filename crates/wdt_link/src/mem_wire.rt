//! A wire in memory.
ghost use Rattle.std.specs.Prelude.{◌≡◌, ◌≤◌, [], length, min, take, Some, IfOk, IsErr, OnOk, OnErr, is_err, true};
ghost use Rattle.wdt_units.specs.Counts.{HasCause};
ghost use Rattle.wdt_link.specs.Wires.{Reads, Writes};

use crate::wire::ByteWire;
use std::alloc::Global;
use wdt_units::Failed;

/// Bytes in memory: those to be read are handed in, and those written are kept. Calls are numbered from
/// 1, both kinds together, and those whose numbers it is given fail. So does a write that finds no
/// memory for its bytes, and that one gets no number. A call that fails changes no byte.
#[derive(Debug, Drop)]
pub struct MemWire {
    bytes: Vec<u8>,
    taken: usize,
    written: Vec<u8>,
    fails: Vec<u32>,
    calls: u32,
    faults: u64,
    ghost within: { taken ≤ length bytes.items },
}

impl MemWire {
    ghost use Rattle.std.specs.Prelude.{◌≡◌};
    ghost use Rattle.wdt_units.specs.View.{new_schedule};
    ghost use Rattle.wdt_link.specs.Memory.{cable_of, schedule_of, faults_of};

    /// A wire with these bytes to be read, of which no call was made.
    pub fn of(alloc: Global, bytes: Vec<u8>, fails: Vec<u32>) -> MemWire
        ensures cable { cable_of result ≡ record { read = []; left = bytes.items; written = [] } }
        ensures schedule { schedule_of result ≡ new_schedule fails.items }
        ensures faults { faults_of result ≡ 0 }
    {
        MemWire {
            bytes,
            taken: 0,
            written: Vec::new(alloc),
            fails,
            calls: 0,
            faults: 0,
        }
    }

    /// What was written so far.
    pub fn written(&self) -> &[u8]
        ensures { result.now ≡ (cable_of self.now).written }
    {
        &self.written
    }
}

impl ByteWire for MemWire {
    ghost use Rattle.wdt_units.specs.Schedule.{is_due, numbered};
    ghost use Rattle.wdt_units.specs.View.{schedule_behind};
    ghost use Rattle.wdt_link.specs.Memory.{cable_of, schedule_of, faults_of};

    ghost told = { λ w. Some (cable_of w) };

    ghost faults = { faults_of };

    fn write(&mut self, bytes: &[u8]) -> Result<(), Failed>
        ensures told { Writes bytes.now result (Some (cable_of self.old)) (Some (cable_of self.new)) }
        ensures cause { HasCause result (faults_of self.old) (faults_of self.new) }
        ensures kept { OnOk result (faults_of self.new ≡ faults_of self.old) }
        ensures nothing { OnErr result (cable_of self.new ≡ cable_of self.old) }
        ensures failing { is_due (schedule_of self.old) ≡ true → IsErr result }
        ensures schedule { schedule_of self.new ≡ schedule_behind result (schedule_of self.old) }
    {
        let number = self.calls.saturating_add(1);
        if self.fails.contains(&number) {
            self.calls = number;
            self.faults = self.faults.saturating_add(1);
            return Err(Failed);
        }
        if self.written.extend_from_slice(bytes).is_err() {
            self.faults = self.faults.saturating_add(1);
            return Err(Failed);
        }
        self.calls = number;
        Ok(())
    }

    fn read(&mut self, into: &mut [u8]) -> Result<usize, Failed>
        ensures within { IfOk result (λ n. n ≤ length into.new) }
        ensures told { Reads result into.new (Some (cable_of self.old)) (Some (cable_of self.new)) }
        ensures cause { HasCause result (faults_of self.old) (faults_of self.new) }
        ensures kept { OnOk result (faults_of self.new ≡ faults_of self.old) }
        ensures failing { is_err result ≡ is_due (schedule_of self.old) }
        ensures schedule { schedule_of self.new ≡ numbered (schedule_of self.old) }
    {
        self.calls = self.calls.saturating_add(1);
        if self.fails.contains(&self.calls) {
            self.faults = self.faults.saturating_add(1);
            return Err(Failed);
        }
        let count = copy_front(&self.bytes[self.taken..], into);
        self.taken += count;
        Ok(count)
    }

    fn faults(&self) -> u64 {
        self.faults
    }
}

// Copies as many bytes as both have, and answers how many.
fn copy_front(bytes: &[u8], into: &mut [u8]) -> usize
    ensures count { result ≡ min (length bytes.now) (length into.new) }
    ensures copied { take result into.new ≡ take result bytes.now }
{
    let count = bytes.len().min(into.len());
    into[..count].copy_from_slice(&bytes[..count]);
    count
}
