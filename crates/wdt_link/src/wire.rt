//! The trait of what carries bytes.
ghost use Rattle.std.specs.Prelude.{◌≡◌, ◌≤◌, ℕ, length, Option, IfOk, OnOk};
ghost use Rattle.wdt_units.specs.Counts.{HasCause};
ghost use Rattle.wdt_link.specs.Wires.{Cable, Reads, Writes};

use wdt_units::Failed;

/// What carries bytes in both directions. No call changes whether its bytes are told.
pub trait ByteWire {
    /// The bytes that were read, those left to be read, and those that were written, where told.
    ghost told: { Self → Option Cable };

    /// How often a call failed. The count stops at 2^64 less 1.
    ghost faults: { Self → ℕ };

    /// Writes all the bytes. Where it fails, a front of them was written.
    fn write(&mut self, bytes: &[u8]) -> Result<(), Failed>
        ensures told { Writes bytes.now result (told self.old) (told self.new) }
        ensures cause { HasCause result (faults self.old) (faults self.new) }
        ensures kept { OnOk result (faults self.new ≡ faults self.old) };

    /// Takes the next bytes into the front of the slice, and answers how many. 0 is the end, unless the
    /// slice is empty. Where it fails, none was taken.
    fn read(&mut self, into: &mut [u8]) -> Result<usize, Failed>
        ensures within { IfOk result (λ n. n ≤ length into.new) }
        ensures told { Reads result into.new (told self.old) (told self.new) }
        ensures cause { HasCause result (faults self.old) (faults self.new) }
        ensures kept { OnOk result (faults self.new ≡ faults self.old) };

    /// The count of faults. Whoever takes a link back adds it to its own.
    fn faults(&self) -> u64
        ensures { result ≡ faults self.now };
}
