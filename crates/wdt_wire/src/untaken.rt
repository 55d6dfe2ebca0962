//! Bytes that wait to be taken.
ghost use Rattle.std.specs.Prelude.{◌≡◌, ◌≤◌, ◌++◌, [], length, take, drop, OnOk, OnErr};

use std::alloc::Global;
use std::marker::Model;
use wdt_units::NoMemory;

/// Bytes that wait to be taken, the first first. Those that were taken are let go.
#[derive(Drop)]
pub(crate) struct Untaken {
    bytes: Vec<u8>,
    // Where the bytes that weren't taken begin.
    start: usize,
}

impl Model for Untaken {
    ghost use Rattle.std.specs.Prelude.{ℕ, ◌≤◌, List, length, drop};

    ghost Value = { List ℕ };

    ghost view = { λ u. drop u.start u.bytes.items };

    ghost invariant = { λ u. u.start ≤ length u.bytes.items };
}

impl Untaken {
    /// No bytes.
    pub(crate) fn new(alloc: Global) -> Untaken
        ensures { result ≡ [] }
    {
        Untaken {
            bytes: Vec::new(alloc),
            start: 0,
        }
    }

    pub(crate) fn len(&self) -> usize
        ensures { result ≡ length self.now }
    {
        self.bytes.len() - self.start
    }

    pub(crate) fn bytes(&self) -> &[u8]
        ensures { result.now ≡ self.now }
    {
        &self.bytes[self.start..]
    }

    /// Adds bytes at the end.
    pub(crate) fn add(&mut self, bytes: &[u8]) -> Result<(), NoMemory>
        ensures added { OnOk result (self.new ≡ self.old ++ bytes.now) }
        ensures unchanged { OnErr result (self.new ≡ self.old) }
    {
        self.start = let_go(&mut self.bytes, self.start);
        match self.bytes.extend_from_slice(bytes) {
            Ok(()) => Ok(()),
            Err(_) => Err(NoMemory),
        }
    }

    /// Takes so many bytes from the front.
    pub(crate) fn take(&mut self, count: usize)
        requires { count ≤ length self.old }
        ensures { self.new ≡ drop count self.old }
    {
        self.start += count;
    }

    /// Leaves so many bytes at the front, and no more.
    pub(crate) fn keep(&mut self, count: usize)
        ensures { self.new ≡ take count self.old }
    {
        self.bytes.truncate(self.start.saturating_add(count));
    }
}

// Lets the first bytes go, which were taken, once they are as many as those that are left: so no byte
// is moved for more than one that was taken. Answers where those that are left begin.
fn let_go(bytes: &mut Vec<u8>, taken: usize) -> usize
    requires { taken ≤ length bytes.old.items }
    ensures left { drop result bytes.new.items ≡ drop taken bytes.old.items }
    ensures within { result ≤ length bytes.new.items }
{
    let left = bytes.len() - taken;
    if taken < left {
        return taken;
    }
    bytes.copy_within(taken.., 0);
    bytes.truncate(left);
    0
}
