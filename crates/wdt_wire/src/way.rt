//! One direction of a connection.
ghost use Rattle.std.specs.Prelude.{◌≡◌, ◌≤◌, length, is_some, IfOk, OnErr, OnOk, Some};
ghost use Rattle.wdt_codec.specs.Frames.{owed_by};
ghost use Rattle.wdt_wire.specs.Ways.{arriving_count, behind, cut_way, lower, new_way, with_bytes, TakesFrame, TakesPiece};

use crate::untaken::Untaken;
use std::alloc::Global;
use std::marker::Model;
use wdt_codec::{Frame, NextFail, read_frame};
use wdt_units::NoMemory;

/// The bytes on their way in one direction.
#[derive(Drop)]
pub(crate) struct Way {
    alloc: Global,
    untaken: Untaken,
    owed: u32,
    // Once the direction is cut: how many bytes still arrive, those that wait among them.
    room: Option<u64>,
}

impl Model for Way {
    ghost use Rattle.std.specs.Prelude.{◌≤◌, length, IfSome};
    ghost use Rattle.wdt_wire.specs.Ways.{PlainWay};

    ghost Value = { PlainWay };

    ghost view = { λ w. record { untaken = w.untaken; owed = w.owed; room = w.room } };

    ghost invariant = { λ w. IfSome w.room (λ room. length w.untaken ≤ room) };
}

impl Way {
    /// A direction in which nothing was written.
    pub(crate) fn new(alloc: Global) -> Way
        ensures { result ≡ new_way }
    {
        Way {
            alloc,
            untaken: Untaken::new(alloc),
            owed: 0,
            room: None,
        }
    }

    pub(crate) fn is_cut(&self) -> bool
        ensures { result ≡ is_some self.now.room }
    {
        self.room.is_some()
    }

    /// Adds bytes at the end, as many of them as arrive.
    pub(crate) fn write(&mut self, bytes: &[u8]) -> Result<(), NoMemory>
        ensures written { OnOk result (self.new ≡ with_bytes bytes.now self.old) }
        ensures unchanged { OnErr result (self.new ≡ self.old) }
    {
        let count = arriving(self.room, self.untaken.len(), bytes.len());
        self.untaken.add(&bytes[..count])
    }

    /// Takes the frame at the front, where one is whole. Behind a block its length in bytes is owed.
    pub(crate) fn frame(&mut self) -> Result<Option<Frame>, NoMemory>
        ensures taken { IfOk result (λ found. TakesFrame found self.old self.new) }
        ensures unchanged { OnErr result (self.new ≡ self.old) }
    {
        match read_frame(self.alloc, self.untaken.bytes()) {
            Ok((frame, rest)) => {
                let count = self.untaken.len() - rest.len();
                self.take(count, owed_by(&frame));
                Ok(Some(frame))
            }
            Err(NextFail::NotYet) => Ok(None),
            Err(NextFail::Bad { .. }) => Ok(None),
            Err(NextFail::NoMemory) => Err(NoMemory),
        }
    }

    /// Takes so many bytes of a block, where they are there.
    pub(crate) fn piece(&mut self, count: u32) -> Result<Option<Vec<u8>>, NoMemory>
        requires { count ≤ self.old.owed }
        ensures taken { IfOk result (λ found. TakesPiece count found self.old self.new) }
        ensures unchanged { OnErr result (self.new ≡ self.old) }
    {
        if self.untaken.len() < count as usize {
            return Ok(None);
        }
        match Vec::from_slice(self.alloc, &self.untaken.bytes()[..count as usize]) {
            Ok(piece) => {
                self.take(count as usize, self.owed - count);
                Ok(Some(piece))
            }
            Err(_) => Err(NoMemory),
        }
    }

    /// Cuts the direction: so many bytes still arrive, or what an earlier cut left.
    pub(crate) fn cut(&mut self, count: u64)
        ensures { self.new ≡ cut_way count self.old }
    {
        if count < self.untaken.len() as u64 {
            self.untaken.keep(count as usize);
        }
        self.room = Some(lowered(self.room, count));
    }

    // Takes so many bytes, behind which so many are owed.
    fn take(&mut self, count: usize, owed: u32)
        requires { count ≤ length self.old.untaken }
        ensures { self.new ≡ behind count owed self.old }
    {
        self.untaken.take(count);
        self.owed = owed;
        self.room = match self.room {
            Some(room) => Some(room - count as u64),
            None => None,
        };
    }
}

// How many bytes arrive of so many more, where some wait.
fn arriving(room: Option<u64>, waiting: usize, count: usize) -> usize
    ensures { result ≡ arriving_count room waiting count }
{
    match room {
        Some(room) => (room.saturating_sub(waiting as u64)).min(count as u64) as usize,
        None => count,
    }
}

fn lowered(room: Option<u64>, count: u64) -> u64
    ensures { Some result ≡ lower room count }
{
    match room {
        Some(room) => room.min(count),
        None => count,
    }
}

fn owed_by(frame: &Frame) -> u32
    ensures { result ≡ owed_by frame.now }
{
    match frame {
        Frame::Block(header) => header.length,
        _ => 0,
    }
}
