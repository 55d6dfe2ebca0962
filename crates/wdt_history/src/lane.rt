//! The claims of one lane.
ghost use Rattle.std.specs.Prelude.{◌≡◌, ℕ, ◌+◌, ◌<◌, ◌≤◌, ◌^◌, ◌++◌, length, drop, position, None, OnOk, OnErr, IsTrue};
ghost use Rattle.std.specs.Result.{result_err};
ghost use Rattle.wdt_claims.specs.Blocks.{are_rising, is_same, AreDistinct, HaveSameBlocks};
ghost use Rattle.wdt_claims.specs.LaneWords.{no_claims, claimed, sent, cut_to, closed_at, finished};
ghost use Rattle.wdt_claims.specs.Checks.{fault_of};
ghost use Rattle.wdt_claims.specs.Claimed.{IsLane};
ghost use Rattle.wdt_claims.specs.Places.{place_at, place_in};

use std::alloc::Global;
use std::marker::Model;
use wdt_claims::{CheckFail, Place};
use wdt_queue::Queue;
use wdt_units::{Block, NoMemory};

/// What a lane has claimed.
#[derive(Debug, Drop)]
pub struct LaneClaims {
    /// The blocks in the order in which they were claimed.
    kept: Vec<Block>,
    /// How many of the first of them have surely landed.
    sure: u32,
    /// Whether the last of them is still being written.
    held: bool,
    /// The count that closed the lane.
    closed: Option<u32>,
}

impl Model for LaneClaims {
    ghost use Rattle.wdt_history.specs.Slots.{Slot};

    ghost Value = { Slot };

    ghost use Rattle.wdt_history.specs.Inside.{seen};

    ghost view = { seen };
}

impl LaneClaims {
    /// A lane that claimed nothing.
    pub fn new(alloc: Global) -> LaneClaims
        ensures { result.claims ≡ no_claims }
    {
        LaneClaims {
            kept: Vec::new(alloc),
            sure: 0,
            held: false,
            closed: None,
        }
    }

    /// The lane's blocks in the order in which they were claimed.
    pub fn kept(&self) -> &[Block]
        ensures { result.now ≡ self.now.claims.kept }
    {
        &self.kept
    }

    /// How many of the first blocks have surely landed.
    pub fn sure(&self) -> u32
        ensures { result ≡ self.now.claims.sure }
    {
        self.sure
    }

    /// Whether the last block is still being written.
    pub fn holds(&self) -> bool
        ensures { result ≡ self.now.claims.held }
    {
        self.held
    }

    /// The count that closed the lane.
    pub fn closed(&self) -> Option<u32>
        ensures { result ≡ self.now.claims.closed }
    {
        self.closed
    }

    /// Makes room for one more block.
    pub fn prepare(&mut self) -> Result<(), NoMemory>
        ensures room { OnOk result (0 < self.new.room) }
        ensures claims { self.new.claims ≡ self.old.claims }
        ensures unchanged { OnErr result (self.new ≡ self.old) }
    {
        if self.kept.reserve(1).is_err() {
            return Err(NoMemory);
        }
        Ok(())
    }

    /// Claims a block, which is written from now on. It fails only where there is no room for it.
    pub fn claim(&mut self, block: Block) -> Result<(), NoMemory>
        ensures claimed { OnOk result (self.new.claims ≡ claimed block self.old.claims) }
        ensures unchanged { OnErr result (self.new ≡ self.old) }
        ensures full { OnErr result (self.old.room ≡ 0) }
    {
        if self.kept.reserve(1).is_err() {
            return Err(NoMemory);
        }
        self.kept.push_reserved(block);
        self.held = true;
        Ok(())
    }

    /// The last block was written whole.
    pub fn sent(&mut self)
        ensures { self.new ≡ record self.old { claims = sent self.old.claims } }
    {
        self.held = false;
    }

    /// All blocks have landed.
    pub fn finish(&mut self)
        requires { IsLane self.old.claims }
        ensures { self.new ≡ record self.old { claims = finished self.old.claims } }
    {
        self.sure = self.kept.len() as u32;
        self.held = false;
    }

    /// Whether the lane's first n blocks may be those that have landed.
    pub fn check(&self, n: u32) -> Result<(), CheckFail>
        requires { IsLane self.now.claims }
        ensures { result_err result ≡ fault_of self.now.claims n }
    {
        if let Some(before) = self.closed {
            return if n == before {
                Ok(())
            } else {
                Err(CheckFail::Differs { n, before })
            };
        }
        let (low, high) = (self.sure, self.kept.len() as u32);
        if n < low || high < n {
            return Err(CheckFail::BadCheckpoint { n, low, high });
        }
        Ok(())
    }

    /// Keeps the first n blocks, which have landed, puts the others back, and answers how many.
    pub fn cut(&mut self, n: u32, queue: &mut Queue) -> u32
        requires lawful { IsLane self.old.claims }
        requires within { n ≤ length self.old.claims.kept }
        requires room { length (drop n self.old.claims.kept) ≤ queue.old.room }
        requires absent { AreDistinct (queue.old.waiting ++ drop n self.old.claims.kept) }
        ensures cut { self.new.claims ≡ cut_to n 0 self.old.claims }
        ensures kept_room { self.old.room ≤ self.new.room }
        ensures count { result ≡ length (drop n self.old.claims.kept) }
        ensures blocks { HaveSameBlocks queue.new.waiting (queue.old.waiting ++ drop n self.old.claims.kept) }
        ensures rising { IsTrue (are_rising queue.old.waiting) → IsTrue (are_rising queue.new.waiting) }
        ensures room { queue.new.room + result ≡ queue.old.room }
    {
        let back = &self.kept[n as usize..];
        let count = back.len() as u32;
        put_back(queue, back);
        self.kept.truncate(n as usize);
        self.sure = n;
        self.held = false;
        count
    }

    /// Keeps the first n blocks as `cut` does, and closes the lane.
    pub fn close(&mut self, n: u32, queue: &mut Queue) -> u32
        requires lawful { IsLane self.old.claims }
        requires within { n ≤ length self.old.claims.kept }
        requires room { length (drop n self.old.claims.kept) ≤ queue.old.room }
        requires absent { AreDistinct (queue.old.waiting ++ drop n self.old.claims.kept) }
        ensures closed { self.new.claims ≡ closed_at n 0 self.old.claims }
        ensures kept_room { self.old.room ≤ self.new.room }
        ensures count { result ≡ length (drop n self.old.claims.kept) }
        ensures blocks { HaveSameBlocks queue.new.waiting (queue.old.waiting ++ drop n self.old.claims.kept) }
        ensures rising { IsTrue (are_rising queue.old.waiting) → IsTrue (are_rising queue.new.waiting) }
        ensures room { queue.new.room + result ≡ queue.old.room }
    {
        let count = self.cut(n, queue);
        self.closed = Some(n);
        count
    }

    /// The place of a block, if it stands in the lane's list.
    pub fn place(&self, block: Block) -> Option<Place>
        ensures { result ≡ place_in block self.now.claims }
    {
        match index_of(&self.kept, block) {
            Some(index) => Some(self.place_at(index)),
            None => None,
        }
    }

    // The place of the block at an index of the list.
    fn place_at(&self, index: usize) -> Place
        requires { index < length self.now.claims.kept }
        ensures { result ≡ place_at self.now.claims index }
    {
        if index < self.sure as usize {
            return Place::Confirmed;
        }
        if self.held && index + 1 == self.kept.len() {
            Place::Held
        } else {
            Place::Unconfirmed
        }
    }
}

// The index of a block in a list.
fn index_of(blocks: &[Block], block: Block) -> Option<usize>
    ensures { result ≡ position (is_same block) blocks.now }
{
    blocks.iter().position(|other| block == *other)
}

// Puts blocks back into a queue that has room for them and none of them. The last goes first: a
// lane claims in the queue's order, so each of its blocks then comes before all that wait, and no
// other block moves.
fn put_back(queue: &mut Queue, blocks: &[Block])
    requires room { length blocks.now ≤ queue.old.room }
    requires absent { AreDistinct (queue.old.waiting ++ blocks.now) }
    ensures blocks { HaveSameBlocks queue.new.waiting (queue.old.waiting ++ blocks.now) }
    ensures rising { IsTrue (are_rising queue.old.waiting) → IsTrue (are_rising queue.new.waiting) }
    ensures room { queue.new.room + length blocks.now ≡ queue.old.room }
{
    for left in (0..blocks.len()).rev() {
        queue.put_back(blocks[left]);
    }
}
