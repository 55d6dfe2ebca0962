//! The queue.
ghost use Rattle.std.specs.Prelude.{◌≡◌, ℕ, ◌+◌, ◌<◌, ◌^◌, ◌↔◌, [], ◌∷◌, length, vec_len, IfOk, IsTrue};
ghost use Rattle.wdt_claims.specs.Blocks.{are_rising, count_of, AreDistinct, HaveSameBlocks};
ghost use Rattle.wdt_queue.specs.Waiting.{TakesLeast};

use std::marker::Model;
use wdt_units::{Block, NoMemory};

/// The blocks that wait to be sent, seen as a list in their order and the room that is left.
#[derive(Debug, Drop)]
pub struct Queue {
    // The greatest first, so that the least is taken from the end.
    blocks: Vec<Block>,
    // How many blocks the room that was made can hold.
    most: u32,
}

impl Model for Queue {
    ghost use Rattle.wdt_queue.specs.Waiting.{Waiting};

    ghost Value = { Waiting };

    ghost use Rattle.wdt_queue.specs.Inside.{seen, IsQueue};

    ghost view = { seen };

    ghost invariant = { IsQueue };
}

impl Queue {
    /// The queue of these blocks, no two of which are the same. It has room for just these.
    pub fn of(mut blocks: Vec<Block>) -> Result<Queue, NoMemory>
        requires few { vec_len blocks < 2 ^ 31 }
        requires distinct { AreDistinct blocks.items }
        ensures rising { IfOk result (λ queue. IsTrue (are_rising queue.waiting)) }
        ensures blocks { IfOk result (λ queue. HaveSameBlocks queue.waiting blocks.items) }
        ensures room { IfOk result (λ queue. queue.room ≡ 0) }
    {
        let Ok(()) = blocks.sort() else {
            return Err(NoMemory);
        };
        blocks.reverse();
        let most = blocks.len() as u32;
        Ok(Queue { blocks, most })
    }

    /// Takes the least block, by file, then by offset, then by length. None exactly where no block
    /// waits.
    pub fn take(&mut self) -> Option<Block>
        ensures taken { TakesLeast self.old result self.new }
        ensures limit { length self.new.waiting + self.new.room < 2 ^ 31 }
    {
        self.blocks.pop()
    }

    /// Puts a block to its place in the order.
    pub fn put_back(&mut self, block: Block)
        requires room { 0 < self.old.room }
        requires absent { count_of block self.old.waiting ≡ 0 }
        ensures rising { IsTrue (are_rising self.new.waiting) }
        ensures blocks { HaveSameBlocks self.new.waiting (block ∷ self.old.waiting) }
        ensures room { self.new.room + 1 ≡ self.old.room }
    {
        let place = self.blocks.partition_point(|other| block < *other);
        self.blocks.insert(place, block).unwrap();
    }

    /// How many blocks wait.
    pub fn len(&self) -> u32
        ensures count { result ≡ length self.now.waiting }
        ensures limit { length self.now.waiting + self.now.room < 2 ^ 31 }
        ensures rising { IsTrue (are_rising self.now.waiting) }
    {
        self.blocks.len() as u32
    }

    /// Whether no block waits.
    pub fn is_empty(&self) -> bool
        ensures { IsTrue result ↔ (self.now.waiting ≡ []) }
    {
        self.blocks.is_empty()
    }
}
