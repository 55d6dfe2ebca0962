//! The blocks that a sender knows to have landed.
ghost use Rattle.std.specs.Prelude.{◌≡◌, ◌<◌, ◌^◌, length, sum_by, take, IfOk};
ghost use Rattle.wdt_claims.specs.LaneWords.{no_claims};
ghost use Rattle.wdt_logfmt.specs.Beginning.{length_of};
ghost use Rattle.wdt_sender_fsm.specs.SenderHistory.{past_of};
ghost use Rattle.wdt_report.specs.Sent.{sure_blocks_in, sure_bytes_in};
ghost use Rattle.wdt_report.specs.Kept.{close_kept, cut_kept, kept_after, kept_of};

use std::alloc::Global;
use std::marker::Model;
use wdt_sender_fsm::SendEvent;
use wdt_units::{Block, Lane, MAX_LANES, NoMemory};

/// What has surely landed by a sender's history.
#[derive(Clone, Copy)]
pub struct Sure {
    /// How many blocks.
    pub blocks: u128,
    /// How many bytes they have.
    pub bytes: u128,
}

/// Counts what has surely landed on the lanes that a transfer may have, one lane after the other.
pub fn count_sure(alloc: Global, history: &[SendEvent]) -> Result<Sure, NoMemory>
    ensures blocks { IfOk result (λ sure. sure.blocks ≡ sure_blocks_in history.now) }
    ensures bytes { IfOk result (λ sure. sure.bytes ≡ sure_bytes_in history.now) }
{
    let mut blocks: u128 = 0;
    let mut bytes: u128 = 0;
    for lane in 0..MAX_LANES {
        let kept = follow(alloc, history, Lane(lane))?;
        blocks += u128::from(kept.sure());
        bytes += bytes_of(&kept.into_sure());
    }
    Ok(Sure { blocks, bytes })
}

// What a lane's list is behind a history.
fn follow(alloc: Global, history: &[SendEvent], lane: Lane) -> Result<Kept, NoMemory>
    ensures { IfOk result (λ kept. kept ≡ kept_of (past_of history.now lane.0).claims) }
{
    let mut kept = Kept::none(alloc);
    for event in history {
        kept.note(lane, event)?;
    }
    Ok(kept)
}

// How many bytes the blocks have.
fn bytes_of(blocks: &[Block]) -> u128
    ensures value { result ≡ sum_by length_of blocks.now }
    ensures few { result < 2 ^ 96 }
{
    let mut bytes: u128 = 0;
    for block in blocks {
        bytes += u128::from(block.length);
    }
    bytes
}

// The blocks on a lane's list, how many of the first of them have surely landed, and whether the lane
// is closed.
#[derive(Drop)]
struct Kept {
    blocks: Vec<Block>,
    sure: u64,
    is_closed: bool,
}

impl Model for Kept {
    ghost use Rattle.wdt_report.specs.Kept.{KeptView};

    ghost Value = { KeptView };

    ghost view = { λ s. record { blocks = s.blocks.items; sure = s.sure; is_closed = s.is_closed } };

    ghost invariant = { λ _. Unit {0} };
}

impl Kept {
    // Of a lane that has claimed nothing.
    fn none(alloc: Global) -> Kept
        ensures { result ≡ kept_of no_claims }
    {
        Kept {
            blocks: Vec::new(alloc),
            sure: 0,
            is_closed: false,
        }
    }

    fn sure(&self) -> u64
        ensures { result ≡ self.now.sure }
    {
        self.sure
    }

    // The blocks that have surely landed.
    fn into_sure(self) -> Vec<Block>
        ensures { result.items ≡ take self.sure self.blocks }
    {
        let Kept {
            mut blocks,
            sure,
            ..
        } = self;
        blocks.truncate(sure as usize);
        blocks
    }

    // Notes an entry.
    fn note(&mut self, lane: Lane, event: &SendEvent) -> Result<(), NoMemory>
        ensures { IfOk result (λ _. self.new ≡ kept_after lane.0 self.old event.now) }
    {
        match *event {
            SendEvent::Claim(of, block) => {
                if of.0 == lane.0 {
                    self.blocks.push(block)?;
                }
                Ok(())
            }
            SendEvent::Greet(of, n) => {
                if of.0 == lane.0 {
                    self.cut(n);
                }
                Ok(())
            }
            SendEvent::Global(_, of, n) => {
                if of.0 == lane.0 {
                    self.close(n);
                }
                Ok(())
            }
            SendEvent::Finish(_) => {
                self.sure = self.blocks.len() as u64;
                Ok(())
            }
            _ => Ok(()),
        }
    }

    // The first n blocks have landed, and the others are on the list no more.
    fn cut(&mut self, n: u32)
        ensures { self.new ≡ cut_kept n self.old }
    {
        self.blocks.truncate(n as usize);
        self.sure = u64::from(n);
    }

    // The same, and the lane is closed, unless it was closed before.
    fn close(&mut self, n: u32)
        ensures { self.new ≡ close_kept self.old.is_closed n self.old }
    {
        if self.is_closed {
            return;
        }
        self.cut(n);
        self.is_closed = true;
    }
}
