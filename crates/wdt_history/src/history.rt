//! The claims of all lanes.
ghost use Rattle.std.specs.Prelude.{◌≡◌, ◌+◌, ◌<◌, ◌≤◌, ◌^◌, ◌++◌, length, map, replicate, count_by, Some, None, IsOk, IsSome, is_some, OnOk, OnErr, IfOk, IsTrue};
ghost use Rattle.std.specs.Result.{result_err};
ghost use Rattle.wdt_units.specs.declared.blocks.Block.{Block as PlainBlock};
ghost use Rattle.wdt_claims.specs.Blocks.{are_rising, count_of, AreDistinct, HaveSameBlocks};
ghost use Rattle.wdt_claims.specs.LaneWords.{no_claims, claimed, sent, cut_to, closed_at, finished};
ghost use Rattle.wdt_claims.specs.Checks.{fault_of, goes_back};
ghost use Rattle.wdt_claims.specs.Claimed.{lane_at, with_lane, count_kept, is_held, AreLanes};
ghost use Rattle.wdt_claims.specs.Places.{place_of};

use crate::lane::LaneClaims;
use std::alloc::Global;
use std::marker::Model;
use wdt_claims::{CheckFail, Place};
use wdt_queue::Queue;
use wdt_units::{Block, Lane, NoMemory};

/// What the lanes of a sender have claimed, seen as a list with the claims of each, beside the lane that
/// can claim a block without memory.
#[derive(Debug, Drop)]
pub struct History {
    lanes: Vec<LaneClaims>,
    // The lane whose list has room for one more block.
    ready: Option<Lane>,
}

impl Model for History {
    ghost use Rattle.std.specs.Prelude.{map};
    ghost use Rattle.wdt_history.specs.Slots.{Book, IsBook, claims_in};

    ghost Value = { Book };

    ghost view = { λ h. record { lanes = map claims_in h.lanes.items; ready = h.ready } };

    ghost invariant = { λ h. IsBook h.lanes.items h.ready };
}

impl History {
    /// The history of so many lanes that have claimed nothing.
    pub fn of(alloc: Global, lanes: u8) -> Result<History, NoMemory>
        ensures { IfOk result (λ history. history ≡ record { lanes = replicate lanes no_claims; ready = None }) }
    {
        let Ok(mut list) = Vec::with_capacity(alloc, lanes as usize) else {
            return Err(NoMemory);
        };
        for _ in 0..lanes {
            if list.push(LaneClaims::new(alloc)).is_err() {
                return Err(NoMemory);
            }
        }
        Ok(History {
            lanes: list,
            ready: None,
        })
    }

    /// Makes room for one more block of a lane, which it may claim next. `NoMemory` changes nothing.
    pub fn prepare(&mut self, lane: Lane) -> Result<(), NoMemory>
        requires { lane.0 < length self.old.lanes }
        ensures ready { OnOk result (self.new ≡ record self.old { ready = Some lane }) }
        ensures unchanged { OnErr result (self.new ≡ self.old) }
    {
        self.lanes[lane.0 as usize].prepare()?;
        self.ready = Some(lane);
        Ok(())
    }

    /// A lane claims a block that stands in no list, and begins to write it. On a lane that is
    /// prepared it never fails. `NoMemory` changes nothing.
    pub fn claim(&mut self, lane: Lane, block: Block) -> Result<(), NoMemory>
        requires lane { lane.0 < length self.old.lanes }
        requires still_open { (lane_at self.old.lanes lane.0).closed ≡ None }
        requires few { length (lane_at self.old.lanes lane.0).kept < 2 ^ 31 }
        requires absent { count_kept block self.old.lanes ≡ 0 }
        ensures claimed { OnOk result (self.new ≡ record { lanes = with_lane self.old.lanes lane.0 (claimed block (lane_at self.old.lanes lane.0)); ready = None }) }
        ensures unchanged { OnErr result (self.new ≡ self.old) }
        ensures succeeds { self.old.ready ≡ Some lane → IsOk result }
    {
        self.lanes[lane.0 as usize].claim(block)?;
        self.ready = None;
        Ok(())
    }

    /// A lane has written its last block whole.
    pub fn sent(&mut self, lane: Lane)
        requires { lane.0 < length self.old.lanes }
        ensures { self.new ≡ record self.old { lanes = with_lane self.old.lanes lane.0 (sent (lane_at self.old.lanes lane.0)) } }
    {
        self.lanes[lane.0 as usize].sent();
    }

    /// Whether a lane's first n blocks may be those that have landed: what `local` and `global` find
    /// wrong, before anything is changed.
    pub fn check(&self, lane: Lane, n: u32) -> Result<(), CheckFail>
        requires { lane.0 < length self.now.lanes }
        ensures { result_err result ≡ fault_of (lane_at self.now.lanes lane.0) n }
    {
        self.lanes[lane.0 as usize].check(n)
    }

    /// A lane that isn't closed connected again: the first n blocks of its list have landed. It keeps
    /// them, the others go back to the queue, and the answer is how many. `BadCheckpoint` where n is
    /// below the lane's sure count or above the length of its list. An error changes nothing.
    pub fn local(&mut self, lane: Lane, n: u32, queue: &mut Queue) -> Result<u32, CheckFail>
        requires lane { lane.0 < length self.old.lanes }
        requires still_open { (lane_at self.old.lanes lane.0).closed ≡ None }
        requires room { length (goes_back (lane_at self.old.lanes lane.0) n) ≤ queue.old.room }
        requires absent { AreDistinct (queue.old.waiting ++ goes_back (lane_at self.old.lanes lane.0) n) }
        ensures fault { result_err result ≡ fault_of (lane_at self.old.lanes lane.0) n }
        ensures cut { OnOk result (self.new ≡ record self.old { lanes = with_lane self.old.lanes lane.0 (cut_to n 0 (lane_at self.old.lanes lane.0)) }) }
        ensures count { IfOk result (λ count. count ≡ length (goes_back (lane_at self.old.lanes lane.0) n)) }
        ensures blocks { OnOk result (HaveSameBlocks queue.new.waiting (queue.old.waiting ++ goes_back (lane_at self.old.lanes lane.0) n)) }
        ensures rising { IsTrue (are_rising queue.old.waiting) → IsTrue (are_rising queue.new.waiting) }
        ensures room { IfOk result (λ count. queue.new.room + count ≡ queue.old.room) }
        ensures unchanged { OnErr result ((self.new ≡ self.old) × (queue.new ≡ queue.old)) }

        // Each block stands as often in the queue and the lists together as before.
        ensures kept { (block : PlainBlock) → count_of block queue.new.waiting + count_kept block self.new.lanes ≡ count_of block queue.old.waiting + count_kept block self.old.lanes }
    {
        let claims = &mut self.lanes[lane.0 as usize];
        claims.check(n)?;
        Ok(claims.cut(n, queue))
    }

    /// The receiver has closed a lane, whose first n blocks have landed: as `local`, and the lane is
    /// closed. On a lane that is closed already nothing changes, and the answer is 0; `Differs` where
    /// n isn't the count that closed it.
    pub fn global(&mut self, lane: Lane, n: u32, queue: &mut Queue) -> Result<u32, CheckFail>
        requires lane { lane.0 < length self.old.lanes }
        requires room { length (goes_back (lane_at self.old.lanes lane.0) n) ≤ queue.old.room }
        requires absent { AreDistinct (queue.old.waiting ++ goes_back (lane_at self.old.lanes lane.0) n) }
        ensures fault { result_err result ≡ fault_of (lane_at self.old.lanes lane.0) n }
        ensures closes { OnOk result ((lane_at self.old.lanes lane.0).closed ≡ None
            → self.new ≡ record self.old { lanes = with_lane self.old.lanes lane.0 (closed_at n 0 (lane_at self.old.lanes lane.0)) }) }
        ensures closed { IsSome (lane_at self.old.lanes lane.0).closed → (self.new ≡ self.old) × (queue.new ≡ queue.old) }
        ensures count { IfOk result (λ count. count ≡ length (goes_back (lane_at self.old.lanes lane.0) n)) }
        ensures blocks { OnOk result (HaveSameBlocks queue.new.waiting (queue.old.waiting ++ goes_back (lane_at self.old.lanes lane.0) n)) }
        ensures rising { IsTrue (are_rising queue.old.waiting) → IsTrue (are_rising queue.new.waiting) }
        ensures room { IfOk result (λ count. queue.new.room + count ≡ queue.old.room) }
        ensures unchanged { OnErr result ((self.new ≡ self.old) × (queue.new ≡ queue.old)) }

        // Each block stands as often in the queue and the lists together as before.
        ensures kept { (block : PlainBlock) → count_of block queue.new.waiting + count_kept block self.new.lanes ≡ count_of block queue.old.waiting + count_kept block self.old.lanes }
    {
        let claims = &mut self.lanes[lane.0 as usize];
        claims.check(n)?;
        if claims.closed().is_some() {
            return Ok(0);
        }
        Ok(claims.close(n, queue))
    }

    /// All blocks of all lanes have landed.
    pub fn finish(&mut self)
        ensures { self.new ≡ record self.old { lanes = map finished self.old.lanes } }
    {
        for lane in self.lanes.iter_mut() {
            lane.finish();
        }
    }

    /// A lane's blocks in the order in which it claimed them.
    pub fn kept(&self, lane: Lane) -> &[Block]
        requires { lane.0 < length self.now.lanes }
        ensures kept { result.now ≡ (lane_at self.now.lanes lane.0).kept }
        ensures lawful { AreLanes self.now.lanes }
    {
        self.lanes[lane.0 as usize].kept()
    }

    /// How many of the first blocks of a lane have surely landed.
    pub fn sure(&self, lane: Lane) -> u32
        requires { lane.0 < length self.now.lanes }
        ensures { result ≡ (lane_at self.now.lanes lane.0).sure }
    {
        self.lanes[lane.0 as usize].sure()
    }

    /// Whether a lane is closed.
    pub fn closed(&self, lane: Lane) -> bool
        requires { lane.0 < length self.now.lanes }
        ensures { result ≡ is_some (lane_at self.now.lanes lane.0).closed }
    {
        self.lanes[lane.0 as usize].closed().is_some()
    }

    /// How many lanes have a block that is still being written.
    pub fn holding(&self) -> u32
        ensures { result ≡ count_by is_held self.now.lanes }
    {
        self.lanes.iter().filter(|lane| lane.holds()).count() as u32
    }

    /// Where a block stands.
    pub fn place(&self, block: Block) -> Place
        ensures { result ≡ place_of block self.now.lanes }
    {
        for lane in &self.lanes {
            if let Some(place) = lane.place(block) {
                return place;
            }
        }
        Place::Queued
    }
}
