//! The receiver tells what the destination has.
ghost use Rattle.std.specs.Prelude.{◌≡◌, ◌<◌, List, length, option_map, None, IfOk, OnErr};
ghost use Rattle.wdt_units.specs.Have.{HaveFile};
ghost use Rattle.wdt_sender_fsm.specs.Chunks.{different_at, refusal, unordered_at};
ghost use Rattle.wdt_sender_fsm.specs.Turn.{listed, listed_again, planned_by};

use crate::end::SendEnd;
use crate::planning::{plan_for, queue_of};
use wdt_ranges::Have;
use wdt_sender_fsm::{EndAnswer, PeerKind, SendAct, SendEvent, different_at, unordered_at};
use wdt_units::{Lane, NoMemory};

impl SendEnd {
    /// The receiver told what the destination has. The first that is told is planned for; each later
    /// one must be the same.
    pub fn read_chunks(&mut self, lane: Lane, have: &Have) -> Result<SendAct, NoMemory>
        requires { lane.0 < length self.old.plain.lanes }
        ensures ok { IfOk result (λ act. listed self.old.plain lane have.now ≡ (act, self.new.plain)) }
        ensures err { OnErr result (self.new.plain ≡ self.old.plain) }
    {
        if let Some(at) = unordered_at(have.files()) {
            return self.find_fault(lane, PeerKind::BadChunks { at });
        }
        match self.difference(have) {
            None => self.read_first_chunks(lane, have),
            Some(difference) => self.read_later_chunks(lane, difference),
        }
    }

    // Where what is told differs from what was told first, if anything was: None where nothing was.
    fn difference(&self, have: &Have) -> Option<Option<u32>>
        ensures { result ≡ option_map (λ first. different_at first have.now) self.now.plain.have }
    {
        match &self.have {
            None => None,
            Some(first) => Some(different_at(first.files(), have.files())),
        }
    }

    // What the destination has was told before, and differs at this place, if at any.
    fn read_later_chunks(
        &mut self,
        lane: Lane,
        difference: Option<u32>,
    ) -> Result<SendAct, NoMemory>
        requires { lane.0 < length self.old.plain.lanes }
        ensures ok { IfOk result (λ act. (have : List HaveFile) → listed_again self.old.plain lane have difference ≡ (act, self.new.plain)) }
        ensures err { OnErr result (self.new.plain ≡ self.old.plain) }
    {
        if let Some(at) = difference {
            return self.find_fault(lane, PeerKind::ChunksDiffer { at });
        }
        self.prepare(lane)?;
        self.note(SendEvent::Chunks(lane));
        Ok(self.write_size(lane))
    }

    // What the destination has is told first: the blocks that it lacks are planned, or the tree isn't
    // sent.
    fn read_first_chunks(&mut self, lane: Lane, have: &Have) -> Result<SendAct, NoMemory>
        requires lane { lane.0 < length self.old.plain.lanes }
        requires order { unordered_at have.now ≡ None }
        requires unlisted { self.old.plain.have ≡ None }
        ensures ok { IfOk result (λ act. planned_by self.old.plain lane have.now (refusal self.old.plain.manifest have.now self.old.plain.block) ≡ (act, self.new.plain)) }
        ensures err { OnErr result (self.new.plain ≡ self.old.plain) }
    {
        let alloc = *self.lanes.allocator();
        let blocks = match plan_for(alloc, &self.manifest, have, self.block)? {
            Ok(blocks) => blocks,
            Err(kind) => return Ok(self.fail_with(lane, false, EndAnswer::Refused(kind))),
        };
        let queue = queue_of(alloc, &blocks)?;
        let have = have.copy()?;
        self.prepare(lane)?;
        self.plan(have, blocks, queue);
        self.note(SendEvent::Chunks(lane));
        Ok(self.write_size(lane))
    }
}
