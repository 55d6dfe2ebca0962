//! A writer of blocks.
ghost use Rattle.std.specs.Prelude.{◌≡◌, ◌+◌, ◌<◌, ◌≤◌, [], false, true, length, IfErr, IfOk, IsErrOf, IsSome, IsTrue, None, OnErr, OnOk, Some};
ghost use Rattle.wdt_units.specs.declared.limits.TheConstants.{MAX_LANES, PIECE};
ghost use Rattle.wdt_units.specs.Headers.{FitsHeader};
ghost use Rattle.wdt_depot.specs.Disk.{wrote};
ghost use Rattle.wdt_depot.specs.Moments.{IfTold};
ghost use Rattle.wdt_logfmt.specs.Beginning.{block_of, is_new};
ghost use Rattle.wdt_logfmt.specs.View.{is_view, named_files};
ghost use Rattle.wdt_good.specs.Calls.{run_piece};
ghost use Rattle.wdt_writer.specs.Answers.{IsAnswered, IsNoRefusal, IsSameOrSettled, fault_at};
ghost use Rattle.wdt_writer.specs.Calls.{CanMake, CanWrite, UsesDisk, path_begun, place_begun};
ghost use Rattle.wdt_writer.specs.PlainWriter.{all_logged, begins, begun_at, begun_on, drops, gives_back, lands, opened, part_at, run_begin, taken_back, takes};

mod asking;

use crate::beginning::number_for;
use crate::fail::WriteFail;
use crate::faults::fault;
use crate::landing::{Last, Stood, append_entries, keep_landed, settle};
use crate::parts::{Part, part_on, place_of, whole};
use crate::writing::write_to;
use std::alloc::Global;
use std::marker::Model;
use wdt_depot::Depot;
use wdt_files::Files;
use wdt_logfmt::{LogEntry, LogView};
use wdt_units::{Block, Header, Lane, NoMemory};

/// Blocks on their way into files, and what is to be logged of those that landed.
///
/// A call that isn't a landing or its taking back ends that the last landing can be taken back.
#[derive(Debug, Drop)]
pub struct Writer {
    // Without the block that landed last.
    files: Files,
    // What is to be logged of the blocks that landed, those blocks, and how many bytes they have.
    pending: Vec<LogEntry>,
    unlogged: Vec<Block>,
    unlogged_bytes: u64,
    // By lane: the block that is begun.
    parts: Vec<Option<Part>>,
    last: Option<Last>,
}

impl Model for Writer {
    ghost use Rattle.wdt_writer.specs.PlainWriter.{PlainWriter};

    ghost Value = { PlainWriter };

    ghost use Rattle.wdt_writer.specs.View.{IsKept, seen};

    ghost view = { seen };

    ghost invariant = { IsKept };
}

impl Writer {
    /// A writer of so many lanes, none of which has a begun block, over the files that a log names.
    pub fn of(alloc: Global, view: &LogView, lanes: u8) -> Result<Writer, NoMemory>
        requires view { IsTrue (is_view (named_files (view.now).files.items)) }
        requires lanes { lanes ≤ MAX_LANES }
        ensures { IfOk result (λ writer. writer ≡ opened (named_files (view.now).files.items) lanes) }
    {
        let files = Files::of(alloc, view)?;
        let mut parts = Vec::new(alloc);
        if parts.resize(lanes as usize, None).is_err() {
            return Err(NoMemory);
        }
        Ok(Writer {
            files,
            pending: Vec::new(alloc),
            unlogged: Vec::new(alloc),
            unlogged_bytes: 0,
            parts,
            last: None,
        })
    }

    /// Begins the header's block on a lane on which none is begun. Where its file is new, the file is made
    /// and gets the least number that no known file has.
    ///
    /// The block is refused where its file is known with another size or stamp, where a position of it is
    /// there or on its way, or where there would be more files, spans or bytes than a transfer may have;
    /// tried in this order, before any call on the disk. `Disk` comes only where the depot counted a fault.
    /// After `NoMemory` a new file may have been made; it isn't known then.
    pub fn begin<D: Depot>(
        &mut self,
        depot: &mut D,
        lane: Lane,
        header: &Header,
    ) -> Result<Block, WriteFail>
        requires lane { lane.0 < length (self.old).parts }
        requires idle { part_at self.old lane.0 ≡ None }
        requires header { FitsHeader header.now }
        requires spots { (D.state depot.old).spots ≡ [] }
        ensures block { IfOk result (λ block. block ≡ block_of (self.old).known header.now) }
        ensures begun { OnOk result (self.new ≡ begins self.old lane.0 header.now) }
        ensures unchanged { OnErr result (IsSameOrSettled self.old self.new) }
        ensures refused { IsAnswered (fault_at self.old header.now) result }
        ensures untouched { IsSome (fault_at self.old header.now) → D.state depot.new ≡ D.state depot.old }
        ensures never { is_new (self.old).known header.now ≡ false → IsErrOf result WriteFail.Disk → ⊥ }
        ensures disk { fault_at self.old header.now ≡ None → UsesDisk (CanMake (self.old).known header.now) (begun_on (self.old).known header.now)
            (run_begin (self.old).known header.now) result (D.state depot.old) (D.state depot.new) }
        ensures up { is_new (self.old).known header.now ≡ true → OnOk result ((D.state depot.new).stop.struck ≡ None) }
        ensures slips { (D.state depot.new).slips ≡ (D.state depot.old).slips }
    {
        settle(&mut self.files, &mut self.last)?;
        if let Some(fail) = fault(&self.files, &self.parts, header) {
            return Err(fail);
        }
        let number = number_for(depot, &mut self.files, header)?;
        let block = Block {
            file: number,
            offset: header.offset,
            length: header.length,
        };
        self.parts[lane.0 as usize] = Some(whole(block));
        Ok(block)
    }

    /// Writes bytes at the next place of the lane's block, and answers how many are left: 1 to 65,536
    /// bytes, and no more than are left.
    ///
    /// `Disk` comes only where the depot counted a fault; no other failure comes but `NoMemory`, after which
    /// nothing has changed on the disk either.
    pub fn piece<D: Depot>(
        &mut self,
        depot: &mut D,
        lane: Lane,
        bytes: &[u8],
    ) -> Result<u32, WriteFail>
        requires some { 0 < length bytes.now }
        requires most { length bytes.now ≤ PIECE }
        requires left { length bytes.now ≤ (begun_at self.old lane.0).left }
        requires spots { (D.state depot.old).spots ≡ [] }
        ensures left { IfOk result (λ left. left + length bytes.now ≡ (begun_at self.old lane.0).left) }
        ensures taken { OnOk result (self.new ≡ takes self.old lane.0 (length bytes.now)) }
        ensures unchanged { OnErr result (self.new ≡ self.old) }
        ensures fails { IfErr result IsNoRefusal }
        ensures disk { UsesDisk (CanWrite (path_begun self.old lane.0) (place_begun self.old lane.0) (length bytes.now)) (wrote (path_begun self.old lane.0) (place_begun self.old lane.0) bytes.now)
            (run_piece (path_begun self.old lane.0) (place_begun self.old lane.0) bytes.now) result (D.state depot.old) (D.state depot.new) }
        ensures memory { IsErrOf result WriteFail.NoMemory → (D.state depot.new).told ≡ (D.state depot.old).told }
        ensures up { OnOk result ((D.state depot.new).stop.struck ≡ None) }
        ensures slips { IfTold (λ t. IsSome (t.now (path_begun self.old lane.0)) → (D.state depot.new).slips ≡ (D.state depot.old).slips) (D.state depot.old).told }
    {
        let Some(part) = part_on(&self.parts, lane) else {
            unreachable!();
        };
        write_to(depot, &self.files, part.block.file, place_of(part), bytes)?;
        let left = part.left - bytes.len() as u32;
        self.parts[lane.0 as usize] = Some(Part {
            block: part.block,
            left,
        });
        keep_landed(&mut self.last);
        Ok(left)
    }

    /// So many bytes of the lane's block are to come again. It takes no memory.
    pub fn unpiece(&mut self, lane: Lane, count: u32)
        requires begun { IsSome (part_at self.old lane.0) }
        requires written { (begun_at self.old lane.0).left + count ≤ (begun_at self.old lane.0).block.length }
        ensures { self.new ≡ gives_back self.old lane.0 count }
    {
        keep_landed(&mut self.last);
        if let Some(part) = part_on(&self.parts, lane) {
            self.parts[lane.0 as usize] = Some(Part {
                block: part.block,
                left: part.left + count,
            });
        }
    }

    /// The lane's block lands, of which no byte is left. After want of memory nothing has changed, but that
    /// the landing before can't be taken back any more.
    pub fn land(&mut self, lane: Lane) -> Result<Block, NoMemory>
        requires begun { IsSome (part_at self.old lane.0) }
        requires whole { (begun_at self.old lane.0).left ≡ 0 }
        ensures block { IfOk result (λ block. block ≡ (begun_at self.old lane.0).block) }
        ensures landed { OnOk result (self.new ≡ lands self.old lane.0 (begun_at self.old lane.0).block) }
        ensures unchanged { OnErr result (IsSameOrSettled self.old self.new) }
    {
        settle(&mut self.files, &mut self.last)?;
        let Some(part) = part_on(&self.parts, lane) else {
            unreachable!();
        };
        if self.unlogged.reserve(1).is_err() {
            return Err(NoMemory);
        }
        let entries = self.pending.len();
        append_entries(&self.files, part.block, &mut self.pending)?;
        let stood = Stood {
            lane,
            entries,
            blocks: self.unlogged.len(),
            bytes: self.unlogged_bytes,
        };
        self.unlogged.push_reserved(part.block);
        self.unlogged_bytes += u64::from(part.block.length);
        self.parts[lane.0 as usize] = None;
        self.last = Some(Last {
            block: part.block,
            before: Some(stood),
        });
        Ok(part.block)
    }

    /// The last landing is taken back, where that can be. It takes no memory.
    pub fn unland(&mut self)
        ensures { self.new ≡ taken_back self.old }
    {
        let Some(last) = self.last else {
            return;
        };
        let Some(stood) = last.before else {
            return;
        };
        self.pending.truncate(stood.entries);
        self.unlogged.truncate(stood.blocks);
        self.unlogged_bytes = stood.bytes;
        self.parts[stood.lane.0 as usize] = Some(Part {
            block: last.block,
            left: 0,
        });
        self.last = None;
    }

    /// Begins the header's block, which is empty, and lands it in one. It is refused, and fails, as where it
    /// begins. What the landing needs of memory is taken before any call on the disk.
    pub fn place<D: Depot>(
        &mut self,
        depot: &mut D,
        lane: Lane,
        header: &Header,
    ) -> Result<Block, WriteFail>
        requires lane { lane.0 < length (self.old).parts }
        requires idle { part_at self.old lane.0 ≡ None }
        requires header { FitsHeader header.now }
        requires empty { (header.now).length ≡ 0 }
        requires spots { (D.state depot.old).spots ≡ [] }
        ensures block { IfOk result (λ block. block ≡ block_of (self.old).known header.now) }
        ensures placed { OnOk result (self.new ≡ lands (begins self.old lane.0 header.now) lane.0 (block_of (self.old).known header.now)) }
        ensures unchanged { OnErr result (IsSameOrSettled self.old self.new) }
        ensures refused { IsAnswered (fault_at self.old header.now) result }
        ensures untouched { IsSome (fault_at self.old header.now) → D.state depot.new ≡ D.state depot.old }
        ensures never { is_new (self.old).known header.now ≡ false → IsErrOf result WriteFail.Disk → ⊥ }
        ensures disk { fault_at self.old header.now ≡ None → UsesDisk (CanMake (self.old).known header.now) (begun_on (self.old).known header.now)
            (run_begin (self.old).known header.now) result (D.state depot.old) (D.state depot.new) }
        ensures up { is_new (self.old).known header.now ≡ true → OnOk result ((D.state depot.new).stop.struck ≡ None) }
        ensures slips { (D.state depot.new).slips ≡ (D.state depot.old).slips }
    {
        settle(&mut self.files, &mut self.last)?;
        if let Some(fail) = fault(&self.files, &self.parts, header) {
            return Err(fail);
        }
        self.pending.reserve(1)?;
        self.unlogged.reserve(1)?;
        let path = header.path.copy()?;
        let number = number_for(depot, &mut self.files, header)?;
        let block = Block {
            file: number,
            offset: header.offset,
            length: header.length,
        };
        let stood = Stood {
            lane,
            entries: self.pending.len(),
            blocks: self.unlogged.len(),
            bytes: self.unlogged_bytes,
        };
        self.pending.push_reserved(LogEntry::File {
            number,
            path,
            size: header.size,
            stamp: header.stamp,
        });
        self.unlogged.push_reserved(block);
        self.last = Some(Last {
            block,
            before: Some(stood),
        });
        Ok(block)
    }

    /// The lane's block isn't begun any more. It takes no memory.
    pub fn drop_part(&mut self, lane: Lane)
        requires { lane.0 < length (self.old).parts }
        ensures { self.new ≡ drops self.old lane.0 }
    {
        self.parts[lane.0 as usize] = None;
        keep_landed(&mut self.last);
    }

    /// All that landed is logged.
    pub fn logged(&mut self)
        ensures { self.new ≡ all_logged self.old }
    {
        self.pending.clear();
        self.unlogged.clear();
        self.unlogged_bytes = 0;
        keep_landed(&mut self.last);
    }
}
