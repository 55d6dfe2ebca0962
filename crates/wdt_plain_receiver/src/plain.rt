//! A plain receiver: the whole history as a list, and a plain disk.
use crate::disk::Disk;
use crate::lanes::{LANES, place_of};
use crate::numbers::Numbers;
use crate::past;
use std::alloc::Global;
use wdt_receiver_fsm::{RecvEvent, RecvLane, RecvState};
use wdt_sender_fsm::{EndAnswer, PeerKind};
use wdt_units::{Block, Lane, NoMemory};

/// How a plain end fares.
#[derive(Clone, Copy, Debug, PartialEq, Eq)]
pub enum Answer {
    Going,
    Done,
    Link,
    Disk,
    NoMemory,
    Peer(PeerKind),
    Aborted(u8),
}

impl Answer {
    /// Whether the end has failed.
    pub fn is_failure(self) -> bool {
        !matches!(self, Answer::Going | Answer::Done | Answer::Link)
    }

    /// The code by which a failed end tells the other of it.
    pub fn code(self) -> u8 {
        match self {
            Answer::Going | Answer::Done => 0,
            Answer::Disk => 3,
            Answer::Link => 4,
            Answer::Peer(_) => 5,
            Answer::Aborted(code) => code,
            Answer::NoMemory => 10,
        }
    }

    /// Whether an end says the same.
    pub fn is_that_of(self, found: &EndAnswer) -> bool {
        match (self, found) {
            (Answer::Going, EndAnswer::Going) => true,
            (Answer::Done, EndAnswer::Done) => true,
            (Answer::Link, EndAnswer::Link) => true,
            (Answer::Disk, EndAnswer::Disk) => true,
            (Answer::NoMemory, EndAnswer::NoMemory) => true,
            (Answer::Peer(kind), EndAnswer::Peer(told)) => kind == *told,
            (Answer::Aborted(code), EndAnswer::Aborted(told)) => code == *told,
            _ => false,
        }
    }
}

/// What a log says: the files that it names, each at its number, and the blocks that it covers.
#[derive(Drop)]
pub struct PlainLog {
    pub files: Numbers,
    pub blocks: Vec<Block>,
}

impl PlainLog {
    /// The log that names no file.
    pub fn none(alloc: Global) -> PlainLog {
        PlainLog {
            files: Numbers::none(alloc),
            blocks: Vec::new(alloc),
        }
    }

    /// Whether it names a file.
    pub fn names(&self, number: u32) -> bool {
        self.files.file_at(number).is_some()
    }
}

/// A receiver's end as its definition has it.
#[derive(Drop)]
pub struct Plain {
    pub alloc: Global,
    pub disk: Disk,
    pub lanes: [RecvLane; LANES as usize],
    pub history: Vec<RecvEvent>,
    pub answer: Answer,
    /// What the log said as the end began.
    pub opening: PlainLog,
    /// The files by number.
    pub known: Numbers,
    /// From so many bytes on what landed is logged.
    batch: u64,
    /// How many of the blocks that landed the log covers, as it reads now.
    pub logged: usize,
    /// How many it covers surely, after a stop as well.
    pub stable: usize,
    /// How many it may cover after a stop.
    pub possible: usize,
}

impl Plain {
    /// An end that begins behind a log.
    pub fn of(alloc: Global, disk: Disk, opening: PlainLog, batch: u64) -> Result<Plain, NoMemory> {
        let known = opening.files.copy(alloc)?;
        let lane = RecvLane {
            state: RecvState::Listen,
            ask: false,
            is_sized: false,
            has_waited: false,
            left: 0,
            conn: 0,
        };
        Ok(Plain {
            alloc,
            disk,
            lanes: [lane; LANES as usize],
            history: Vec::new(alloc),
            answer: Answer::Going,
            opening,
            known,
            batch,
            logged: 0,
            stable: 0,
            possible: 0,
        })
    }

    /// Whether each lane has ended.
    pub fn is_over(&self) -> bool {
        self.lanes.iter().all(|lane| lane.state == RecvState::Ended)
    }

    /// Whether the end is done.
    pub fn is_done(&self) -> bool {
        self.answer == Answer::Done
    }

    /// The disk alone.
    pub fn into_disk(self) -> Disk {
        self.disk
    }

    /// How a lane stands.
    pub fn lane(&self, lane: Lane) -> RecvLane {
        self.lanes[place_of(lane)]
    }

    /// Notes an entry.
    pub fn note(&mut self, event: RecvEvent) -> Result<(), NoMemory> {
        self.history.push(event)?;
        Ok(())
    }

    /// A lane goes on to a state, and the answer follows.
    pub fn go(&mut self, lane: Lane, state: RecvState) {
        self.lanes[place_of(lane)].state = state;
        if self.answer.is_failure() {
            return;
        }
        let mut is_done = past::has_finish(&self.history);
        let mut is_over = true;
        for number in 0..LANES {
            let lane = Lane(number);
            if !past::is_acked(&self.history, lane) && !past::is_closed(&self.history, lane) {
                is_done = false;
            }
            if self.lane(lane).state != RecvState::Ended {
                is_over = false;
            }
        }
        self.answer = match (is_done, is_over) {
            (true, _) => Answer::Done,
            (false, true) => Answer::Link,
            (false, false) => Answer::Going,
        };
    }

    /// The blocks that are there: those of the log as the end began, and those that landed.
    pub fn blocks(&self) -> Result<Vec<Block>, NoMemory> {
        let mut blocks = past::landed(self.alloc, &self.history)?;
        blocks.extend_from_slice(&self.opening.blocks)?;
        Ok(blocks)
    }

    /// The blocks that are there and those that are on their way.
    pub fn taken(&self) -> Result<Vec<Block>, NoMemory> {
        let mut blocks = self.blocks()?;
        for number in 0..LANES {
            if let Some(block) = past::begun(&self.history, Lane(number)) {
                blocks.push(block)?;
            }
        }
        Ok(blocks)
    }

    /// The file of a number.
    pub fn file_at(&self, number: u32) -> usize {
        self.known.file_at(number).unwrap_or(0)
    }

    /// How many files are named and how many bytes are there.
    pub fn totals(&self) -> Result<(u32, u64), NoMemory> {
        let blocks = self.blocks()?;
        let mut files: u32 = 0;
        let mut bytes: u64 = 0;
        for number in 0..self.known.end() {
            if self.opening.names(number) || blocks.iter().any(|block| block.file == number) {
                files = files.saturating_add(1);
            }
        }
        for block in &blocks {
            bytes = bytes.saturating_add(u64::from(block.length));
        }
        Ok((files, bytes))
    }

    /// Whether so much has landed since the log was last added to that it is time again.
    pub fn is_batch_full(&self) -> Result<bool, NoMemory> {
        let landed = past::landed(self.alloc, &self.history)?;
        let mut bytes: u64 = 0;
        for block in landed.iter().skip(self.logged) {
            bytes = bytes.saturating_add(u64::from(block.length));
        }
        Ok(bytes >= self.batch)
    }

    /// All that landed is logged: its files are synced, the batch is written behind the closed gate and
    /// synced, and the gate is opened and synced. Answers whether no call failed.
    pub fn flush(&mut self) -> Result<bool, NoMemory> {
        let landed = past::landed(self.alloc, &self.history)?;
        if landed.len() <= self.logged {
            return Ok(true);
        }
        for number in 0..self.known.end() {
            let is_new = landed
                .iter()
                .skip(self.logged)
                .any(|block| block.file == number);
            if is_new && !self.disk.call() {
                return Ok(false);
            }
        }
        if !self.disk.call() || !self.disk.call() {
            return Ok(false);
        }
        self.possible = landed.len();
        if !self.disk.call() {
            return Ok(false);
        }
        self.logged = landed.len();
        if !self.disk.call() {
            return Ok(false);
        }
        self.stable = landed.len();
        Ok(true)
    }

    /// What the log says once it covers so many of the blocks that landed.
    pub fn log_with(&self, count: usize) -> Result<PlainLog, NoMemory> {
        let mut log = PlainLog::none(self.alloc);
        log.blocks.extend_from_slice(&self.opening.blocks)?;
        for block in past::landed(self.alloc, &self.history)?.iter().take(count) {
            log.blocks.push(*block)?;
        }
        for file in 0..self.known.end() {
            let is_named = self.opening.names(file)
                || log.blocks.iter().any(|block| block.file == file);
            log.files.push(if is_named {
                Some(self.file_at(file))
            } else {
                None
            })?;
        }
        Ok(log)
    }
}
