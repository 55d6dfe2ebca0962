//! A depot beside the plain disk, while no end is open: what one end left, and what the next one finds.
ghost use Rattle.std.specs.Prelude.{◌≡◌, ◌<◌, []};
ghost use Rattle.wdt_depot.specs.MemState.{mem_state};

use crate::comparing::{has_blocks, is_log};
use crate::ends::Ends;
use crate::frames::name_of;
use crate::halt::{Halt, Part, agree};
use std::alloc::Global;
use wdt_depot::{Crash, MemDepot};
use wdt_dock::{Dock, DockFail};
use wdt_log::{Log, LogFail};
use wdt_plain_receiver::{Disk, LANES, Plain, PlainLog, tree};
use wdt_units::{LOG_PATH, Name, NoMemory};

/// A depot and the plain disk, and what the log says on both.
#[derive(Drop)]
pub struct Disks {
    depot: MemDepot,
    disk: Disk,
    log: PlainLog,
    ghost left: { (mem_state depot).spots ≡ [] },
}

/// What an opening comes to: the ends, or the disks again where a call failed.
#[derive(Drop)]
pub enum Opened {
    Begun(Ends),
    Failed(Disks),
}

/// How an end is left: its program ends, or its machine goes down.
#[derive(Clone, Copy, Debug, PartialEq, Eq)]
pub enum Leaving {
    Program,
    Machine,
}

impl Disks {
    /// Empty ones. The calls of these numbers fail by themselves, but for 0.
    pub fn empty(alloc: Global, fails: [u32; 2]) -> Result<Disks, NoMemory> {
        let mut numbers = Vec::new(alloc);
        numbers.extend_from_slice(&fails)?;
        Ok(Disks {
            depot: MemDepot::of(alloc, Vec::new(alloc), numbers)?,
            disk: Disk::of(alloc, fails),
            log: PlainLog::none(alloc),
        })
    }

    /// The machine goes down at this call from now on, and the pick says what that leaves.
    pub fn arm(&mut self, calls: u32, pick: u64) {
        self.depot.arm(calls, pick);
        self.disk.stop_at(calls);
    }

    /// Opens both ends, which log what landed from so many bytes on.
    pub fn open(self, alloc: Global, batch: u64) -> Result<Opened, Halt>
        requires { 0 < batch }
    {
        let Disks {
            depot,
            mut disk,
            log,
        } = self;
        let is_open = disk.open_log();
        match Dock::open(alloc, depot, LANES, batch) {
            Ok(dock) => {
                agree(is_open, Part::Opening)?;
                let plain = Plain::of(alloc, disk, log, batch)?;
                Ok(Opened::Begun(Ends::of(dock, plain)?))
            }
            Err((DockFail::NoMemory, _)) => Err(Halt::NoMemory),
            Err((DockFail::BadLog { .. }, _)) => Err(Halt::Differs(Part::Log)),
            Err((DockFail::Disk, depot)) => {
                agree(!is_open, Part::Opening)?;
                Ok(Opened::Failed(Disks { depot, disk, log }))
            }
        }
    }

    /// Whether the machine went down.
    pub fn is_down(&self) -> bool {
        self.disk.is_down()
    }

    /// What the disks say once the opening that failed is left.
    pub fn leave(self, alloc: Global, leaving: Leaving) -> Result<Disks, Halt> {
        let Disks { depot, disk, log } = self;
        let mut logs = Vec::new(alloc);
        logs.push(log)?;
        settle(alloc, depot, disk, logs, leaving)
    }

    /// Whether each file is there with all of its bytes.
    pub fn has_tree(&self, alloc: Global) -> Result<bool, NoMemory> {
        for file in 0..tree::FILES {
            let whole = tree::bytes_of(alloc, file, 0, tree::size_of(file) as u32)?;
            let name = name_of(alloc, file)?;
            if !is_same(self.depot.shown(&name), Some(&whole)) {
                return Ok(false);
            }
        }
        Ok(true)
    }
}

/// What both ends leave, once they are compared.
pub fn close(ends: Ends, alloc: Global, leaving: Leaving) -> Result<Disks, Halt> {
    let Ends { dock, plain } = ends;
    let (depot, history, answer) = dock.close();
    agree(plain.answer.is_that_of(&answer), Part::Answer)?;
    agree(
        plain.history.as_slice() == history.as_slice(),
        Part::History,
    )?;
    let mut logs = Vec::new(alloc);
    if leaving == Leaving::Machine {
        logs.push(plain.log_with(plain.stable)?)?;
        logs.push(plain.log_with(plain.possible)?)?;
    } else {
        logs.push(plain.log_with(plain.logged)?)?;
    }
    settle(alloc, depot, plain.into_disk(), logs, leaving)
}

// The disks once the machine is up again, or the program has ended. The log says one of these.
fn settle(
    alloc: Global,
    depot: MemDepot,
    disk: Disk,
    logs: Vec<PlainLog>,
    leaving: Leaving,
) -> Result<Disks, Halt>
    requires { (mem_state depot).spots ≡ [] }
{
    let (mut depot, mut disk) = (depot, disk);
    agree(depot.struck() == disk.is_down(), Part::Stop)?;
    if leaving == Leaving::Machine {
        depot.reopen();
        read_again(alloc, &depot, &mut disk)?;
    } else {
        agree(are_same(alloc, &depot, &disk)?, Part::Bytes)?;
    }
    depot.arm(0, 0);
    let has_log = depot.shown(&log_name(alloc)?).is_some();
    agree(
        leaving == Leaving::Machine || has_log == disk.has_log(),
        Part::Log,
    )?;
    disk.restart(has_log);
    find_log(alloc, depot, disk, logs)
}

// The disks with the one of these logs that is there.
fn find_log(
    alloc: Global,
    mut depot: MemDepot,
    mut disk: Disk,
    logs: Vec<PlainLog>,
) -> Result<Disks, Halt>
    requires { (mem_state depot).spots ≡ [] }
{
    let found = open_there(alloc, &mut depot, &mut disk)?;
    for log in logs {
        let is_it = match &found {
            Some(found) => is_log(&found.view().files, &log),
            None => !disk.has_log() && log.files.count() == 0,
        };
        if is_it {
            agree(are_covered(alloc, &depot, &log)?, Part::Bytes)?;
            return Ok(Disks { depot, disk, log });
        }
    }
    Err(Halt::Differs(Part::Log))
}

// The log, where one is there. Two calls at most fail by themselves.
fn open_there(alloc: Global, depot: &mut MemDepot, disk: &mut Disk) -> Result<Option<Log>, Halt>
    requires { (mem_state depot.old).spots ≡ [] }
    ensures { (mem_state depot.new).spots ≡ [] }
{
    if !disk.has_log() {
        return Ok(None);
    }
    if let Some(log) = open_log(alloc, depot, disk)? {
        return Ok(Some(log));
    }
    if let Some(log) = open_log(alloc, depot, disk)? {
        return Ok(Some(log));
    }
    open_log(alloc, depot, disk)
}

// The log that is there, unless a call failed by itself.
fn open_log(alloc: Global, depot: &mut MemDepot, disk: &mut Disk) -> Result<Option<Log>, Halt>
    requires { (mem_state depot.old).spots ≡ [] }
    ensures { (mem_state depot.new).spots ≡ [] }
{
    let is_open = disk.open_log();
    match Log::open(alloc, depot) {
        Ok(log) => {
            agree(is_open, Part::Opening)?;
            Ok(Some(log))
        }
        Err(LogFail::Disk) => {
            agree(!is_open, Part::Opening)?;
            Ok(None)
        }
        Err(LogFail::NoMemory) => Err(Halt::NoMemory),
        Err(LogFail::BadLog { .. } | LogFail::Shut) => Err(Halt::Differs(Part::Log)),
    }
}

// ---- files

fn log_name(alloc: Global) -> Result<Name, NoMemory> {
    match Name::read(alloc, &LOG_PATH) {
        Ok(name) => Ok(name),
        // The path of the log is lawful.
        Err(_) => Err(NoMemory),
    }
}

fn is_same(found: Option<&[u8]>, told: Option<&[u8]>) -> bool {
    match (found, told) {
        (Some(found), Some(told)) => found == told,
        (None, None) => true,
        _ => false,
    }
}

// Whether each file reads the same on both disks.
fn are_same(alloc: Global, depot: &MemDepot, disk: &Disk) -> Result<bool, NoMemory> {
    for file in 0..tree::FILES {
        let name = name_of(alloc, file)?;
        if !is_same(depot.shown(&name), disk.shown(file)) {
            return Ok(false);
        }
    }
    Ok(true)
}

// The plain disk reads as the depot from now on, behind what a stop left there.
fn read_again(alloc: Global, depot: &MemDepot, disk: &mut Disk) -> Result<(), NoMemory> {
    for file in 0..tree::FILES {
        let name = name_of(alloc, file)?;
        disk.set(file, depot.shown(&name))?;
    }
    Ok(())
}

// Whether each file that the log names reads as the tree where the log covers it.
fn are_covered(alloc: Global, depot: &MemDepot, log: &PlainLog) -> Result<bool, NoMemory> {
    for number in 0..log.files.end() {
        if let Some(file) = log.files.file_at(number) {
            let name = name_of(alloc, file)?;
            if !has_blocks(alloc, depot.shown(&name), file, number, &log.blocks)? {
                return Ok(false);
            }
        }
    }
    Ok(true)
}
