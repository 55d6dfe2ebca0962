//! Steps of a test, and what they answer and call.
ghost use Rattle.std.specs.Prelude.{◌≡◌, [], IfOk};
ghost use Rattle.wdt_folder.specs.FolderState.{folder_state};

use crate::watched::{Notes, Watched};
use std::alloc::{AllocError, Global};
use std::env::temp_dir;
use std::fs;
use std::os::unix::fs::{FileExt, symlink};
use std::rc::Rc;
use std::rt::Files;
use std::test::Fail;
use std::time::{SystemTime, UNIX_EPOCH};
use wdt_depot::{Crash, Depot, DepotFail};
use wdt_folder::{FolderDepot, OneByOne, Syncs};
use wdt_units::{Failed, Name};

/// What a test does.
#[derive(Clone, Copy)]
pub enum Step {
    Make(&'static str),
    Write(&'static str, u64, &'static str),
    Sync(&'static str),
    Place(&'static str, &'static str),
    Read(&'static str, &'static str),
    // The stop strikes the call with this number.
    Arm(u32),
    Reopen,
    // All calls on a spot, one after the other, the first of which the stop strikes.
    Strike(&'static str),
    // Writes by a spot after its path was made anew.
    Remake(&'static str, &'static str),
    // So many files are made; also while a file is entered, which is read then. The calls aren't kept.
    Crowd(u32),
    Hold(&'static str, u32),
    // What failed: what the depot was at, and with which path and why.
    Says(&'static str, &'static str),
    // Beside the depot: what is to happen to a call, and what is put into the folder and found there.
    Fail(&'static str, i32),
    Exchange(&'static str),
    RemoveRoot,
    File(&'static str, &'static str),
    Link(&'static str, &'static str),
    SecondName(&'static str, &'static str),
    Holds(&'static str, &'static str),
}

/// What a step answers.
#[derive(Clone, Copy, PartialEq, Eq)]
pub enum Answer {
    Done,
    NoFile,
    Failed,
    NoMemory,
    // Other bytes or words were found.
    Other,
}

impl Answer {
    fn text(self) -> &'static str {
        match self {
            Answer::Done => "ok",
            Answer::NoFile => "none",
            Answer::Failed => "failed",
            Answer::NoMemory => "no memory",
            Answer::Other => "other",
        }
    }
}

/// A path in the temporary folder that no other run has. Nothing is there.
pub fn new_root(rt: &HostRuntime) -> Result<String, Fail> {
    let temp = temp_dir(rt)?;
    let temp = temp.as_str();
    let nanos = SystemTime::now(rt)?.duration_since(UNIX_EPOCH)?.as_nanos();
    Ok(format!(in rt.alloc(); "{temp}/wdt_folder_{nanos}")?)
}

/// Takes the steps on the depot of a new folder, and answers with what was other than expected.
pub fn play(rt: &HostRuntime, steps: &[(Step, &'static str)]) -> Result<String, Fail> {
    let alloc = rt.alloc();
    let root = new_root(rt)?;
    fs::create_dir(rt, root.as_str())?;
    let notes = Rc::new(alloc, Notes::of(root.clone()?))?;
    let watched = Watched {
        rt: rt.clone()?,
        notes: notes.clone()?,
    };
    let mut depot = FolderDepot::at(watched, below(alloc, root.as_str(), "")?, OneByOne);
    let mut differences = String::new(alloc);
    for row in steps {
        let answer = take(rt, &mut depot, root.as_str(), &notes, &row.0)?;
        compare(&mut differences, answer, &notes, row.1)?;
    }
    fs::remove_dir_all(rt, root.as_str())?;
    Ok(differences)
}

// Adds what a step answered and called, where it isn't what was expected.
fn compare(
    differences: &mut String,
    answer: Answer,
    notes: &Notes,
    expected: &str,
) -> Result<(), AllocError> {
    let alloc = *differences.allocator();
    let got = outcome(alloc, answer, notes)?;
    let got = got.as_str();
    if got != expected {
        differences.push_str(format!(in alloc; "{got:?} for {expected:?}; ")?.as_str())?;
    }
    Ok(())
}

// Takes a step, and gives its answer. What many calls in a row call isn't kept.
fn take(
    rt: &HostRuntime,
    depot: &mut FolderDepot<Watched<HostRuntime>, OneByOne>,
    root: &str,
    notes: &Notes,
    step: &Step,
) -> Result<Answer, Fail>
    requires { (folder_state depot.old).spots ≡ [] }
    ensures { (folder_state depot.new).spots ≡ [] }
{
    let alloc = rt.alloc();
    if let Step::Says(doing, rest) = *step {
        return says(alloc, depot, root, doing, rest);
    }
    let (path, to, count) = step.operands();
    let names = numbered(alloc, count)?;
    let answer = call(depot, step, &name(alloc, path)?, &name(alloc, to)?, &names);
    if count > 0 {
        notes.take()?;
    }
    match answer {
        Some(answer) => Ok(answer),
        None => arrange(rt, root, notes, step),
    }
}

impl Step {
    // The paths of a call, and how many files are made. A path of none is `x`.
    fn operands(&self) -> (&'static str, &'static str, u32) {
        match *self {
            Step::Make(path) | Step::Sync(path) | Step::Strike(path) => (path, "x", 0),
            Step::Write(path, _, _) | Step::Read(path, _) | Step::Remake(path, _) => (path, "x", 0),
            Step::Place(from, to) => (from, to, 0),
            Step::Crowd(count) => ("x", "x", count),
            Step::Hold(path, count) => (path, "x", count),
            _ => ("x", "x", 0),
        }
    }
}

fn says<R: Files + AllocGlobal + Clone + Drop, S: Syncs<R::File> + Drop>(
    alloc: Global,
    depot: &FolderDepot<R, S>,
    root: &str,
    doing: &str,
    rest: &str,
) -> Result<Answer, Fail>
where
    R::File: FileExt,
{
    let Some(fault) = depot.fault() else {
        return Ok(Answer::NoFile);
    };
    let words = format!(in alloc; "{fault}")?;
    let expected = format!(in alloc; "{doing} {root}/{rest}")?;
    Ok(if words == expected {
        Answer::Done
    } else {
        Answer::Other
    })
}

// The answer and the calls, if there were any. A call that failed and called nothing is barred.
fn outcome(alloc: Global, answer: Answer, notes: &Notes) -> Result<String, AllocError> {
    let calls = notes.take()?;
    let looks = notes.take_looks();
    let answer_text = answer.text();
    if calls.is_empty() {
        if answer == Answer::Failed && looks == 0 {
            return String::from_str(alloc, "barred");
        }
        return String::from_str(alloc, answer_text);
    }
    format!(in alloc; "{answer_text}: {calls}")
}

// Makes the call of a step: None where it is none of a depot.
fn call<C: Crash>(
    depot: &mut C,
    step: &Step,
    path: &Name,
    to: &Name,
    names: &Vec<Name>,
) -> Option<Answer>
    requires { (C.Depot.state depot.old).spots ≡ [] }
    ensures { (C.Depot.state depot.new).spots ≡ [] }
{
    match *step {
        Step::Make(_) => Some(told(depot.make(path))),
        Step::Write(_, offset, text) => Some(told(write(depot, path, offset, text))),
        Step::Sync(_) => Some(told(sync(depot, path))),
        Step::Place(_, _) => Some(told(depot.put_in_place(path, to))),
        Step::Read(_, text) => Some(read(depot, path, text.as_bytes())),
        Step::Strike(_) => Some(strike(depot, path)),
        Step::Remake(_, text) => Some(told(remake(depot, path, text))),
        Step::Crowd(_) => Some(told(crowd(depot, names))),
        Step::Hold(_, _) => Some(told(hold(depot, path, names))),
        Step::Arm(calls) => {
            depot.arm(calls, 0);
            Some(Answer::Done)
        }
        Step::Reopen => {
            depot.reopen();
            Some(Answer::Done)
        }
        _ => None,
    }
}

pub fn name(alloc: Global, path: &str) -> Result<Name, Fail> {
    Ok(Name::read(alloc, path.as_bytes())?)
}

pub fn numbered(alloc: Global, count: u32) -> Result<Vec<Name>, Fail> {
    let mut names = Vec::new(alloc);
    for number in 0..count {
        names.push(name(alloc, format!(in alloc; "{number}")?.as_str())?)?;
    }
    Ok(names)
}

fn told(done: Result<(), DepotFail>) -> Answer {
    match done {
        Ok(()) => Answer::Done,
        Err(DepotFail::NoMemory) => Answer::NoMemory,
        Err(DepotFail::Failed) => Answer::Failed,
    }
}

pub fn write<D: Depot>(depot: &mut D, path: &Name, offset: u64, text: &str) -> Result<(), DepotFail>
    requires { (D.state depot.old).spots ≡ [] }
    ensures { (D.state depot.new).spots ≡ [] }
{
    let spot = depot.need(path)?;
    let written = depot.write_at(spot, offset, text.as_bytes());
    depot.leave(spot);
    written
}

pub fn sync<D: Depot>(depot: &mut D, path: &Name) -> Result<(), DepotFail>
    requires { (D.state depot.old).spots ≡ [] }
    ensures { (D.state depot.new).spots ≡ [] }
{
    let spot = depot.need(path)?;
    let synced = depot.sync(spot);
    depot.leave(spot);
    match synced {
        Ok(()) => Ok(()),
        Err(Failed) => Err(DepotFail::Failed),
    }
}

// Whether a file has just these bytes.
fn read<D: Depot>(depot: &mut D, path: &Name, text: &[u8]) -> Answer
    requires { (D.state depot.old).spots ≡ [] }
    ensures { (D.state depot.new).spots ≡ [] }
{
    match depot.enter(path) {
        Ok(None) => Answer::NoFile,
        Ok(Some(spot)) => {
            let mut piece = [0; 16];
            let length = depot.length(spot);
            let count = depot.read_at(spot, 0, &mut piece);
            depot.leave(spot);
            match (length, count) {
                (Ok(length), Ok(count)) => {
                    if length == count as u64 && piece.get(..count) == Some(text) {
                        Answer::Done
                    } else {
                        Answer::Other
                    }
                }
                _ => Answer::Failed,
            }
        }
        Err(fail) => told(Err(fail)),
    }
}

fn remake<D: Depot>(depot: &mut D, path: &Name, text: &str) -> Result<(), DepotFail>
    requires { (D.state depot.old).spots ≡ [] }
    ensures { (D.state depot.new).spots ≡ [] }
{
    let spot = depot.need(path)?;
    let made = depot.make(path);
    let written = depot.write_at(spot, 0, text.as_bytes());
    depot.leave(spot);
    made?;
    written
}

fn crowd<D: Depot>(depot: &mut D, names: &Vec<Name>) -> Result<(), DepotFail>
    ensures { (D.state depot.new).spots ≡ (D.state depot.old).spots }
{
    for name in names {
        depot.make(name)?;
    }
    Ok(())
}

fn hold<D: Depot>(depot: &mut D, path: &Name, names: &Vec<Name>) -> Result<(), DepotFail>
    requires { (D.state depot.old).spots ≡ [] }
    ensures { (D.state depot.new).spots ≡ [] }
{
    let spot = depot.need(path)?;
    let crowded = crowd(depot, names);
    let mut piece = [0; 1];
    let read = depot.read_at(spot, 0, &mut piece);
    depot.leave(spot);
    read?;
    crowded
}

// All calls on a spot, which fail: the stop strikes the first.
fn strike<C: Crash>(depot: &mut C, path: &Name) -> Answer
    requires { (C.Depot.state depot.old).spots ≡ [] }
    ensures { (C.Depot.state depot.new).spots ≡ [] }
{
    match depot.need(path) {
        Ok(spot) => {
            depot.arm(1, 0);
            let mut piece = [0; 1];
            let struck = depot.sync(spot).is_err();
            let written = depot.write_at(spot, 0, b"x").is_err();
            let synced = depot.sync(spot).is_err();
            let read = depot.read_at(spot, 0, &mut piece).is_err();
            let measured = depot.length(spot).is_err();
            depot.leave(spot);
            if struck && written && synced && read && measured {
                Answer::Failed
            } else {
                Answer::Done
            }
        }
        Err(fail) => told(Err(fail)),
    }
}

// Does what a step asks for beside the depot.
fn arrange(rt: &HostRuntime, root: &str, notes: &Notes, step: &Step) -> Result<Answer, Fail> {
    let alloc = rt.alloc();
    match *step {
        Step::Fail(call, errno) => notes.fail(call, errno)?,
        Step::Exchange(path) => notes.exchange(path)?,
        Step::RemoveRoot => fs::remove_dir(rt, root)?,
        Step::File(path, text) => fs::write(rt, below(alloc, root, path)?, text)?,
        Step::Link(original, link) => symlink(rt, original, below(alloc, root, link)?)?,
        Step::SecondName(path, second) => {
            fs::hard_link(rt, below(alloc, root, path)?, below(alloc, root, second)?)?
        }
        Step::Holds(path, text) => {
            if fs::read_to_string(rt, below(alloc, root, path)?)?.as_str() != text {
                return Ok(Answer::Other);
            }
        }
        _ => return Ok(Answer::Other),
    }
    Ok(Answer::Done)
}

pub fn below(alloc: Global, root: &str, path: &str) -> Result<String, AllocError> {
    format!(in alloc; "{root}/{path}")
}
