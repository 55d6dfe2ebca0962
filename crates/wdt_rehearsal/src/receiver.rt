//! The receiving half of a rehearsal: it is given the bytes of the wire alone, and puts the files
//! together from them.
ghost use Rattle.std.specs.Prelude.{◌≡◌, ℕ, ◌<◌, ◌≤◌, ◌++◌, List, [], ◌∷◌, length, take, drop, map, option_to_list, OnOk, IsErrOf, IsOkUnless, MatchOption};
ghost use Rattle.wdt_tree.specs.Shown.{shown};
ghost use Rattle.wdt_rehearsal.specs.Replies.{said_at};
ghost use Rattle.wdt_rehearsal.specs.Received.{after_frame, after_block, is_next, is_served, files_left, progress, with_block, Fills, IsFileFor, Steps};

use std::alloc::{AllocError, AllocFailed, Global};
use thiserror::Error;
use wdt_codec::{Frame, Mark, NextFail, PieceFail, Reader, Settings, encode};
use wdt_ranges::Have;
use wdt_tree::Plain;
use wdt_units::{Header, Lane, NoMemory, PIECE};

/// What the receiving half waits for.
#[derive(Clone, Copy, Debug, PartialEq, Eq)]
pub enum Stage {
    /// The sender's settings.
    Settings,
    /// How much the sender is going to send in all.
    Size,
    /// Blocks: so many files are still to begin, and so many bytes to come.
    Blocks { files: u32, bytes: u64 },
    /// The sender's last word.
    Bye,
    /// Nothing.
    Over,
}

/// Why bytes weren't taken.
#[derive(Clone, Copy, Debug, PartialEq, Eq, Error)]
pub enum TakeFail {
    /// A message that may not come at this stage, or bytes that are none.
    #[error("an unexpected message")]
    Unexpected,
    #[error("out of memory")]
    NoMemory,
}

impl From<NoMemory> for TakeFail {
    ghost use Rattle.std.specs.Prelude.{◌≡◌};
    ghost use Rattle.wdt_rehearsal.specs.declared.receiver.TakeFail.TheVariants as fails;

    ghost from_gives = { λ _ e. e ≡ fails.NoMemory };

    fn from(_: NoMemory) -> TakeFail {
        TakeFail::NoMemory
    }
}

impl From<AllocError> for TakeFail {
    ghost use Rattle.std.specs.Prelude.{◌≡◌};
    ghost use Rattle.wdt_rehearsal.specs.declared.receiver.TakeFail.TheVariants as fails;

    ghost from_gives = { λ _ e. e ≡ fails.NoMemory };

    fn from(_: AllocError) -> TakeFail {
        TakeFail::NoMemory
    }
}

impl<T: Drop> From<AllocFailed<T>> for TakeFail {
    ghost use Rattle.std.specs.Prelude.{◌≡◌};
    ghost use Rattle.wdt_rehearsal.specs.declared.receiver.TakeFail.TheVariants as fails;

    ghost from_gives = { λ _ e. e ≡ fails.NoMemory };

    fn from(_: AllocFailed<T>) -> TakeFail {
        TakeFail::NoMemory
    }
}

/// The receiving half.
#[derive(Drop)]
pub struct Receiver {
    alloc: Global,
    pub reader: Reader,
    pub stage: Stage,
    /// The files before that of the last block.
    pub landed: Vec<Plain>,
    /// The file of the last block, as far as it has come.
    pub open_file: Option<Plain>,
}

impl Receiver {
    ghost use Rattle.std.specs.Prelude.{◌≡◌, List, [], map, IfOk};
    ghost use Rattle.wdt_tree.specs.Shown.{shown};
    ghost use Rattle.wdt_codec.specs.Frames.{owed_by};
    ghost use Rattle.wdt_codec.specs.Stream.{Message, AreMessages, stream_of};
    ghost use Rattle.wdt_rehearsal.specs.Received.{progress, received, nothing_held, Took};
    ghost use Rattle.wdt_rehearsal.specs.declared.receiver.Stage.TheVariants as stages;

    /// A receiving half to which nothing was sent.
    pub fn new(alloc: Global) -> Receiver
        ensures progress { progress result ≡ record { stage = stages.Settings; landed = [] } }
        ensures nothing { result.reader ≡ nothing_held }
    {
        Receiver {
            alloc,
            reader: Reader::new(alloc),
            stage: Stage::Settings,
            landed: Vec::new(alloc),
            open_file: None,
        }
    }

    /// Takes the next bytes of the wire. Where they spell whole messages, it goes on to what these
    /// leave, or refuses the first that may not come.
    pub fn take(&mut self, bytes: &[u8]) -> Result<(), TakeFail>
        ensures took { (ms : List Message) → AreMessages ms → self.old.reader ≡ nothing_held → bytes.now ≡ stream_of ms
            → Took (received ms (progress self.old)) result self.new }
    {
        if self.reader.owed() > 0 {
            // An earlier call broke off within a block.
            return Err(TakeFail::Unexpected);
        }
        self.reader.feed(bytes)?;
        loop {
            match self.reader.next() {
                Ok(frame) => self.step(frame)?,
                Err(NextFail::NotYet) => return Ok(()),
                Err(NextFail::Bad { .. }) => return Err(TakeFail::Unexpected),
                Err(NextFail::NoMemory) => return Err(TakeFail::NoMemory),
            }
        }
    }

    /// Appends what the receiving half says where it has come to its stage: behind the settings a
    /// greeting and what it has, and its last word behind the sender's.
    pub fn answer(&self, up: &mut Vec<u8>) -> Result<(), NoMemory>
        ensures { OnOk result (up.new.items ≡ up.old.items ++ said_at self.now.stage) }
    {
        match self.stage {
            Stage::Size => {
                let mark = Mark {
                    lane: Lane(0),
                    count: 0,
                };
                encode(&Frame::Greeting(mark), up)?;
                encode(&Frame::Chunks(Have::none(self.alloc)), up)
            }
            Stage::Bye => encode(&Frame::Done, up),
            Stage::Settings | Stage::Blocks { .. } | Stage::Over => Ok(()),
        }
    }

    /// The files that have landed.
    pub fn into_landed(self) -> Result<Vec<Plain>, NoMemory>
        ensures { IfOk result (λ v. map shown v.items ≡ (progress self).landed) }
    {
        let mut landed = self.landed;
        match push_last(&mut landed, self.open_file) {
            Ok(()) => Ok(landed),
            Err(_) => Err(NoMemory),
        }
    }

    // Goes on by a frame and, behind a block, its bytes.
    fn step(&mut self, frame: Frame) -> Result<(), TakeFail>
        requires { self.old.reader.owed ≡ owed_by frame }
        ensures stepped { owed_by frame ≤ length self.old.reader.untaken →
            Steps (after_frame self.old.stage (progress self.old).landed frame (take (owed_by frame) self.old.reader.untaken)) result (progress self.new) }
        ensures left { OnOk result (self.new.reader ≡ record { untaken = drop (owed_by frame) self.old.reader.untaken; owed = 0 }) }
    {
        self.stage = match frame {
            Frame::Settings(settings) => match self.stage {
                Stage::Settings if is_served(&settings) => Stage::Size,
                _ => return Err(TakeFail::Unexpected),
            },
            Frame::Size { files, bytes } => match self.stage {
                Stage::Size => Stage::Blocks { files, bytes },
                _ => return Err(TakeFail::Unexpected),
            },
            Frame::Block(header) => match self.stage {
                Stage::Blocks { files, bytes } => return self.land(files, bytes, header),
                _ => return Err(TakeFail::Unexpected),
            },
            Frame::Done => match self.stage {
                Stage::Blocks { files: 0, bytes: 0 } => Stage::Bye,
                Stage::Bye => Stage::Over,
                _ => return Err(TakeFail::Unexpected),
            },
            _other => return Err(TakeFail::Unexpected),
        };
        Ok(())
    }

    // Takes a block's bytes into the file that it begins or goes on.
    fn land(&mut self, files: u32, bytes: u64, header: Header) -> Result<(), TakeFail>
        requires { self.old.reader.owed ≡ header.length }
        ensures landed { header.length ≤ length self.old.reader.untaken →
            Steps (after_block files bytes (progress self.old).landed header (take header.length self.old.reader.untaken)) result (progress self.new) }
        ensures left { OnOk result (self.new.reader ≡ record { untaken = drop header.length self.old.reader.untaken; owed = 0 }) }
    {
        let length = header.length as u64;
        if bytes < length {
            return Err(TakeFail::Unexpected);
        }
        let files = files_left(files, header.offset)?;
        let last = self.open_file.take();
        let mut file = file_for(self.alloc, &mut self.landed, last, header)?;
        fill(&mut self.reader, &mut file.bytes)?;
        self.open_file = Some(file);
        self.stage = Stage::Blocks {
            files,
            bytes: bytes - length,
        };
        Ok(())
    }
}

// Settings that a rehearsal has: version 1, one lane, and the question what the receiver has.
fn is_served(settings: &Settings) -> bool
    ensures { result ≡ is_served settings.now }
{
    settings.version == 1 && settings.lanes == 1 && settings.ask
}

// How many files are still to begin behind a block: one less, where it begins one.
fn files_left(files: u32, offset: u64) -> Result<u32, TakeFail>
    ensures { result ≡ files_left files offset }
{
    if offset > 0 {
        return Ok(files);
    }
    match files.checked_sub(1) {
        Some(left) => Ok(left),
        None => Err(TakeFail::Unexpected),
    }
}

// The file that a block begins or goes on, as far as it has come. Those before it have landed.
fn file_for(
    alloc: Global,
    landed: &mut Vec<Plain>,
    last: Option<Plain>,
    header: Header,
) -> Result<Plain, TakeFail>
    ensures { (raw : List ℕ) → IsFileFor (with_block (map shown (landed.old.items ++ option_to_list last)) header raw) result (map shown landed.new.items) raw }
{
    if header.offset == 0 {
        push_last(landed, last)?;
        return Ok(Plain {
            path: header.path,
            stamp: header.stamp,
            bytes: Vec::new(alloc),
        });
    }
    match last_of(landed, last) {
        Some(file) => {
            if is_next(&file, &header) {
                Ok(file)
            } else {
                Err(TakeFail::Unexpected)
            }
        }
        None => Err(TakeFail::Unexpected),
    }
}

// Puts the open file behind those that have landed.
fn push_last(landed: &mut Vec<Plain>, last: Option<Plain>) -> Result<(), TakeFail>
    ensures pushed { OnOk result (landed.new.items ≡ landed.old.items ++ option_to_list last) }
    ensures fail { IsOkUnless result TakeFail.NoMemory }
{
    if let Some(file) = last {
        landed.push(file)?;
    }
    Ok(())
}

// Takes out the last file: the open one or, where none is open, the last that landed.
fn last_of(landed: &mut Vec<Plain>, last: Option<Plain>) -> Option<Plain>
    ensures { MatchOption result (landed.old.items ++ option_to_list last ≡ []) (λ file. landed.old.items ++ option_to_list last ≡ landed.new.items ++ file ∷ []) }
{
    match last {
        Some(file) => Some(file),
        None => landed.pop(),
    }
}

// A block goes on where the file ends.
fn is_next(file: &Plain, header: &Header) -> bool
    ensures { result ≡ is_next (shown file.now) header.now }
{
    file.path.bytes() == header.path.bytes()
        && file.stamp == header.stamp
        && file.bytes.len() as u64 == header.offset
}

// Appends the bytes of a block, piece by piece.
fn fill(reader: &mut Reader, bytes: &mut Vec<u8>) -> Result<(), TakeFail>
    ensures filled { OnOk result (Fills reader.old reader.new bytes.old.items bytes.new.items) }
    ensures whole { OnOk result (reader.new.owed ≡ 0) }
    ensures cut { IsErrOf result TakeFail.Unexpected → length reader.old.untaken < reader.old.owed }
{
    while reader.owed() > 0 {
        let count = reader.owed().min(PIECE as u32);
        match reader.piece(count) {
            Ok(piece) => bytes.extend_from_slice(&piece)?,
            Err(PieceFail::NotYet) => return Err(TakeFail::Unexpected),
            Err(PieceFail::NoMemory) => return Err(TakeFail::NoMemory),
        }
    }
    Ok(())
}
