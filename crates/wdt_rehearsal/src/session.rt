//! A rehearsal's one lane. Each half spells its messages onto a list of bytes, and is given the bytes
//! of the other half's list and nothing else.
ghost use Rattle.std.specs.Prelude.{◌≡◌, ◌≤◌, ◌+◌, ◌++◌, ◌^◌, min, true, false, List, ℕ, [], length, map, sum_by, IfOk, IfSome, OnOk, IsOkUnless, IsSome, IsTrue};
ghost use Rattle.wdt_units.specs.Tree.{file_of};
ghost use Rattle.wdt_tree.specs.Cuts.{blocks_in, cuts};
ghost use Rattle.wdt_tree.specs.Listing.{is_entry, size_of};
ghost use Rattle.wdt_tree.specs.Shown.{shown, entry_of_file};
ghost use Rattle.wdt_source.specs.Told.{HasFault, is_within_file};
ghost use Rattle.wdt_codec.specs.Frames.{Fits, owed_by, spell};
ghost use Rattle.wdt_codec.specs.declared.frames.Frame.TheVariants as frames;
ghost use Rattle.wdt_rehearsal.specs.Landing.{HasSize};
ghost use Rattle.wdt_rehearsal.specs.Received.{progress, nothing_held, after_frame};
ghost use Rattle.wdt_rehearsal.specs.Replies.{IsBegun};
ghost use Rattle.wdt_rehearsal.specs.Sending.{Sends, AreBlocks, LandsFile, LandsAll, HasRoom, header_at};
ghost use Rattle.wdt_rehearsal.specs.declared.receiver.Stage.TheVariants as stages;

use crate::reading::read_block;
use crate::receiver::{Receiver, TakeFail};
use crate::replies::{read_done, read_greeting};
use std::alloc::Global;
use wdt_codec::{Frame, Settings, encode};
use wdt_ranges::Have;
use wdt_source::{Source, SourceFail};
use wdt_tree::{Entry, Manifest, Plain};
use wdt_units::{Block, Conn, DEFAULT_BLOCK, Header, Lane, MAX_BLOCK, MAX_FILE_SIZE, Name};

/// How many bytes a whole block has.
pub const BLOCK: u32 = DEFAULT_BLOCK;

/// The list of bytes is cleared once it holds this many.
const KEEP: usize = DEFAULT_BLOCK as usize;

/// A session that has begun: the receiving half has taken the settings, and has told what it has.
#[derive(Drop)]
pub struct Greeted {
    pub receiver: Receiver,
    /// The bytes towards the receiving half.
    pub down: Vec<u8>,
    /// The bytes towards the sending half.
    pub up: Vec<u8>,
    /// What the receiving half has.
    pub have: Have,
}

/// What a transfer leaves.
#[derive(Drop)]
pub struct Transferred {
    /// The files that landed.
    pub landed: Vec<Plain>,
    /// The bytes towards the receiving half, from where the list was cleared last: all of them on a
    /// small tree.
    pub down: Vec<u8>,
    /// The bytes towards the sending half.
    pub up: Vec<u8>,
}

/// Begins a session: the sending half asks the receiving half what it has.
pub fn greet(alloc: Global) -> Result<Greeted, SourceFail>
    ensures begun { IfOk result IsBegun }
    ensures fail { IsOkUnless result SourceFail.NoMemory }
{
    let mut receiver = Receiver::new(alloc);
    let mut down = Vec::new(alloc);
    say(&settings(), &mut down, &mut receiver)?;
    let mut up = Vec::new(alloc);
    receiver.answer(&mut up)?;
    match read_greeting(alloc, &up) {
        Ok(have) => Ok(Greeted {
            receiver,
            down,
            up,
            have,
        }),
        Err(TakeFail::NoMemory) => Err(SourceFail::NoMemory),
        Err(TakeFail::Unexpected) => unreachable!(),
    }
}

/// Sends the blocks of a manifest's tree over one lane, and gives what landed.
pub fn transfer<S: Source>(
    alloc: Global,
    source: &mut S,
    manifest: &Manifest,
    blocks: &[Block],
    begun: Greeted,
) -> Result<Transferred, SourceFail>
    requires told { IfSome (S.told source.old) (λ files. manifest.now ≡ map entry_of_file files) }
    requires blocks { blocks.now ≡ cuts BLOCK manifest.now }
    requires begun { IsBegun begun }
    ensures entries { IfOk result (λ run. map entry_of_file (map shown run.landed.items) ≡ manifest.now) }
    ensures tree { IfOk result (λ run. IfSome (S.told source.old) (λ files. map shown run.landed.items ≡ files)) }
    ensures cause { HasFault result (S.faults source.old) (S.faults source.new) }
    ensures slips { IfSome (S.told source.old) (λ files. S.slips source.new ≡ S.slips source.old) }
{
    let Greeted {
        mut receiver,
        mut down,
        mut up,
        ..
    } = begun;
    let size = Frame::Size {
        files: manifest.count(),
        bytes: manifest.total(),
    };
    say(&size, &mut down, &mut receiver)?;
    send_files(alloc, source, manifest, blocks, &mut down, &mut receiver)?;
    say(&Frame::Done, &mut down, &mut receiver)?;
    hear_done(alloc, &mut up, &receiver)?;
    say(&Frame::Done, &mut down, &mut receiver)?;
    let landed = receiver.into_landed()?;
    Ok(Transferred { landed, down, up })
}

// Hears the receiving half's last word, once it has taken the sender's.
fn hear_done(alloc: Global, up: &mut Vec<u8>, receiver: &Receiver) -> Result<(), SourceFail>
    requires { (progress receiver.now).stage ≡ stages.Bye }
    ensures heard { OnOk result (up.new.items ≡ up.old.items ++ spell frames.Done) }
    ensures fail { IsOkUnless result SourceFail.NoMemory }
{
    let start = up.len();
    receiver.answer(up)?;
    match read_done(alloc, &up[start..]) {
        Ok(()) => Ok(()),
        Err(TakeFail::NoMemory) => Err(SourceFail::NoMemory),
        Err(TakeFail::Unexpected) => unreachable!(),
    }
}

// The sender's first frame: session 1, connection 1 of lane 0 of 1. It asks what the receiver has.
fn settings() -> Frame
    ensures { result ≡ frames.Settings (record { version = 1; session = 1; lane = record { 0 = 0 }; lanes = 1; conn = record { 0 = 1 }; block = BLOCK; ask = true }) }
{
    Frame::Settings(Settings {
        version: 1,
        session: 1,
        lane: Lane(0),
        lanes: 1,
        conn: Conn(1),
        block: BLOCK,
        ask: true,
    })
}

// Sends the blocks of each file of the manifest.
fn send_files<S: Source>(
    alloc: Global,
    source: &mut S,
    manifest: &Manifest,
    blocks: &[Block],
    wire: &mut Vec<u8>,
    receiver: &mut Receiver,
) -> Result<(), SourceFail>
    requires told { IfSome (S.told source.old) (λ files. manifest.now ≡ map entry_of_file files) }
    requires blocks { blocks.now ≡ cuts BLOCK manifest.now }
    requires idle { receiver.old.reader ≡ nothing_held }
    requires stage { (progress receiver.old).stage ≡ stages.Blocks (length manifest.now) (sum_by size_of manifest.now) }
    requires none { (progress receiver.old).landed ≡ [] }
    ensures landed { OnOk result (LandsAll (S.told source.old) manifest.now (progress receiver.new)) }
    ensures idle { OnOk result (receiver.new.reader ≡ nothing_held) }
    ensures cause { HasFault result (S.faults source.old) (S.faults source.new) }
    ensures slips { IfSome (S.told source.old) (λ files. S.slips source.new ≡ S.slips source.old) }
{
    let mut piece = Vec::new(alloc);
    let mut left = blocks;
    for at in 0..manifest.count() {
        let entry = manifest.entry(at);
        let (own, others) = left.split_at(blocks_in(entry.size));
        send_file(source, entry, own, &mut piece, wire, receiver)?;
        left = others;
    }
    Ok(())
}

// How many blocks a file has that is sent whole; an empty file has one.
fn blocks_in(size: u64) -> usize
    requires { size ≤ MAX_FILE_SIZE }
    ensures { result ≡ blocks_in BLOCK size }
{
    if size == 0 {
        1
    } else {
        size.div_ceil(BLOCK as u64) as usize
    }
}

// Sends the blocks of a file.
fn send_file<S: Source>(
    source: &mut S,
    entry: &Entry,
    blocks: &[Block],
    piece: &mut Vec<u8>,
    wire: &mut Vec<u8>,
    receiver: &mut Receiver,
) -> Result<(), SourceFail>
    requires lawful { IsTrue (is_entry entry.now) }
    requires size { IfSome (S.told source.old) (λ files. HasSize (file_of files entry.now.path) entry.now.size) }
    requires blocks { AreBlocks entry.now blocks.now }
    requires idle { receiver.old.reader ≡ nothing_held }
    requires room { HasRoom (progress receiver.old).stage entry.now.size }
    ensures landed { OnOk result (LandsFile (S.told source.old) entry.now (progress receiver.old) (progress receiver.new)) }
    ensures idle { OnOk result (receiver.new.reader ≡ nothing_held) }
    ensures told { S.told source.new ≡ S.told source.old }
    ensures cause { HasFault result (S.faults source.old) (S.faults source.new) }
    ensures slips { IfSome (S.told source.old) (λ files. S.slips source.new ≡ S.slips source.old) }
{
    let Some((first, others)) = blocks.split_first() else {
        unreachable!();
    };
    send_block(source, entry, 0, first.length, piece, wire, receiver)?;
    let mut offset = first.length as u64;
    for block in others {
        send_block(source, entry, offset, block.length, piece, wire, receiver)?;
        offset += block.length as u64;
    }
    Ok(())
}

// Sends a block of a file: its header, and its bytes from the source.
fn send_block<S: Source>(
    source: &mut S,
    entry: &Entry,
    offset: u64,
    count: u32,
    piece: &mut Vec<u8>,
    wire: &mut Vec<u8>,
    receiver: &mut Receiver,
) -> Result<(), SourceFail>
    requires lawful { IsTrue (is_entry entry.now) }
    requires end { offset + count ≤ entry.now.size }
    requires some { min 1 entry.now.size ≤ count }
    requires most { count ≤ MAX_BLOCK }
    requires within { IfSome (S.told source.old) (λ files. is_within_file files entry.now.path offset count ≡ true) }
    requires idle { receiver.old.reader ≡ nothing_held }
    requires may_come { (bytes : List ℕ) → length bytes ≡ count →
        IsSome (after_frame (progress receiver.old).stage (progress receiver.old).landed (frames.Block (header_at entry.now offset count)) bytes) }
    ensures sent { OnOk result (Sends (S.told source.old) (header_at entry.now offset count) (progress receiver.old) (progress receiver.new)) }
    ensures idle { OnOk result (receiver.new.reader ≡ nothing_held) }
    ensures told { S.told source.new ≡ S.told source.old }
    ensures cause { HasFault result (S.faults source.old) (S.faults source.new) }
    ensures slips { IfSome (S.told source.old) (λ files. S.slips source.new ≡ S.slips source.old) }
{
    if wire.len() >= KEEP {
        wire.clear();
    }
    let start = wire.len();
    let frame = block_frame(entry.path.copy()?, entry.size, entry.stamp, offset, count);
    encode(&frame, wire)?;
    read_block(source, &entry.path, offset, count, piece, wire)?;
    match receiver.take(&wire[start..]) {
        Ok(()) => Ok(()),
        Err(TakeFail::NoMemory) => Err(SourceFail::NoMemory),
        Err(TakeFail::Unexpected) => unreachable!(),
    }
}

// The frame of a block of a file.
fn block_frame(path: Name, size: u64, stamp: u64, offset: u64, count: u32) -> Frame
    requires lawful { IsTrue (is_entry (record { path = path; size = size; stamp = stamp })) }
    requires end { offset + count ≤ size }
    requires some { min 1 size ≤ count }
    requires most { count ≤ MAX_BLOCK }
    ensures frame { result ≡ frames.Block (header_at (record { path = path; size = size; stamp = stamp }) offset count) }
    ensures fits { Fits result }
{
    Frame::Block(Header {
        path,
        size,
        stamp,
        offset,
        length: count,
    })
}

// Sends a frame that no raw bytes follow.
fn say(frame: &Frame, wire: &mut Vec<u8>, receiver: &mut Receiver) -> Result<(), SourceFail>
    requires fits { Fits frame.now }
    requires bare { owed_by frame.now ≡ 0 }
    requires idle { receiver.old.reader ≡ nothing_held }
    requires may_come { IsSome (after_frame (progress receiver.old).stage (progress receiver.old).landed frame.now []) }
    ensures took { OnOk result (after_frame (progress receiver.old).stage (progress receiver.old).landed frame.now [] ≡ Some (progress receiver.new)) }
    ensures idle { OnOk result (receiver.new.reader ≡ nothing_held) }
    ensures fail { IsOkUnless result SourceFail.NoMemory }
{
    if wire.len() >= KEEP {
        wire.clear();
    }
    let start = wire.len();
    encode(frame, wire)?;
    match receiver.take(&wire[start..]) {
        Ok(()) => Ok(()),
        Err(TakeFail::NoMemory) => Err(SourceFail::NoMemory),
        Err(TakeFail::Unexpected) => unreachable!(),
    }
}
