//! A wire and the reader of what comes over it.
ghost use Rattle.std.specs.Prelude.{◌≡◌, ◌≤◌, ◌<◌, ◌+◌, ℕ, List, [], length, Option, Some, None, IfOk, IfErr, IfSome, IsErrOf, OnOk, OnErr, take, vec_items, option_map};
ghost use Rattle.wdt_units.specs.Counts.{HasCause};
ghost use Rattle.wdt_codec.specs.Frames.{Fits, owed_by, spell};
ghost use Rattle.wdt_codec.specs.Grammar.{IsFront};
ghost use Rattle.wdt_link.specs.Calls.{HasFault};
ghost use Rattle.wdt_link.specs.Links.{EndsInFrame, EndsInPiece};
ghost use Rattle.wdt_link.specs.Reasons.{IsBadIn, IsBadNext, IsNeverBad};
ghost use Rattle.wdt_link.specs.Streams.{Fills, IsDry, IsLeft, StreamView, held};
ghost use Rattle.wdt_link.specs.Traffic.{Keeps, Receives, Sends};
ghost use Rattle.wdt_link.specs.Wires.{IsUnused, begun};

use crate::fails::StreamFail;
use crate::wire::ByteWire;
use std::alloc::Global;
use std::marker::Model;
use wdt_codec::{Frame, NextFail, PieceFail, Reader};
use wdt_units::{Failed, PIECE};

/// A wire and what was read of it and not taken. Bytes that were read and couldn't be fed for want of
/// memory wait at the front of the buffer, and the next call feeds them: so none is lost.
#[derive(Drop)]
pub(crate) struct Stream<W: ByteWire + Drop> {
    wire: W,
    reader: Reader,
    buffer: Vec<u8>,
    // How many bytes at the front of the buffer wait to be fed.
    waiting: usize,
}

impl<W: ByteWire + Drop> Model for Stream<W> {
    ghost use Rattle.std.specs.Prelude.{◌≤◌, length, IfSome};
    ghost use Rattle.wdt_link.specs.Streams.{StreamView, EndsIn, held, traffic};

    ghost Value = { StreamView };

    ghost view = { λ s. record {
      told = traffic (held s.reader.untaken s.buffer.items s.waiting) (W.told s.wire);
      fed = s.reader.untaken;
      owed = s.reader.owed;
      faults = W.faults s.wire;
    } };

    ghost invariant = { λ s. (s.waiting ≤ length s.buffer.items)
        × IfSome (W.told s.wire) (λ cable. EndsIn (held s.reader.untaken s.buffer.items s.waiting) cable) };
}

// Feeds what waits.
fn feed(reader: &mut Reader, buffer: &[u8], waiting: &mut usize) -> Result<(), StreamFail>
    requires { waiting.old ≤ length buffer.now }
    ensures held { held reader.new.untaken buffer.now waiting.new ≡ held reader.old.untaken buffer.now waiting.old }
    ensures within { waiting.new ≤ length buffer.now }
    ensures owed { reader.new.owed ≡ reader.old.owed }
    ensures cause { IfErr result (λ e. e ≡ StreamFail.NoMemory) }
{
    match reader.feed(&buffer[..*waiting]) {
        Ok(()) => {
            *waiting = 0;
            Ok(())
        }
        Err(_) => Err(StreamFail::NoMemory),
    }
}

// Reads what comes next into a buffer that isn't empty. A wire that gives nothing has ended.
fn read_some<W: ByteWire>(wire: &mut W, buffer: &mut [u8]) -> Result<usize, StreamFail>
    requires { 0 < length buffer.old }
    ensures within { IfOk result (λ n. n ≤ length buffer.new) }
    ensures told { (tail : List ℕ) → IfOk result (λ n. Fills tail (W.told wire.old) (held tail buffer.new n) (W.told wire.new)) }
    ensures same { (tail : List ℕ) → OnErr result (Fills tail (W.told wire.old) tail (W.told wire.new)) }
    ensures ended { IsErrOf result StreamFail.Ended → IsDry (W.told wire.new) }
    ensures bad { IfErr result (λ e. IsNeverBad e) }
    ensures cause { HasFault StreamFail.Failed result (W.faults wire.old) (W.faults wire.new) }
{
    match wire.read(buffer) {
        Ok(0) => Err(StreamFail::Ended),
        Ok(count) => Ok(count),
        Err(Failed) => Err(StreamFail::Failed),
    }
}

// Room for a whole piece.
fn room(buffer: &mut Vec<u8>) -> Result<(), StreamFail>
    ensures some { OnOk result (0 < length buffer.new.items) }
    ensures cause { IfErr result (λ e. e ≡ StreamFail.NoMemory) }
{
    if buffer.len() < PIECE {
        return match buffer.resize(PIECE, 0) {
            Ok(()) => Ok(()),
            Err(_) => Err(StreamFail::NoMemory),
        };
    }
    Ok(())
}

// Reads once, unless bytes wait that couldn't be fed before, and feeds.
fn fill<W: ByteWire>(
    wire: &mut W,
    reader: &mut Reader,
    buffer: &mut Vec<u8>,
    waiting: &mut usize,
) -> Result<(), StreamFail>
    requires { waiting.old ≤ length buffer.old.items }
    ensures told { Fills (held reader.old.untaken buffer.old.items waiting.old) (W.told wire.old) (held reader.new.untaken buffer.new.items waiting.new) (W.told wire.new) }
    ensures within { waiting.new ≤ length buffer.new.items }
    ensures owed { reader.new.owed ≡ reader.old.owed }
    ensures ended { IsErrOf result StreamFail.Ended → (reader.new ≡ reader.old) × (waiting.new ≡ 0) × IsDry (W.told wire.new) }
    ensures bad { IfErr result (λ e. IsNeverBad e) }
    ensures cause { HasFault StreamFail.Failed result (W.faults wire.old) (W.faults wire.new) }
{
    if *waiting > 0 {
        return feed(reader, buffer.as_slice(), waiting);
    }
    if let Err(fail) = room(buffer) {
        return Err(fail);
    }
    match read_some(wire, buffer.as_mut_slice()) {
        Ok(count) => {
            *waiting = count;
            feed(reader, buffer.as_slice(), waiting)
        }
        Err(fail) => Err(fail),
    }
}

impl<W: ByteWire + Drop> Stream<W> {
    /// A stream over a wire that has carried nothing.
    pub(crate) fn over(alloc: Global, wire: W) -> Stream<W>
        requires { IfSome (W.told wire) IsUnused }
        ensures told { result.told ≡ option_map begun (W.told wire) }
        ensures owed { result.owed ≡ 0 }
        ensures faults { result.faults ≡ W.faults wire }
    {
        Stream {
            wire,
            reader: Reader::new(alloc),
            buffer: Vec::new(alloc),
            waiting: 0,
        }
    }

    pub(crate) fn into_wire(self) -> W
        ensures sent { option_map (λ cable. cable.written) (W.told result) ≡ option_map (λ traffic. traffic.sent) self.told }
        ensures faults { W.faults result ≡ self.faults }
    {
        self.wire
    }

    pub(crate) fn owed(&self) -> u32
        ensures { result ≡ self.now.owed }
    {
        self.reader.owed()
    }

    pub(crate) fn faults(&self) -> u64
        ensures { result ≡ self.now.faults }
    {
        self.wire.faults()
    }

    pub(crate) fn write(&mut self, bytes: &[u8]) -> Result<(), Failed>
        ensures told { Keeps (Sends result bytes.now) self.old.told self.new.told }
        ensures owed { self.new.owed ≡ self.old.owed }
        ensures cause { HasCause result self.old.faults self.new.faults }
        ensures kept { OnOk result (self.new.faults ≡ self.old.faults) }
    {
        self.wire.write(bytes)
    }

    // Moves bytes from the wire to the reader.
    fn fill(&mut self) -> Result<(), StreamFail>
        ensures told { self.new.told ≡ self.old.told }
        ensures owed { self.new.owed ≡ self.old.owed }
        ensures ended { IsErrOf result StreamFail.Ended → IsLeft self.old.fed self.old.told }
        ensures bad { IfErr result (λ e. IsNeverBad e) }
        ensures cause { HasFault StreamFail.Failed result self.old.faults self.new.faults }
    {
        fill(
            &mut self.wire,
            &mut self.reader,
            &mut self.buffer,
            &mut self.waiting,
        )
    }

    // A frame of what is there.
    fn take_frame(&mut self) -> Result<Frame, NextFail>
        requires { self.old.owed ≡ 0 }
        ensures fits { IfOk result (λ frame. Fits frame) }
        ensures told { Keeps (Receives spell result) self.old.told self.new.told }
        ensures owed { IfOk result (λ frame. self.new.owed ≡ owed_by frame) }
        ensures same { OnErr result (self.new ≡ self.old) }
        ensures bad { IfErr result (λ e. IsBadNext e self.old.told) }
        ensures not_yet { IsErrOf result NextFail.NotYet → IsFront self.new.fed }
        ensures faults { self.new.faults ≡ self.old.faults }
    {
        self.reader.next()
    }

    /// The next frame. Where the wire ends before it, what came is a proper front of one.
    pub(crate) fn next_frame(&mut self) -> Result<Frame, StreamFail>
        requires { self.old.owed ≡ 0 }
        ensures fits { IfOk result (λ frame. Fits frame) }
        ensures told { Keeps (Receives spell result) self.old.told self.new.told }
        ensures owed { IfOk result (λ frame. self.new.owed ≡ owed_by frame) }
        ensures none { OnErr result (self.new.owed ≡ 0) }
        ensures same { OnErr result (self.new.told ≡ self.old.told) }
        ensures bad { IfErr result (λ e. IsBadIn e self.old.told) }
        ensures ended { IsErrOf result StreamFail.Ended → EndsInFrame self.old.told }
        ensures cause { HasFault StreamFail.Failed result self.old.faults self.new.faults }
    {
        for _ in 0..u64::MAX {
            match self.take_frame() {
                Ok(frame) => return Ok(frame),
                Err(NextFail::NotYet) => {}
                Err(NextFail::Bad { at }) => return Err(StreamFail::Bad { at }),
                Err(NextFail::NoMemory) => return Err(StreamFail::NoMemory),
            }
            match self.fill() {
                Ok(()) => {}
                Err(fail) => return Err(fail),
            }
        }
        Err(StreamFail::NoMemory)
    }

    // Bytes of what is there.
    fn take_piece(&mut self, count: u32) -> Result<Vec<u8>, PieceFail>
        requires some { 1 ≤ count }
        requires owed { count ≤ self.old.owed }
        requires most { count ≤ PIECE }
        ensures whole { IfOk result (λ bytes. length bytes.items ≡ count) }
        ensures told { Keeps (Receives vec_items result) self.old.told self.new.told }
        ensures owed { OnOk result (self.new.owed + count ≡ self.old.owed) }
        ensures same { OnErr result (self.new ≡ self.old) }
        ensures not_yet { IsErrOf result PieceFail.NotYet → length self.new.fed < count }
        ensures faults { self.new.faults ≡ self.old.faults }
    {
        self.reader.piece(count)
    }

    /// The next bytes of a block. Where the wire ends before them, fewer came.
    pub(crate) fn next_piece(&mut self, count: u32) -> Result<Vec<u8>, StreamFail>
        requires some { 1 ≤ count }
        requires owed { count ≤ self.old.owed }
        requires most { count ≤ PIECE }
        ensures whole { IfOk result (λ bytes. length bytes.items ≡ count) }
        ensures told { Keeps (Receives vec_items result) self.old.told self.new.told }
        ensures owed { OnOk result (self.new.owed + count ≡ self.old.owed) }
        ensures none { OnErr result (self.new.owed ≡ self.old.owed) }
        ensures same { OnErr result (self.new.told ≡ self.old.told) }
        ensures bad { IfErr result (λ e. IsNeverBad e) }
        ensures ended { IsErrOf result StreamFail.Ended → EndsInPiece count self.old.told }
        ensures cause { HasFault StreamFail.Failed result self.old.faults self.new.faults }
    {
        for _ in 0..u64::MAX {
            match self.take_piece(count) {
                Ok(bytes) => return Ok(bytes),
                Err(PieceFail::NotYet) => {}
                Err(PieceFail::NoMemory) => return Err(StreamFail::NoMemory),
            }
            match self.fill() {
                Ok(()) => {}
                Err(fail) => return Err(fail),
            }
        }
        Err(StreamFail::NoMemory)
    }
}
