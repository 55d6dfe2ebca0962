//! A stream that comes in pieces.
ghost use Rattle.std.specs.Prelude.{◌≡◌, ◌↔◌, ◌≤◌, ◌<◌, ◌+◌, ◌++◌, ℕ, List, [], length, take, drop, IfOk, IfErr, OnOk, OnErr, IsErrOf};
ghost use Rattle.wdt_codec.specs.declared.frames.Frame.{Frame as AFrame};
ghost use Rattle.wdt_codec.specs.Frames.{owed_by};
ghost use Rattle.wdt_codec.specs.Grammar.{IsFrame, IsReason, IsFront, IsBadAt, Finds, IsNotYet, IsBad, with_rest};

use crate::chunks::Partial;
use crate::fails::{NextFail, PieceFail};
use crate::frames::Frame;
use crate::reading::read_on;
use std::alloc::Global;
use std::marker::Model;
use wdt_units::{NoMemory, PIECE};

/// Takes a stream in pieces, cut anywhere, and gives its frames and the raw bytes of its blocks. It
/// is seen as the bytes that were fed and not taken, and how many bytes of the last block are owed.
///
/// Room grows with the bytes that were fed, never by a length that a frame states. A frame that isn't
/// there in full is read again with the bytes that come next, but a Chunks goes on at the file where it
/// stopped.
#[derive(Drop)]
pub struct Reader {
    alloc: Global,
    bytes: Vec<u8>,
    // Where the bytes that weren't taken begin.
    start: usize,
    owed: u32,
    // The files of a Chunks that has come in part.
    partial: Option<Partial>,
}

impl Model for Reader {
    ghost use Rattle.std.specs.Prelude.{◌≤◌, length, drop, IfSome};
    ghost use Rattle.wdt_codec.specs.Partial.{Stands};
    ghost use Rattle.wdt_codec.specs.Stream.{Held};

    ghost Value = { Held };

    ghost view = { λ r. record { untaken = drop r.start r.bytes.items; owed = r.owed } };

    ghost invariant = { λ r. (r.start ≤ length r.bytes.items) × IfSome r.partial (λ p. Stands p (drop 1 (drop r.start r.bytes.items))) };
}

impl Reader {
    /// A reader that was fed nothing and is owed nothing.
    pub fn new(alloc: Global) -> Reader
        ensures { result ≡ record { untaken = []; owed = 0 } }
    {
        Reader {
            alloc,
            bytes: Vec::new(alloc),
            start: 0,
            owed: 0,
            partial: None,
        }
    }

    /// Takes in the stream's next bytes.
    pub fn feed(&mut self, piece: &[u8]) -> Result<(), NoMemory>
        ensures fed { OnOk result (self.new.untaken ≡ self.old.untaken ++ piece.now) }
        ensures owed { self.new.owed ≡ self.old.owed }
        ensures unchanged { OnErr result (self.new ≡ self.old) }
    {
        self.start = compact(&mut self.bytes, self.start);
        match self.bytes.extend_from_slice(piece) {
            Ok(()) => Ok(()),
            Err(_) => Err(NoMemory),
        }
    }

    /// Takes the next frame, where no bytes of a block are owed. Behind a block its length in bytes
    /// is owed. NotYet, Bad and NoMemory take nothing.
    pub fn next(&mut self) -> Result<Frame, NextFail>
        requires { self.old.owed ≡ 0 }
        ensures found { IfOk result (λ f. IsFrame self.old.untaken f self.new.untaken) }
        ensures owed { IfOk result (λ f. self.new.owed ≡ owed_by f) }
        ensures unchanged { OnErr result (self.new ≡ self.old) }
        ensures reason { IfErr result (λ e. IsReason self.old.untaken e) }
        // Unless memory runs out, each of the three comes exactly where it is right.
        ensures frame { (f : AFrame) (rest : List ℕ) → IsFrame self.old.untaken f rest → Finds (with_rest self.new.untaken result) f rest }
        ensures not_yet { IsFront self.old.untaken → IsNotYet result }
        ensures bad { (i : ℕ) → IsBadAt self.old.untaken i → IsBad result i }
    {
        match read_on(self.alloc, &mut self.partial, &self.bytes[self.start..]) {
            Ok((frame, rest)) => {
                let left = rest.len();
                self.start = self.bytes.len() - left;
                self.owed = owed_by(&frame);
                Ok(frame)
            }
            Err(fail) => Err(fail),
        }
    }

    /// How many bytes of the last block weren't taken.
    pub fn owed(&self) -> u32
        ensures { result ≡ self.now.owed }
    {
        self.owed
    }

    /// Takes the next `count` bytes of the block: 1 to the smaller of what is owed and 65,536.
    /// NotYet and NoMemory take nothing.
    pub fn piece(&mut self, count: u32) -> Result<Vec<u8>, PieceFail>
        requires some { 1 ≤ count }
        requires owed { count ≤ self.old.owed }
        requires most { count ≤ PIECE }
        ensures whole { IfOk result (λ v. length v.items ≡ count) }
        ensures taken { IfOk result (λ v. self.old.untaken ≡ v.items ++ self.new.untaken) }
        ensures owed { OnOk result (self.new.owed + count ≡ self.old.owed) }
        ensures unchanged { OnErr result (self.new ≡ self.old) }
        ensures not_yet { IsErrOf result PieceFail.NotYet ↔ (length self.old.untaken < count) }
    {
        if self.bytes.len() - self.start < count as usize {
            return Err(PieceFail::NotYet);
        }
        let end = self.start + count as usize;
        match copied(self.alloc, &self.bytes[self.start..end]) {
            Ok(piece) => {
                self.start = end;
                self.owed -= count;
                self.partial = None;
                Ok(piece)
            }
            Err(NoMemory) => Err(PieceFail::NoMemory),
        }
    }
}

// Moves what is left to the front, once as much was taken as is left: so no byte is moved for more
// than one that was taken. Answers where what is left begins.
fn compact(bytes: &mut Vec<u8>, start: usize) -> usize
    requires { start ≤ length bytes.old.items }
    ensures left { drop result bytes.new.items ≡ drop start bytes.old.items }
    ensures within { result ≤ length bytes.new.items }
{
    let left = bytes.len() - start;
    if start < left {
        return start;
    }
    bytes.copy_within(start.., 0);
    bytes.truncate(left);
    0
}

fn copied(alloc: Global, bytes: &[u8]) -> Result<Vec<u8>, NoMemory>
    ensures { IfOk result (λ v. v.items ≡ bytes.now) }
{
    let mut copy = Vec::new(alloc);
    match copy.extend_from_slice(bytes) {
        Ok(()) => Ok(copy),
        Err(_) => Err(NoMemory),
    }
}

fn owed_by(frame: &Frame) -> u32
    ensures { result ≡ owed_by frame.now }
{
    match frame {
        Frame::Block(header) => header.length,
        _ => 0,
    }
}
