//! A frame at the front of the bytes.
ghost use Rattle.std.specs.Prelude.{◌≡◌, List, ℕ, length, drop, IfOk, IfErr, IfSome, OnOk, None};
ghost use Rattle.wdt_codec.specs.declared.frames.Frame.{Frame as AFrame};
ghost use Rattle.wdt_codec.specs.Frames.{frame_at};
ghost use Rattle.wdt_codec.specs.Grammar.{IsFrame, IsReason, IsFront, IsBadAt, Finds, IsNotYet, IsBad, seen};
ghost use Rattle.wdt_codec.specs.Partial.{Stands};
ghost use Rattle.wdt_codec.specs.Reading.{Gives};

use crate::chunks::{Partial, read_chunks};
use crate::counts::{read_code, read_mark, read_size};
use crate::fails::{NextFail, ReadFail};
use crate::frames::Frame;
use crate::headers::read_header;
use crate::marks::read_marks;
use crate::settings::read_settings;
use std::alloc::Global;

/// The frame at the front of the bytes, and the bytes behind it.
pub fn read_frame(alloc: Global, bytes: &[u8]) -> Result<(Frame, &[u8]), NextFail>
    ensures found { IfOk result (λ x. IsFrame bytes.now x.0 x.1.now) }
    ensures reason { IfErr result (λ e. IsReason bytes.now e) }
    // Unless memory runs out, each of the three comes exactly where it is right.
    ensures frame { (f : AFrame) (rest : List ℕ) → IsFrame bytes.now f rest → Finds (seen result) f rest }
    ensures not_yet { IsFront bytes.now → IsNotYet result }
    ensures bad { (i : ℕ) → IsBadAt bytes.now i → IsBad result i }
{
    let mut partial = None;
    read_on(alloc, &mut partial, bytes)
}

/// The same, but a Chunks goes on where the last call on a front of the bytes ended.
pub fn read_on<'a>(
    alloc: Global,
    partial: &mut Option<Partial>,
    bytes: &'a [u8],
) -> Result<(Frame, &'a [u8]), NextFail>
    requires { IfSome partial.old (λ p. Stands p (drop 1 bytes.now)) }
    ensures found { IfOk result (λ x. IsFrame bytes.now x.0 x.1.now) }
    ensures reason { IfErr result (λ e. IsReason bytes.now e) }
    ensures frame { (f : AFrame) (rest : List ℕ) → IsFrame bytes.now f rest → Finds (seen result) f rest }
    ensures not_yet { IsFront bytes.now → IsNotYet result }
    ensures bad { (i : ℕ) → IsBadAt bytes.now i → IsBad result i }
    ensures whole { OnOk result (partial.new ≡ None) }
    ensures stands { IfSome partial.new (λ p. Stands p (drop 1 bytes.now)) }
{
    match read_fields(alloc, partial, bytes) {
        Ok(found) => Ok(found),
        Err(ReadFail::NoMemory) => Err(NextFail::NoMemory),
        Err(ReadFail::NotYet) => Err(NextFail::NotYet),
        Err(ReadFail::Bad(left)) => Err(NextFail::Bad {
            at: (bytes.len() - left) as u32,
        }),
    }
}

#[tactic(auto, unfolding(crate::specs::Frames::frame_at))]
fn read_fields<'a>(
    alloc: Global,
    partial: &mut Option<Partial>,
    bytes: &'a [u8],
) -> Result<(Frame, &'a [u8]), ReadFail>
    requires { IfSome partial.old (λ p. Stands p (drop 1 bytes.now)) }
    ensures reads { Gives (λ x. (x.0, x.1.now)) result (frame_at bytes.now) }
    ensures whole { OnOk result (partial.new ≡ None) }
    ensures stands { IfSome partial.new (λ p. Stands p (drop 1 bytes.now)) }
{
    let before = partial.take();
    match bytes {
        [] => Err(ReadFail::NotYet),
        [0x5A, rest @ ..] => {
            let ((files, bytes), rest) = read_size(rest)?;
            Ok((Frame::Size { files, bytes }, rest))
        }
        [0x57, rest @ ..] => Ok((Frame::Wait, rest)),
        [0x53, rest @ ..] => {
            let (settings, rest) = read_settings(rest)?;
            Ok((Frame::Settings(settings), rest))
        }
        [0x4C, rest @ ..] => Ok((Frame::Done, rest)),
        [0x47, rest @ ..] => {
            let (mark, rest) = read_mark(rest, 0, 15)?;
            Ok((Frame::Greeting(mark), rest))
        }
        [0x45, rest @ ..] => {
            let (marks, rest) = read_marks(rest)?;
            Ok((Frame::ErrMarks(marks), rest))
        }
        [0x44, rest @ ..] => {
            let (header, rest) = read_header(alloc, rest)?;
            Ok((Frame::Block(header), rest))
        }
        [0x43, rest @ ..] => {
            let (have, rest) = read_chunks(alloc, before, partial, rest)?;
            Ok((Frame::Chunks(have), rest))
        }
        [0x41, rest @ ..] => {
            let (code, rest) = read_code(rest)?;
            Ok((Frame::Abort(code), rest))
        }
        [_, ..] => Err(ReadFail::Bad(bytes.len())),
    }
}
