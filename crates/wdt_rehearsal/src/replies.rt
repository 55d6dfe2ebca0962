//! What the sending half of a rehearsal hears of the receiving half.
ghost use Rattle.std.specs.Prelude.{◌≡◌, ℕ, List, ◌++◌, IfOk, OnOk};
ghost use Rattle.wdt_units.specs.Have.{HaveFile};
ghost use Rattle.wdt_codec.specs.declared.frames.Frame.{Frame as AFrame};
ghost use Rattle.wdt_codec.specs.declared.frames.Frame.TheVariants as frames;
ghost use Rattle.wdt_codec.specs.Chunks.{FitsChunks};
ghost use Rattle.wdt_codec.specs.Frames.{spell, owed_by};
ghost use Rattle.wdt_codec.specs.Grammar.{IsFrame};
ghost use Rattle.wdt_rehearsal.specs.Replies.{greeting, Begins, Takes, Reads};

use crate::receiver::TakeFail;
use std::alloc::Global;
use wdt_codec::{Frame, NextFail, Reader};
use wdt_ranges::Have;

/// Reads a receiver's greeting, which has no block of lane 0 yet, and what it says it has. Bytes that
/// begin otherwise are refused.
pub fn read_greeting(alloc: Global, up: &[u8]) -> Result<Have, TakeFail>
    ensures begins { IfOk result (λ have. Begins (spell greeting ++ spell (frames.Chunks have)) up.now) }
    ensures read { (files : List HaveFile) → FitsChunks files → up.now ≡ spell greeting ++ spell (frames.Chunks files) → Reads files result }
{
    let mut reader = Reader::new(alloc);
    reader.feed(up)?;
    hear_greeting(&mut reader)?;
    hear_have(&mut reader)
}

/// Reads a receiver's last word. Bytes that begin otherwise are refused.
pub fn read_done(alloc: Global, up: &[u8]) -> Result<(), TakeFail>
    ensures begins { OnOk result (Begins (spell frames.Done) up.now) }
    ensures read { up.now ≡ spell frames.Done → Reads tt result }
{
    let mut reader = Reader::new(alloc);
    reader.feed(up)?;
    hear_done(&mut reader)
}

fn hear_greeting(reader: &mut Reader) -> Result<(), TakeFail>
    requires { reader.old.owed ≡ 0 }
    ensures found { OnOk result (reader.old.untaken ≡ spell greeting ++ reader.new.untaken) }
    ensures taken { (rest : List ℕ) → reader.old.untaken ≡ spell greeting ++ rest → Takes tt rest result reader.new.untaken }
    ensures owed { OnOk result (reader.new.owed ≡ 0) }
{
    match hear(reader) {
        Ok(frame) => match frame {
            Frame::Greeting(mark) => {
                if mark.lane.0 == 0 && mark.count == 0 {
                    Ok(())
                } else {
                    Err(TakeFail::Unexpected)
                }
            }
            _other => Err(TakeFail::Unexpected),
        },
        Err(fail) => Err(fail),
    }
}

fn hear_have(reader: &mut Reader) -> Result<Have, TakeFail>
    requires { reader.old.owed ≡ 0 }
    ensures found { IfOk result (λ have. reader.old.untaken ≡ spell (frames.Chunks have) ++ reader.new.untaken) }
    ensures taken { (files : List HaveFile) (rest : List ℕ) → FitsChunks files → reader.old.untaken ≡ spell (frames.Chunks files) ++ rest → Takes files rest result reader.new.untaken }
{
    match hear(reader) {
        Ok(frame) => match frame {
            Frame::Chunks(have) => Ok(have),
            _other => Err(TakeFail::Unexpected),
        },
        Err(fail) => Err(fail),
    }
}

fn hear_done(reader: &mut Reader) -> Result<(), TakeFail>
    requires { reader.old.owed ≡ 0 }
    ensures found { OnOk result (reader.old.untaken ≡ spell frames.Done ++ reader.new.untaken) }
    ensures taken { (rest : List ℕ) → reader.old.untaken ≡ spell frames.Done ++ rest → Takes tt rest result reader.new.untaken }
{
    match hear(reader) {
        Ok(frame) => match frame {
            Frame::Done => Ok(()),
            _other => Err(TakeFail::Unexpected),
        },
        Err(fail) => Err(fail),
    }
}

// Takes the frame that stands first.
fn hear(reader: &mut Reader) -> Result<Frame, TakeFail>
    requires { reader.old.owed ≡ 0 }
    ensures found { IfOk result (λ f. IsFrame reader.old.untaken f reader.new.untaken) }
    ensures taken { (f : AFrame) (rest : List ℕ) → IsFrame reader.old.untaken f rest → Takes f rest result reader.new.untaken }
    ensures owed { IfOk result (λ f. reader.new.owed ≡ owed_by f) }
{
    match reader.next() {
        Ok(frame) => Ok(frame),
        Err(NextFail::NotYet | NextFail::Bad { .. }) => Err(TakeFail::Unexpected),
        Err(NextFail::NoMemory) => Err(TakeFail::NoMemory),
    }
}
