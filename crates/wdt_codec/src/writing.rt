//! A frame's spelling.
ghost use Rattle.std.specs.Prelude.{◌≡◌, ◌∷◌, ◌++◌, ◌≤◌, ◌<◌, length, take, drop, OnOk, OnErr};
ghost use Rattle.byteorder.specs.Endian.{big_bytes};
ghost use Rattle.wdt_codec.specs.Frames.{Fits, FitsHeader, flag, spell, spell_settings, spell_mark, spell_marks, spell_size, spell_header};

use crate::append::{append, append_all, put_byte};
use crate::frames::{Frame, Mark, Settings};
use crate::marks::Marks;
use crate::writing_chunks::append_chunks;
use byteorder::{BigEndian, ByteOrder};
use wdt_units::{Header, NoMemory};

/// Appends the frame's one spelling. Its values are in the ranges that its fields state, and the
/// path of a block is none of the receiver's own.
pub fn encode(frame: &Frame, into: &mut Vec<u8>) -> Result<(), NoMemory>
    requires { Fits frame.now }
    ensures spelled { OnOk result (into.new.items ≡ into.old.items ++ spell frame.now) }
    ensures unchanged { OnErr result (into.new.items ≡ into.old.items) }
{
    match frame {
        Frame::Settings(settings) => append(into, &settings_text(settings)),
        Frame::Greeting(mark) => append(into, &mark_text(mark)),
        Frame::Size { files, bytes } => append(into, &size_text(*files, *bytes)),
        Frame::Block(header) => append_header(into, header),
        Frame::Done => append(into, &[0x4C]),
        Frame::Chunks(have) => append_chunks(into, have),
        Frame::Wait => append(into, &[0x57]),
        Frame::ErrMarks(marks) => append_err(into, marks),
        Frame::Abort(code) => append(into, &[0x41, *code]),
    }
}

fn settings_text(settings: &Settings) -> [u8; 20]
    ensures { result ≡ 0x53 ∷ spell_settings settings.now }
{
    let mut text = [0x53; 20];
    BigEndian::write_u16(&mut text[1..], settings.version);
    BigEndian::write_u64(&mut text[3..], settings.session);
    put_byte(&mut text[11..], settings.lane.0);
    put_byte(&mut text[12..], settings.lanes);
    BigEndian::write_u16(&mut text[13..], settings.conn.0);
    BigEndian::write_u32(&mut text[15..], settings.block);
    put_byte(&mut text[19..], flag(settings.ask));
    text
}

fn flag(ask: bool) -> u8
    ensures { result ≡ flag ask }
{
    if ask { 1 } else { 0 }
}

fn mark_text(mark: &Mark) -> [u8; 6]
    ensures { result ≡ 0x47 ∷ spell_mark mark.now }
{
    let mut text = [0x47; 6];
    put_byte(&mut text[1..], mark.lane.0);
    BigEndian::write_u32(&mut text[2..], mark.count);
    text
}

fn size_text(files: u32, bytes: u64) -> [u8; 13]
    ensures { result ≡ 0x5A ∷ spell_size files bytes }
{
    let mut text = [0x5A; 13];
    BigEndian::write_u32(&mut text[1..], files);
    BigEndian::write_u64(&mut text[5..], bytes);
    text
}

// The path stands between two parts of fixed length, so a failure in between takes back what is
// there of the frame.
fn append_header(into: &mut Vec<u8>, header: &Header) -> Result<(), NoMemory>
    requires { FitsHeader header.now }
    ensures spelled { OnOk result (into.new.items ≡ into.old.items ++ 0x44 ∷ spell_header header.now) }
    ensures unchanged { OnErr result (into.new.items ≡ into.old.items) }
{
    let before = into.len();
    let path = header.path.bytes();
    let front = front_text(path.len() as u16);
    match append_all(into, &front, path, &part_text(header)) {
        Ok(()) => Ok(()),
        Err(fail) => {
            into.truncate(before);
            Err(fail)
        }
    }
}

fn front_text(length: u16) -> [u8; 3]
    ensures { result ≡ 0x44 ∷ big_bytes 2 length }
{
    let mut text = [0x44; 3];
    BigEndian::write_u16(&mut text[1..], length);
    text
}

fn part_text(header: &Header) -> [u8; 28]
    ensures { result ≡ big_bytes 8 header.now.size ++ (big_bytes 8 header.now.stamp ++ (big_bytes 8 header.now.offset ++ big_bytes 4 header.now.length)) }
{
    let mut text = [0; 28];
    BigEndian::write_u64(&mut text, header.size);
    BigEndian::write_u64(&mut text[8..], header.stamp);
    BigEndian::write_u64(&mut text[16..], header.offset);
    BigEndian::write_u32(&mut text[24..], header.length);
    text
}

// A failure on the way takes back what is there of the frame.
fn append_err(into: &mut Vec<u8>, marks: &Marks) -> Result<(), NoMemory>
    requires { length marks.now ≤ 15 }
    ensures spelled { OnOk result (into.new.items ≡ into.old.items ++ 0x45 ∷ spell_marks marks.now) }
    ensures unchanged { OnErr result (into.new.items ≡ into.old.items) }
{
    let before = into.len();
    match append_marks(into, marks.items()) {
        Ok(()) => Ok(()),
        Err(fail) => {
            into.truncate(before);
            Err(fail)
        }
    }
}

fn append_marks(into: &mut Vec<u8>, marks: &[Mark]) -> Result<(), NoMemory>
    requires { length marks.now ≤ 15 }
    ensures spelled { OnOk result (into.new.items ≡ into.old.items ++ 0x45 ∷ spell_marks marks.now) }
    ensures begun { OnErr result (take (length into.old.items) into.new.items ≡ into.old.items) }
{
    append(into, &[0x45, marks.len() as u8])?;
    for mark in marks {
        append(into, &mark_text(mark)[1..])?;
    }
    Ok(())
}
