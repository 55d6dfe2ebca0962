//! The last block of a connection and what is owed of it, for whoever writes a link.
ghost use Rattle.std.specs.Prelude.{◌≡◌, ◌≤◌, ◌<◌, ◌+◌, [], Option, Some, None, IfOk, string_bytes};
ghost use Rattle.std.specs.String.{string_capacity};
ghost use Rattle.wdt_link.specs.Calls.{HasAlarm, is_abort};
ghost use Rattle.wdt_link.specs.Owing.{IsOwed, IsPlace, block_behind, is_piece_slip};

use std::alloc::Global;
use wdt_codec::Frame;
use wdt_units::{Header, MAX_PATH, Name, NoMemory, PIECE};

/// Room for the path of a block that may come. It is made before a frame is taken, so that one that was
/// taken is never refused for memory.
pub fn path_room(alloc: Global) -> Result<String, NoMemory>
    ensures empty { IfOk result (λ room. string_bytes room ≡ []) }
    ensures fits { IfOk result (λ room. MAX_PATH ≤ string_capacity room) }
{
    match String::with_capacity(alloc, MAX_PATH) {
        Ok(room) => Ok(room),
        Err(_) => Err(NoMemory),
    }
}

// A copy in memory that was made before.
fn copy_of(header: &Header, room: String) -> Header
    requires empty { string_bytes room ≡ [] }
    requires fits { MAX_PATH ≤ string_capacity room }
    ensures { result ≡ header.now }
{
    Header {
        path: header.path.copy_to(room),
        size: header.size,
        stamp: header.stamp,
        offset: header.offset,
        length: header.length,
    }
}

/// Keeps a block's header as the last block, in room that was made before. Another frame changes nothing.
pub fn keep_block(block: &mut Option<Header>, frame: &Frame, room: String)
    requires empty { string_bytes room ≡ [] }
    requires fits { MAX_PATH ≤ string_capacity room }
    ensures { block.new ≡ block_behind block.old frame.now }
{
    if let Frame::Block(header) = frame {
        *block = Some(copy_of(header, room));
    }
}

/// The count of alarms behind a frame that was received.
pub fn alarms_behind(alarms: u64, frame: &Frame) -> u64
    ensures { HasAlarm (is_abort frame.now) alarms result }
{
    match frame {
        Frame::Abort(_) => alarms.saturating_add(1),
        _ => alarms,
    }
}

/// The path of the last block, and the place in its file of the next byte that is owed.
pub fn next_place(block: &Option<Header>, owed: u32) -> Result<(Name, u64), NoMemory>
    requires some { 0 < owed }
    requires owed { IsOwed block.now owed }
    ensures { IfOk result (λ place. IsPlace block.now owed place.0 place.1) }
{
    match block {
        Some(header) => match header.path.copy() {
            Ok(path) => Ok((path, header.offset + u64::from(header.length - owed))),
            Err(NoMemory) => Err(NoMemory),
        },
        // Bytes are owed of a block alone.
        None => Err(NoMemory),
    }
}

/// Whether a call for so many bytes of a block is a slip, where so many are owed.
pub fn is_piece_slip(count: u32, owed: u32) -> bool
    ensures { result ≡ is_piece_slip count owed }
{
    count == 0 || count as usize > PIECE || count > owed
}
