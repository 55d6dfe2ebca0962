//! Frames in the ranges of the grammar.
ghost use Rattle.std.specs.Prelude.{◌<◌, ◌≤◌, IfOk, IfSome};
ghost use Rattle.wdt_units.specs.Headers.{FitsHeader};
ghost use Rattle.wdt_codec.specs.Frames.{FitsSettings};

use std::alloc::Global;
use wdt_codec::Settings;
use wdt_plain_receiver::{LANES, tree};
use wdt_units::{Conn, Header, Lane, MAX_BLOCK, MAX_FILE_SIZE, Name, NoMemory};

/// The number of each transfer.
const SESSION: u64 = 77;

/// The greatest length of a block that a sender tells.
const BLOCK: u32 = 16;

/// What the sender says of itself on a lane's connection of this number.
pub fn settings_of(lane: Lane, conn: Conn, ask: bool) -> Settings
    requires { lane.0 < LANES }
    ensures { FitsSettings result }
{
    Settings {
        version: 1,
        session: SESSION,
        lane,
        lanes: LANES,
        conn: Conn(conn.0.max(1)),
        block: BLOCK,
        ask,
    }
}

/// The path of a file of the tree.
pub fn name_of(alloc: Global, file: usize) -> Result<Name, NoMemory> {
    match Name::read(alloc, tree::path_of(file)) {
        Ok(name) => Ok(name),
        // Each path of the tree is lawful.
        Err(_) => Err(NoMemory),
    }
}

/// The header of a block of a file at this path, which is told to have this size and stamp: None where no header
/// is so.
pub fn header_at(path: Name, told: (u64, u64), offset: u64, length: u32) -> Option<Header>
    ensures { IfSome result (λ header. FitsHeader header) }
{
    let (size, stamp) = told;
    if path.reserved() || size > MAX_FILE_SIZE || offset > size {
        return None;
    }
    if u64::from(length) > size - offset || length > MAX_BLOCK || (length == 0 && size > 0) {
        return None;
    }
    Some(Header {
        path,
        size,
        stamp,
        offset,
        length,
    })
}

/// The header of a block of a file of the tree.
pub fn header_of(
    alloc: Global,
    file: usize,
    told: (u64, u64),
    offset: u64,
    length: u32,
) -> Result<Option<Header>, NoMemory>
    ensures { IfOk result (λ found. IfSome found (λ header. FitsHeader header)) }
{
    Ok(header_at(name_of(alloc, file)?, told, offset, length))
}
