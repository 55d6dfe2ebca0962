//! Sending a block: its header, and the source's bytes behind it.
ghost use Rattle.std.specs.Prelude.{◌≡◌, ◌≤◌, ◌<◌, ◌+◌, ◌^◌, true, false, is_some, length, min, IfOk, IsErrOf, OnErr, OnOk};
ghost use Rattle.wdt_units.specs.Counts.{Rises};
ghost use Rattle.wdt_units.specs.declared.limits.TheConstants.{PIECE};
ghost use Rattle.wdt_units.specs.Headers.{FitsHeader};
ghost use Rattle.wdt_sender_fsm.specs.Phases.{pieces_in};
ghost use Rattle.wdt_source.specs.Told.{HasFault};
ghost use Rattle.wdt_wire.specs.declared.side.Side.TheVariants.{Down};
ghost use Rattle.wdt_wire.specs.Wires.{written};
ghost use Rattle.wdt_pact.specs.Pairs.{Pair, send_stops, top};
ghost use Rattle.wdt_world.specs.Blocks.{SendsBlock, WrotePieces};
ghost use Rattle.wdt_world.specs.Lines.{on_top};
ghost use Rattle.wdt_world.specs.Pairing.{ShowsLines};

use crate::lines::Lines;
use crate::speaking::wrote_down;
use wdt_codec::{Frame, encode};
use wdt_sender_fsm::SendIn;
use wdt_source::{Source, SourceFail};
use wdt_units::{Header, Name, NoMemory, PIECE};

// The most bytes that are read and written at once.
const MOST: u32 = PIECE as u32;

// How many pieces a block of so many bytes has.
fn count_pieces(length: u32) -> u32
    ensures { result ≡ pieces_in length }
{
    let rest = u64::from(length) + u64::from(MOST - 1);
    (rest / u64::from(MOST)) as u32
}

// The bytes of a file from an offset on.
fn read_piece<S: Source>(
    source: &mut S,
    piece: &mut Vec<u8>,
    path: &Name,
    offset: u64,
    count: usize,
) -> Result<(), SourceFail>
    ensures counted { OnOk result (length piece.new.items ≡ count) }
    ensures told { S.told source.new ≡ S.told source.old }
    ensures cause { HasFault result (S.faults source.old) (S.faults source.new) }
    ensures kept { (IsErrOf result SourceFail.Failed → ⊥) → S.faults source.new ≡ S.faults source.old }
{
    if piece.len() != count {
        piece.clear();
        if piece.resize(count, 0).is_err() {
            return Err(SourceFail::NoMemory);
        }
    }
    source.read_exact_at(path, offset, piece.as_mut_slice())
}

// Reads the next piece and writes it. Where the source fails nothing is written.
fn pass_piece<S: Source>(
    lines: &mut Lines,
    source: &mut S,
    piece: &mut Vec<u8>,
    path: &Name,
    offset: u64,
    count: usize,
) -> Result<(), SourceFail>
    ensures counted { OnOk result (length piece.new.items ≡ count) }
    ensures wrote { OnOk result (lines.new ≡ on_top (λ wire. written wire Down piece.new.items) lines.old) }
    ensures failed { IsErrOf result SourceFail.Failed → lines.new ≡ lines.old }
    ensures told { S.told source.new ≡ S.told source.old }
    ensures cause { HasFault result (S.faults source.old) (S.faults source.new) }
    ensures kept { (IsErrOf result SourceFail.Failed → ⊥) → S.faults source.new ≡ S.faults source.old }
{
    read_piece::<S>(source, piece, path, offset, count)?;
    match lines.write_down(piece.as_slice()) {
        Ok(_) => Ok(()),
        Err(NoMemory) => Err(SourceFail::NoMemory),
    }
}

// Sends the pieces of a block behind the first. Answers how many pieces were sent then, the first among
// them: not all where the source failed.
fn send_rest<S: Source>(
    lines: &mut Lines,
    source: &mut S,
    piece: &mut Vec<u8>,
    path: &Name,
    offset: u64,
    length: u32,
    count: u32,
) -> Result<u32, NoMemory>
    requires all { count ≡ pieces_in length }
    requires some { 1 ≤ count }
    requires end { offset + length < 2 ^ 64 }
    ensures wrote { IfOk result (λ sent. WrotePieces length 1 sent lines.old lines.new) }
    ensures least { IfOk result (λ sent. 1 ≤ sent) }
    ensures most { IfOk result (λ sent. sent ≤ count) }
    ensures cause { IfOk result (λ sent. sent < count → Rises (S.faults source.old) (S.faults source.new)) }
    ensures told { S.told source.new ≡ S.told source.old }
    ensures later { S.faults source.old ≤ S.faults source.new }
{
    for i in 1..count {
        let at = i * MOST;
        let size = (length - at).min(MOST) as usize;
        let place = offset + u64::from(at);
        match pass_piece::<S>(lines, source, piece, path, place, size) {
            Ok(()) => {}
            Err(SourceFail::Failed) => return Ok(i),
            Err(SourceFail::NoMemory) => return Err(NoMemory),
        }
    }
    Ok(count)
}

// Writes a block whose first piece was read, if it has one, and reads the others.
fn write_block<S: Source>(
    bytes: &mut Vec<u8>,
    piece: &mut Vec<u8>,
    lines: &mut Lines,
    source: &mut S,
    path: &Name,
    header: Header,
) -> Result<SendIn, NoMemory>
    requires fits { FitsHeader header }
    requires first { 0 < pieces_in header.length → length piece.old.items ≡ min header.length PIECE }
    ensures sent { (p : Pair) → send_stops p.send ≡ false → is_some (top p) ≡ true → ShowsLines lines.old p → IfOk result (λ input. SendsBlock (Rises (S.faults source.old) (S.faults source.new)) p header input lines.new) }
    ensures told { S.told source.new ≡ S.told source.old }
    ensures later { S.faults source.old ≤ S.faults source.new }
{
    let length = header.length;
    let offset = header.offset;
    let count = count_pieces(length);
    bytes.clear();
    encode(&Frame::Block(header), bytes)?;
    let works = lines.write_down(bytes.as_slice())?;
    if count == 0 {
        return Ok(wrote_down(works));
    }
    let _first = lines.write_down(piece.as_slice())?;
    let sent = send_rest::<S>(lines, source, piece, path, offset, length, count)?;
    if sent < count {
        return Ok(SendIn::SourceLost(false));
    }
    Ok(wrote_down(works))
}

/// The sender's lane writes a block on its connection: the header, and the source's bytes behind it. The
/// first piece is read before anything is written, and the others are read also where a write failed.
/// `bytes` and `piece` are room that is used again.
pub(crate) fn send_block<S: Source>(
    bytes: &mut Vec<u8>,
    piece: &mut Vec<u8>,
    lines: &mut Lines,
    source: &mut S,
    header: Header,
) -> Result<SendIn, NoMemory>
    requires { FitsHeader header }
    ensures sent { (p : Pair) → send_stops p.send ≡ false → is_some (top p) ≡ true → ShowsLines lines.old p → IfOk result (λ input. SendsBlock (Rises (S.faults source.old) (S.faults source.new)) p header input lines.new) }
    ensures told { S.told source.new ≡ S.told source.old }
    ensures later { S.faults source.old ≤ S.faults source.new }
{
    let path = header.path.copy()?;
    if count_pieces(header.length) > 0 {
        let first = header.length.min(MOST) as usize;
        match read_piece::<S>(source, piece, &path, header.offset, first) {
            Ok(()) => {}
            Err(SourceFail::Failed) => return Ok(SendIn::SourceLost(true)),
            Err(SourceFail::NoMemory) => return Err(NoMemory),
        }
    }
    write_block::<S>(bytes, piece, lines, source, &path, header)
}
