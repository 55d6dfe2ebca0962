//! Sending a block: its header, and the source's bytes behind it.
ghost use Rattle.std.specs.Prelude.{◌≡◌, ◌≤◌, ◌<◌, ◌+◌, ◌-◌, ◌^◌, ℕ, length, Some, true, IfSome, IfErr, IsErrOf, OnOk};
ghost use Rattle.wdt_units.specs.Tree.{IsRead};
ghost use Rattle.wdt_codec.specs.declared.frames.Frame.TheVariants as frames;
ghost use Rattle.wdt_sender_fsm.specs.declared.acts.SendAct.TheVariants as acts;
ghost use Rattle.wdt_sender_fsm.specs.Acts.{is_answer};
ghost use Rattle.wdt_source.specs.Told.{HasFault as HasSourceFault};
ghost use Rattle.wdt_link.specs.Calls.{HasAlarm, HasFault};
ghost use Rattle.wdt_link.specs.Saying.{IsFrameSaid, IsPieceSaid};
ghost use Rattle.wdt_link.specs.Traffic.{Tells};
ghost use Rattle.wdt_lanes.specs.Acts.{is_cut, is_source_lost};
ghost use Rattle.wdt_lanes.specs.Kept.{HasBytes};
ghost use Rattle.wdt_lanes.specs.Performing.{Performs, PutsMuch, PutsMuchBy, fails_by, is_piece_answer, is_piece_fail};

use std::alloc::Global;
use std::mem;
use wdt_codec::Frame;
use wdt_link::{Link, LinkFail, Said};
use wdt_sender_fsm::SendIn;
use wdt_source::{Source, SourceFail};
use wdt_tree::Run;
use wdt_units::{Header, Name, PIECE};

// The most bytes that are sent at once.
const MOST: u32 = PIECE as u32;

// The bytes of a file from an offset on.
fn read_piece<N: Run, S: Source>(
    source: &mut S,
    piece: &mut Vec<u8>,
    path: &Name,
    offset: u64,
    count: usize,
) -> Result<(), SourceFail>
    requires told { IfSome N.told (λ run. S.told source.old ≡ Some run.tree) }
    requires there { IfSome N.told (λ run. HasBytes run.tree path.now offset count) }
    ensures counted { OnOk result (length piece.new.items ≡ count) }
    ensures bytes { OnOk result (IfSome N.told (λ run. IsRead run.tree path.now offset piece.new.items)) }
    ensures told { S.told source.new ≡ S.told source.old }
    ensures cause { HasSourceFault result (S.faults source.old) (S.faults source.new) }
    ensures kept { (IsErrOf result SourceFail.Failed → ⊥) → S.faults source.new ≡ S.faults source.old }
    ensures slips { IfSome N.told (λ run. S.slips source.new ≡ S.slips source.old) }
{
    if piece.len() != count {
        piece.clear();
        if piece.resize(count, 0).is_err() {
            return Err(SourceFail::NoMemory);
        }
    }
    source.read_exact_at(path, offset, piece.as_mut_slice())
}

// Sends the piece that was read, and leaves an empty one.
fn send_piece<N: Run, L: Link<Said<N>>>(
    alloc: Global,
    link: &mut L,
    piece: &mut Vec<u8>,
    path: &Name,
    offset: u64,
) -> Result<(), LinkFail>
    requires { IsPieceSaid N.told path.now offset piece.old.items }
    ensures told { Tells (PutsMuch result (length piece.old.items)) (L.told link.old) (L.told link.new) }
    ensures faults { HasFault LinkFail.Failed result (L.faults link.old) (L.faults link.new) }
    ensures alarms { L.alarms link.new ≡ L.alarms link.old }
    ensures slips { L.slips link.new ≡ L.slips link.old }
    ensures owing { L.owing link.new ≡ L.owing link.old }
    ensures mark { L.mark link.new ≡ L.mark link.old }
{
    let Ok(name) = path.copy() else {
        return Err(LinkFail::NoMemory);
    };
    let bytes = mem::replace(piece, Vec::new(alloc));
    link.send_piece(Said::piece(name, offset, bytes))
}

// Reads the next piece and sends it.
fn pass_piece<N: Run, S: Source, L: Link<Said<N>>>(
    alloc: Global,
    link: &mut L,
    source: &mut S,
    piece: &mut Vec<u8>,
    path: &Name,
    offset: u64,
    count: u32,
) -> Result<(), SendIn>
    requires some { 1 ≤ count }
    requires most { count ≤ PIECE }
    requires told { IfSome N.told (λ run. S.told source.old ≡ Some run.tree) }
    requires there { IfSome N.told (λ run. HasBytes run.tree path.now offset count) }
    ensures told { Tells (PutsMuch result count) (L.told link.old) (L.told link.new) }
    ensures fails { IfErr result (λ e. is_piece_fail e ≡ true) }
    ensures faults { HasAlarm (fails_by is_cut result) (L.faults link.old) (L.faults link.new) }
    ensures alarms { L.alarms link.new ≡ L.alarms link.old }
    ensures slips { L.slips link.new ≡ L.slips link.old }
    ensures owing { L.owing link.new ≡ L.owing link.old }
    ensures mark { L.mark link.new ≡ L.mark link.old }
    ensures source { HasAlarm (fails_by is_source_lost result) (S.faults source.old) (S.faults source.new) }
    ensures kept { S.told source.new ≡ S.told source.old }
    ensures within { IfSome N.told (λ run. S.slips source.new ≡ S.slips source.old) }
{
    match read_piece::<N, S>(source, piece, path, offset, count as usize) {
        Ok(()) => {}
        Err(SourceFail::Failed) => return Err(SendIn::SourceLost(false)),
        Err(SourceFail::NoMemory) => return Err(SendIn::Starved),
    }
    match send_piece::<N, L>(alloc, link, piece, path, offset) {
        Ok(()) => Ok(()),
        Err(LinkFail::Failed) => Err(SendIn::Lost),
        Err(LinkFail::NoMemory) => Err(SendIn::Starved),
    }
}

// Sends the rest of a block, of which so many bytes were sent.
fn send_rest<N: Run, S: Source, L: Link<Said<N>>>(
    alloc: Global,
    link: &mut L,
    source: &mut S,
    piece: &mut Vec<u8>,
    path: &Name,
    offset: u64,
    length: u32,
    first: u32,
) -> SendIn
    requires sent { first ≤ length }
    requires end { offset + length < 2 ^ 64 }
    requires told { IfSome N.told (λ run. S.told source.old ≡ Some run.tree) }
    requires there { IfSome N.told (λ run. HasBytes run.tree path.now offset length) }
    ensures told { Tells (PutsMuchBy result (length - first)) (L.told link.old) (L.told link.new) }
    ensures answers { is_piece_answer result ≡ true }
    ensures faults { HasAlarm (is_cut result) (L.faults link.old) (L.faults link.new) }
    ensures alarms { L.alarms link.new ≡ L.alarms link.old }
    ensures slips { L.slips link.new ≡ L.slips link.old }
    ensures owing { L.owing link.new ≡ L.owing link.old }
    ensures mark { L.mark link.new ≡ L.mark link.old }
    ensures source { HasAlarm (is_source_lost result) (S.faults source.old) (S.faults source.new) }
    ensures kept { S.told source.new ≡ S.told source.old }
    ensures within { IfSome N.told (λ run. S.slips source.new ≡ S.slips source.old) }
{
    let mut at = first;
    while at < length {
        let count = (length - at).min(MOST);
        let place = offset + u64::from(at);
        if let Err(fail) = pass_piece::<N, S, L>(alloc, link, source, piece, path, place, count) {
            return fail;
        }
        at += count;
    }
    SendIn::Wrote
}

/// Sends a block. The first piece is read before the header is written, so where the source fails on it
/// nothing was sent.
pub(crate) fn send_block<N: Run, S: Source, L: Link<Said<N>>>(
    alloc: Global,
    link: &mut L,
    source: &mut S,
    piece: &mut Vec<u8>,
    header: Header,
) -> SendIn
    requires said { IsFrameSaid N.told (frames.Block header) }
    requires told { IfSome N.told (λ run. S.told source.old ≡ Some run.tree) }
    ensures told { Tells (Performs (acts.SendBlock header) result) (L.told link.old) (L.told link.new) }
    ensures answers { is_answer (acts.SendBlock header) result ≡ true }
    ensures faults { HasAlarm (is_cut result) (L.faults link.old) (L.faults link.new) }
    ensures alarms { L.alarms link.new ≡ L.alarms link.old }
    ensures slips { L.slips link.new ≡ L.slips link.old }
    ensures owing { L.owing link.new ≡ L.owing link.old }
    ensures mark { L.mark link.new ≡ L.mark link.old }
    ensures source { HasAlarm (is_source_lost result) (S.faults source.old) (S.faults source.new) }
    ensures kept { S.told source.new ≡ S.told source.old }
    ensures within { IfSome N.told (λ run. S.slips source.new ≡ S.slips source.old) }
{
    let length = header.length;
    let offset = header.offset;
    let Ok(path) = header.path.copy() else {
        return SendIn::Starved;
    };
    let first = length.min(MOST);
    match read_piece::<N, S>(source, piece, &path, offset, first as usize) {
        Ok(()) => {}
        Err(SourceFail::Failed) => return SendIn::SourceLost(true),
        Err(SourceFail::NoMemory) => return SendIn::Starved,
    }
    match link.send(Said::frame(Frame::Block(header))) {
        Ok(()) => {}
        Err(LinkFail::Failed) => return SendIn::Lost,
        Err(LinkFail::NoMemory) => return SendIn::Starved,
    }
    if length == 0 {
        return SendIn::Wrote;
    }
    match send_piece::<N, L>(alloc, link, piece, &path, offset) {
        Ok(()) => {}
        Err(LinkFail::Failed) => return SendIn::Lost,
        Err(LinkFail::NoMemory) => return SendIn::Starved,
    }
    send_rest::<N, S, L>(alloc, link, source, piece, &path, offset, length, first)
}
