//! A block's bytes, from a source to the end of a list.
ghost use Rattle.std.specs.Prelude.{◌≡◌, ◌<◌, ◌+◌, ◌^◌, true, IfSome, OnOk, IsOkUnless, length};
ghost use Rattle.wdt_source.specs.Told.{HasFault, is_within_file};
ghost use Rattle.wdt_rehearsal.specs.Landing.{AddsBlock};

use wdt_source::{Source, SourceFail};
use wdt_units::{Name, PIECE};

/// Appends a block's bytes to a list, piece by piece. The buffer for pieces is used again. Where the
/// source fails, some of the bytes may have been appended.
pub fn read_block<S: Source>(
    source: &mut S,
    path: &Name,
    offset: u64,
    length: u32,
    piece: &mut Vec<u8>,
    into: &mut Vec<u8>,
) -> Result<(), SourceFail>
    requires fits { offset + length < 2 ^ 64 }
    requires within { IfSome (S.told source.old) (λ files. is_within_file files path.now offset length ≡ true) }
    ensures appended { OnOk result (AddsBlock (S.told source.old) path.now offset length into.old.items into.new.items) }
    ensures told { S.told source.new ≡ S.told source.old }
    ensures listing { S.listing source.new ≡ S.listing source.old }
    ensures cause { HasFault result (S.faults source.old) (S.faults source.new) }
    ensures slips { IfSome (S.told source.old) (λ files. S.slips source.new ≡ S.slips source.old) }
{
    let length = length as usize;
    let mut done = 0;
    while done < length {
        let count = PIECE.min(length - done);
        resize(piece, count)?;
        source.read_exact_at(path, offset + done as u64, piece)?;
        into.extend_from_slice(piece)?;
        done += count;
    }
    Ok(())
}

fn resize(piece: &mut Vec<u8>, count: usize) -> Result<(), SourceFail>
    ensures length { OnOk result (length piece.new.items ≡ count) }
    ensures fail { IsOkUnless result SourceFail.NoMemory }
{
    if piece.len() != count {
        piece.resize(count, 0)?;
    }
    Ok(())
}
