//! The blocks of gaps.
ghost use Rattle.std.specs.Prelude.{◌≡◌, ℕ, ◌+◌, [], ◌∷◌, ◌++◌, ◌<◌, ◌≤◌, ◌^◌, length, map, IfOk, IsTrue};
ghost use Rattle.wdt_ranges.specs.Spans.{plain_span, are_apart};
ghost use Rattle.wdt_rest.specs.RestOf.{pieces_in, pieces_of, gap_pieces};

use wdt_ranges::Span;
use wdt_units::{Block, MAX_FILE_SIZE, NoMemory};

// How many blocks a gap has.
fn pieces_in(gap: Span, block: u32) -> u64
    requires some { 0 < block }
    requires end { gap.offset + gap.length ≤ MAX_FILE_SIZE }
    ensures count { result ≡ pieces_in block (plain_span gap) }
    ensures few { result ≤ gap.length }
{
    (gap.length + u64::from(block) - 1) / u64::from(block)
}

// How many blocks gaps have together.
pub fn count_pieces(gaps: &[Span], block: u32) -> u64
    requires some { 0 < block }
    requires apart { IsTrue (are_apart (map plain_span gaps.now)) }
    ensures count { (file : ℕ) → result ≡ length (gap_pieces block file (map plain_span gaps.now)) }
    ensures few { result ≤ MAX_FILE_SIZE }
{
    let mut count = 0;
    for gap in gaps {
        count += pieces_in(*gap, block);
    }
    count
}

// Appends the blocks of gaps of a file.
pub fn push_pieces(
    gaps: &[Span],
    file: u32,
    block: u32,
    blocks: &mut Vec<Block>,
) -> Result<(), NoMemory>
    requires some { 0 < block }
    requires apart { IsTrue (are_apart (map plain_span gaps.now)) }
    ensures { IfOk result (λ _. blocks.new.items ≡ blocks.old.items ++ gap_pieces block file (map plain_span gaps.now)) }
{
    for gap in gaps {
        push_gap(*gap, file, block, blocks)?;
    }
    Ok(())
}

// Appends the blocks of a gap, from its start in whole blocks and a shorter last one.
fn push_gap(gap: Span, file: u32, block: u32, blocks: &mut Vec<Block>) -> Result<(), NoMemory>
    requires some { 0 < block }
    requires end { gap.offset + gap.length ≤ MAX_FILE_SIZE }
    ensures { IfOk result (λ _. blocks.new.items ≡ blocks.old.items ++ pieces_of block file (plain_span gap)) }
{
    for k in 0..pieces_in(gap, block) {
        let done = k * u64::from(block);
        let length = u64::from(block).min(gap.length - done) as u32;
        push(
            Block {
                file,
                offset: gap.offset + done,
                length,
            },
            blocks,
        )?;
    }
    Ok(())
}

// Appends a block.
pub fn push(block: Block, blocks: &mut Vec<Block>) -> Result<(), NoMemory>
    ensures { IfOk result (λ _. blocks.new.items ≡ blocks.old.items ++ block ∷ []) }
{
    blocks.push(block)?;
    Ok(())
}
