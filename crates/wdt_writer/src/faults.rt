//! Why a block may not begin: its file is known otherwise, a position is taken, or a limit would be passed.
ghost use Rattle.std.specs.Prelude.{◌≡◌, ◌+◌, ◌≤◌, map, option_map, sum_by, IsTrue, Some};
ghost use Rattle.std.specs.List.{list_any};
ghost use Rattle.wdt_units.specs.Headers.{FitsHeader};
ghost use Rattle.wdt_logfmt.specs.Beginning.{begin_fault, first_shared, first_taken, is_of_file, least_position, length_of, limit_fault, number_of, size_fault, span_cost, span_of};
ghost use Rattle.wdt_logfmt.specs.Marks.{marked_of};
ghost use Rattle.wdt_writer.specs.Answers.{of_fault};
ghost use Rattle.wdt_writer.specs.OnWay.{AreSound};
ghost use Rattle.wdt_writer.specs.PlainWriter.{are_within, blocks_of, whole};
ghost use Rattle.wdt_writer.specs.Standing.{begun_spans, first_with};

use crate::fail::WriteFail;
use crate::parts::Part;
use wdt_files::Files;
use wdt_ranges::Span;
use wdt_units::{Block, Header, MAX_FILE_SIZE, MAX_FILES, MAX_SPANS, MAX_TOTAL};

/// Why the header's block may not begin beside those that are begun, if anything stands in its way: its
/// file, its positions or a limit, in this order. It takes no memory, and the same time however many files
/// and spans there are.
pub fn fault(files: &Files, parts: &[Option<Part>], header: &Header) -> Option<WriteFail>
    requires header { FitsHeader header.now }
    requires sound { AreSound files.now.known files.now.named parts.now }
    ensures { result ≡ option_map of_fault (begin_fault files.now.known (map marked_of files.now.named) (blocks_of parts.now) header.now) }
{
    let number = files.number(&header.path);
    if let Some(fail) = size_fault(files, number, header) {
        return Some(fail);
    }
    let block = Block {
        file: number.unwrap_or(files.next_number()),
        offset: header.offset,
        length: header.length,
    };
    if let Some(offset) = first_taken(files, parts, block) {
        return Some(WriteFail::Overlap { offset });
    }
    limit_fault(files, parts, number.is_none(), block)
}

// The header's file is known with another size or stamp.
fn size_fault(files: &Files, number: Option<u32>, header: &Header) -> Option<WriteFail>
    requires { number ≡ number_of files.now.known (header.now).path }
    ensures { result ≡ option_map of_fault (size_fault files.now.known header.now) }
{
    let (_, size, stamp) = files.file(number?);
    if size == header.size && stamp == header.stamp {
        return None;
    }
    Some(WriteFail::SizeDiffers {
        size,
        stamp,
        told_size: header.size,
        told_stamp: header.stamp,
    })
}

// ---- positions

// The least position of a block that is there or on its way; 0 for an empty block whose file is.
fn first_taken(files: &Files, parts: &[Option<Part>], block: Block) -> Option<u64>
    requires ends { block.offset + block.length ≤ MAX_FILE_SIZE }
    requires within { IsTrue (are_within parts.now) }
    ensures { result ≡ first_taken (map marked_of files.now.named) (blocks_of parts.now) block }
{
    if block.length == 0 {
        return if files.is_named(block.file) || is_begun(parts, block.file) {
            Some(0)
        } else {
            None
        };
    }
    let span = Span {
        offset: block.offset,
        length: u64::from(block.length),
    };
    least(
        files.first_shared(block.file, span),
        first_begun(parts, block),
    )
}

// A block of the file of a number is begun.
fn is_begun(parts: &[Option<Part>], number: u32) -> bool
    ensures { result ≡ list_any (is_of_file number) (blocks_of parts.now) }
{
    for part in parts {
        if let Some(part) = part {
            if part.block.file == number {
                return true;
            }
        }
    }
    false
}

// The least position of a block that has one, in a block of its file that is begun.
fn first_begun(parts: &[Option<Part>], block: Block) -> Option<u64>
    requires ends { block.offset + block.length ≤ MAX_FILE_SIZE }
    requires within { IsTrue (are_within parts.now) }
    ensures { result ≡ first_shared (begun_spans block.file parts.now) (span_of block) }
{
    let mut first = None;
    for part in parts {
        if let Some(part) = part {
            first = least(first, first_in_both(block, part.block));
        }
    }
    first
}

// The least position that two blocks of a file have in common.
fn first_in_both(block: Block, other: Block) -> Option<u64>
    requires ends { block.offset ≤ MAX_FILE_SIZE }
    requires within { other.offset ≤ MAX_FILE_SIZE }
    ensures { result ≡ first_with block (Some (whole other)) }
{
    let apart = block.file != other.file
        || block.offset + u64::from(block.length) <= other.offset
        || other.offset + u64::from(other.length) <= block.offset;
    if apart {
        return None;
    }
    Some(block.offset.max(other.offset))
}

// The lesser of two positions.
fn least(one: Option<u64>, other: Option<u64>) -> Option<u64>
    ensures { result ≡ least_position one other }
{
    match (one, other) {
        (Some(one), Some(other)) => Some(one.min(other)),
        (Some(position), None) => Some(position),
        (None, position) => position,
    }
}

// ---- limits

// More files, spans or bytes than a transfer may have, with the block and all that are begun.
fn limit_fault(files: &Files, parts: &[Option<Part>], new: bool, block: Block) -> Option<WriteFail>
    requires spans { sum_by (span_cost (map marked_of files.now.named)) (blocks_of parts.now) ≤ MAX_SPANS }
    requires bytes { sum_by length_of (blocks_of parts.now) ≤ MAX_TOTAL }
    ensures { result ≡ option_map of_fault (limit_fault files.now.known (map marked_of files.now.named) (blocks_of parts.now) new block) }
{
    let count = files.known() + u32::from(new);
    if count > MAX_FILES {
        return over(u64::from(count));
    }
    let spans = files.spans() + span_cost(files, block) + span_costs(files, parts);
    if spans > MAX_SPANS {
        return over(u64::from(spans));
    }
    let bytes = files.bytes() + u64::from(block.length) + lengths(parts);
    if bytes > MAX_TOTAL {
        return over(bytes);
    }
    None
}

fn over(count: u64) -> Option<WriteFail>
    ensures { result ≡ Some (WriteFail.OverLimit count) }
{
    Some(WriteFail::OverLimit { count })
}

// How many spans more a block is reckoned as.
fn span_cost(files: &Files, block: Block) -> u32
    ensures cost { result ≡ span_cost (map marked_of files.now.named) block }
    ensures one { result ≤ 1 }
{
    if block.length == 0 {
        return 0;
    }
    if block.offset > 0 && files.is_there(block.file, block.offset - 1) {
        return 0;
    }
    1
}

// How many spans more the begun blocks are reckoned as.
fn span_costs(files: &Files, parts: &[Option<Part>]) -> u32
    requires { sum_by (span_cost (map marked_of files.now.named)) (blocks_of parts.now) ≤ MAX_SPANS }
    ensures { result ≡ sum_by (span_cost (map marked_of files.now.named)) (blocks_of parts.now) }
{
    let mut costs = 0;
    for part in parts {
        if let Some(part) = part {
            costs += span_cost(files, part.block);
        }
    }
    costs
}

// How many bytes the begun blocks have.
fn lengths(parts: &[Option<Part>]) -> u64
    requires { sum_by length_of (blocks_of parts.now) ≤ MAX_TOTAL }
    ensures { result ≡ sum_by length_of (blocks_of parts.now) }
{
    let mut bytes = 0;
    for part in parts {
        if let Some(part) = part {
            bytes += u64::from(part.block.length);
        }
    }
    bytes
}
