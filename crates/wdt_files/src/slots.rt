//! Known files by number, in slots of which some are free.
ghost use Rattle.std.specs.Prelude.{◌≡◌, ◌+◌, ◌<◌, ◌≤◌, map, length, option_map, slice_get, vec_capacity, vec_len, false, IfOk, IfSome, IsOk, IsSome, IsTrue, None, OnErr, OnOk, Some, true};
ghost use Rattle.wdt_ranges.specs.Files.{have_file};
ghost use Rattle.wdt_logfmt.specs.Beginning.{free_number};
ghost use Rattle.wdt_units.specs.declared.blocks.Block.{Block};
ghost use Rattle.wdt_files.specs.Slots.{filled, have_landed, known_in, slot_at, spans_by, HasRoom, IsLanded};

use wdt_ranges::{AddFail, FileHave, Ranges, Span};
use wdt_units::{Block, MAX_FILE_SIZE, MAX_FILES, MAX_SPANS, NoMemory};

/// A file that is known.
#[derive(Debug, Drop)]
pub struct Slot {
    pub file: FileHave,
    pub is_named: bool,
}

/// The file of a number, where it is known.
pub fn slot_of(slots: &[Option<Slot>], number: u32) -> Option<&Slot>
    ensures { option_map (λ slot. slot.now) result ≡ slot_at slots.now number }
{
    if number as usize >= slots.len() {
        return None;
    }
    slots[number as usize].as_ref()
}

/// The least number that no file has, where each number below `from` is a file's.
pub fn next_free(slots: &[Option<Slot>], from: u32) -> u32
    requires below { from ≤ free_number (map known_in slots.now) }
    requires few { length slots.now ≤ MAX_FILES }
    ensures { result ≡ free_number (map known_in slots.now) }
{
    for number in from as usize..slots.len() {
        if slots[number].is_none() {
            return number as u32;
        }
    }
    slots.len() as u32
}

/// Makes room for one more slot.
pub fn make_room(slots: &mut Vec<Option<Slot>>) -> Result<(), NoMemory>
    ensures same { slots.new.items ≡ slots.old.items }
    ensures room { OnOk result (vec_len slots.new < vec_capacity slots.new) }
{
    slots.reserve(1)?;
    Ok(())
}

/// Puts a file into the first free slot, whose number this is.
pub fn fill(slots: &mut Vec<Option<Slot>>, number: u32, slot: Slot)
    requires free { number ≡ free_number (map known_in slots.old.items) }
    requires room { vec_len slots.old < vec_capacity slots.old }
    ensures { slots.new.items ≡ filled slots.old.items slot }
{
    if number as usize >= slots.len() {
        slots.push(Some(slot)).unwrap();
    } else {
        slots[number as usize] = Some(slot);
    }
}

/// Lays the positions of a block over its file, which is named from then on. Answers how many spans all
/// files have then, of which there were so many before.
pub fn land(slots: &mut Vec<Option<Slot>>, block: Block, spans: usize) -> Result<usize, NoMemory>
    requires known { IsSome (slot_at slots.old.items block.file) }
    requires small { IfSome (slot_at slots.old.items block.file) (λ slot. slot.file.size ≤ MAX_FILE_SIZE) }
    requires room { IfSome (slot_at slots.old.items block.file) (λ slot. HasRoom block (have_file slot.file)) }
    requires within { IfSome (slot_at slots.old.items block.file) (λ slot. length slot.file.spans ≤ spans) }
    requires few { spans ≤ MAX_SPANS }
    ensures landed { OnOk result (IsLanded slots.old.items block slots.new.items) }
    ensures spans { IfOk result (λ now. now + length (spans_by (slot_at slots.old.items block.file)) ≡ spans + length (spans_by (slot_at slots.new.items block.file))) }
    ensures unchanged { OnErr result (slots.new.items ≡ slots.old.items) }
{
    match &mut slots[block.file as usize] {
        Some(slot) => land_in(slot, block, spans),
        None => unreachable!(),
    }
}

// The same at the block's slot.
fn land_in(slot: &mut Slot, block: Block, spans: usize) -> Result<usize, NoMemory>
    requires small { slot.old.file.size ≤ MAX_FILE_SIZE }
    requires room { HasRoom block (have_file slot.old.file) }
    requires within { length slot.old.file.spans ≤ spans }
    requires few { spans ≤ MAX_SPANS }
    ensures named { OnOk result (slot.new.is_named ≡ true) }
    ensures landed { OnOk result (have_file slot.new.file ≡ have_landed block (have_file slot.old.file)) }
    ensures spans { IfOk result (λ now. now + length slot.old.file.spans ≡ spans + length slot.new.file.spans) }
    ensures unchanged { OnErr result (slot.new ≡ slot.old) }
{
    let now = lay(&mut slot.file, block, spans)?;
    slot.is_named = true;
    Ok(now)
}

// Lays the positions of a block over its file.
fn lay(file: &mut FileHave, block: Block, spans: usize) -> Result<usize, NoMemory>
    requires small { file.old.size ≤ MAX_FILE_SIZE }
    requires room { HasRoom block (have_file file.old) }
    requires within { length file.old.spans ≤ spans }
    requires few { spans ≤ MAX_SPANS }
    ensures laid { OnOk result (have_file file.new ≡ have_landed block (have_file file.old)) }
    ensures spans { IfOk result (λ now. now + length file.old.spans ≡ spans + length file.new.spans) }
    ensures unchanged { OnErr result (file.new ≡ file.old) }
{
    if block.length == 0 {
        return Ok(spans);
    }
    let span = Span {
        offset: block.offset,
        length: block.length as u64,
    };
    let before = file.spans.count();
    match file.spans.add(span) {
        Ok(()) => {
            let now = file.spans.count();
            Ok(spans - before + now)
        }
        Err(AddFail::NoMemory) => Err(NoMemory),
        Err(AddFail::Overlap { .. }) => unreachable!(),
    }
}
