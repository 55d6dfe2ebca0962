//! The files that a receiver knows.
ghost use Rattle.std.specs.Prelude.{◌≡◌, ◌<◌, ◌≤◌, false, map, length, IfOk, IsSome, IsTrue, None, OnErr, OnOk, Some};
ghost use Rattle.wdt_ranges.specs.Spans.{are_apart, has, is_span, plain_span};
ghost use Rattle.wdt_units.specs.Path.{is_reserved};
ghost use Rattle.wdt_logfmt.specs.Adding.{all_added};
ghost use Rattle.wdt_logfmt.specs.Batches.{block_entries, is_known};
ghost use Rattle.wdt_logfmt.specs.Beginning.{first_shared, free_number, known_at, known_count, number_of};
ghost use Rattle.wdt_logfmt.specs.Marks.{bytes_in, is_marked, marked_of, spans_in};
ghost use Rattle.wdt_logfmt.specs.Spelling.{written_version};
ghost use Rattle.wdt_logfmt.specs.View.{is_view, named_files};
ghost use Rattle.wdt_files.specs.PlainFiles.{AreLawful, files_of, there_at, with_file, with_landed};

use crate::numbers::{number_of, set_number};
use crate::opening::{bytes_of, numbers_of, slots_of, spans_of};
use crate::slots::{Slot, fill, land, make_room, next_free, slot_of};
use std::alloc::Global;
use std::collections::BTreeMap;
use std::marker::Model;
use wdt_logfmt::LogView;
use wdt_ranges::{FileHave, Ranges, Span};
use wdt_units::{Block, MAX_FILE_SIZE, MAX_FILES, MAX_SPANS, MAX_TOTAL, Name, NoMemory};

/// The files that a receiver knows. They are seen as the known files by number, and the named ones.
#[derive(Debug, Drop)]
pub struct Files {
    // By number.
    slots: Vec<Option<Slot>>,
    // The number of each path.
    numbers: BTreeMap<String, u32>,
    // The least number that no file has.
    free: u32,
    // How many files are known and named, how many spans are there, and how many bytes.
    known: u32,
    named: u32,
    spans: usize,
    bytes: u64,
}

impl Model for Files {
    ghost use Rattle.wdt_files.specs.PlainFiles.{PlainFiles};
    ghost use Rattle.wdt_files.specs.Slots.{number_in, plain_files, IsKept};

    ghost Value = { PlainFiles };

    ghost view = { λ f. plain_files f.slots.items };

    ghost invariant = { λ f. IsKept f.slots.items (number_in f.numbers) f.free f.known f.named f.spans f.bytes };
}

impl Files {
    /// The files that a log names, all of them known.
    pub fn of(alloc: Global, view: &LogView) -> Result<Files, NoMemory>
        requires { IsTrue (is_view (named_files (view.now).files.items)) }
        ensures files { IfOk result (λ files. files ≡ files_of (named_files (view.now).files.items)) }
        ensures sound { IfOk result (λ files. AreLawful files) }
    {
        let slots = slots_of(alloc, &view.files)?;
        let numbers = numbers_of(alloc, &slots)?;
        let count = view.files.len() as u32;
        Ok(Files {
            free: next_free(&slots, 0),
            known: count,
            named: count,
            spans: spans_of(&view.files),
            bytes: bytes_of(&view.files),
            slots,
            numbers,
        })
    }

    /// The number of the file at a path, where it is known.
    pub fn number(&self, path: &Name) -> Option<u32>
        ensures { result ≡ number_of self.now.known path.now }
    {
        number_of(&self.numbers, path)
    }

    /// The path, size and stamp of the known file of a number.
    pub fn file(&self, number: u32) -> (&Name, u64, u64)
        requires { IsTrue (is_known self.now.known number) }
        ensures { known_at self.now.known number ≡ Some (record { path = (result.0).now; size = result.1; stamp = result.2 }) }
    {
        match slot_of(&self.slots, number) {
            Some(slot) => (&slot.file.path, slot.file.size, slot.file.stamp),
            None => unreachable!(),
        }
    }

    /// The number that the next new file gets: the least that no known file has.
    pub fn next_number(&self) -> u32
        ensures number { result ≡ free_number self.now.known }
        ensures limit { result ≤ MAX_FILES }
    {
        self.free
    }

    /// Whether the file of a number is named.
    pub fn is_named(&self, number: u32) -> bool
        ensures { result ≡ is_marked (map marked_of self.now.named) number }
    {
        match slot_of(&self.slots, number) {
            Some(slot) => slot.is_named,
            None => false,
        }
    }

    /// The least position of a span that is there in the file of a number.
    pub fn first_shared(&self, number: u32, span: Span) -> Option<u64>
        requires { IsTrue (is_span (plain_span span)) }
        ensures { result ≡ first_shared (there_at self.now number) (plain_span span) }
    {
        match slot_of(&self.slots, number) {
            Some(slot) => slot.file.spans.first_shared(span),
            None => None,
        }
    }

    /// Whether a position of the file of a number is there.
    pub fn is_there(&self, number: u32, position: u64) -> bool
        ensures { result ≡ has (there_at self.now number) position }
    {
        match slot_of(&self.slots, number) {
            Some(slot) => contains(&slot.file.spans, position),
            None => false,
        }
    }

    /// How many files are known.
    pub fn known(&self) -> u32
        ensures count { result ≡ known_count self.now.known }
        ensures limit { result ≤ MAX_FILES }
    {
        self.known
    }

    /// How many files are named.
    pub fn named(&self) -> u32
        ensures count { result ≡ length self.now.named }
        ensures limit { result ≤ MAX_FILES }
    {
        self.named
    }

    /// How many spans are there in all files together.
    pub fn spans(&self) -> u32
        ensures count { result ≡ spans_in (map marked_of self.now.named) }
        ensures limit { result ≤ MAX_SPANS }
    {
        self.spans as u32
    }

    /// How many bytes are there in all files together.
    pub fn bytes(&self) -> u64
        ensures count { result ≡ bytes_in (map marked_of self.now.named) }
        ensures limit { result ≤ MAX_TOTAL }
    {
        self.bytes
    }

    /// A further file is known: a lawful path that isn't the receiver's own and isn't known, of at most 2^40
    /// bytes, beside fewer than 262,144 others. Answers its number.
    pub fn put(&mut self, path: Name, size: u64, stamp: u64) -> Result<u32, NoMemory>
        requires new { number_of self.old.known path ≡ None }
        requires free { is_reserved path ≡ false }
        requires small { size ≤ MAX_FILE_SIZE }
        requires few { known_count self.old.known < MAX_FILES }
        ensures number { IfOk result (λ number. number ≡ free_number self.old.known) }
        ensures known { OnOk result (self.new ≡ with_file self.old record { path = path; size = size; stamp = stamp }) }
        ensures sound { OnOk result (AreLawful self.new) }
        ensures unchanged { OnErr result (self.new ≡ self.old) }
    {
        let alloc = *self.slots.allocator();
        let number = self.free;
        make_room(&mut self.slots)?;
        set_number(&mut self.numbers, alloc, &path, number)?;
        let file = FileHave {
            path,
            size,
            stamp,
            spans: Ranges::none(alloc),
        };
        fill(
            &mut self.slots,
            number,
            Slot {
                file,
                is_named: false,
            },
        );
        self.free = next_free(&self.slots, number + 1);
        self.known += 1;
        Ok(number)
    }

    /// A block of a known file is there, and the file is named. What is logged of it continues what is named.
    pub fn land(&mut self, block: Block) -> Result<(), NoMemory>
        requires known { IsTrue (is_known self.old.known block.file) }
        requires can { IsSome (all_added written_version self.old.named (block_entries self.old.known self.old.named block)) }
        ensures landed { OnOk result (self.new ≡ with_landed self.old block) }
        ensures sound { OnOk result (AreLawful self.new) }
        ensures unchanged { OnErr result (self.new ≡ self.old) }
    {
        let was_named = self.is_named(block.file);
        self.spans = land(&mut self.slots, block, self.spans)?;
        self.bytes += block.length as u64;
        if !was_named {
            self.named += 1;
        }
        Ok(())
    }
}

// Whether a position is in a set.
fn contains(spans: &Ranges, position: u64) -> bool
    requires { IsTrue (are_apart spans.now) }
    ensures { result ≡ has spans.now position }
{
    if position >= MAX_FILE_SIZE {
        return false;
    }
    spans.covers(Span {
        offset: position,
        length: 1,
    })
}
