//! The files that the entries of a log lead to.
ghost use Rattle.std.specs.Prelude.{◌≡◌, ℕ, ◌+◌, ◌<◌, ◌≤◌, ◌||◌, not, if◌then◌else◌, List, [], ◌∷◌, ◌++◌, length, is_some, option_map, slice_set, vec_len, IfOk, OnOk, IfSome, IsTrue};
ghost use Rattle.std.specs.BTreeSet.{contains_by};
ghost use Rattle.std.specs.Cmp.Lexicographic.{slice_cmp};
ghost use Rattle.std.specs.Ordering.{nat_cmp};
ghost use Rattle.std.specs.Str.{bytes_eq};
ghost use Rattle.wdt_ranges.specs.Files.{have_file};
ghost use Rattle.wdt_ranges.specs.Spans.{plain_span};
ghost use Rattle.wdt_logfmt.specs.declared.entry.LogEntry.{LogEntry};
ghost use Rattle.wdt_logfmt.specs.Adding.{added, has_room, have_with};
ghost use Rattle.wdt_logfmt.specs.Slots.{files_in, slot_of};
ghost use Rattle.wdt_logfmt.specs.View.{is_nameable, is_view, named_files};

use crate::view::LogFile;
use std::alloc::Global;
use std::collections::BTreeSet;
use std::marker::Model;
use wdt_ranges::{AddFail, FileHave, Ranges, Span};
use wdt_units::{
    MAX_BLOCK, MAX_FILE_SIZE, MAX_FILES, MAX_SPANS, MAX_TOTAL, Name, NameFail, NoMemory,
    is_reserved,
};

/// The files that entries have led to so far, seen as their list, which rises by number.
#[derive(Drop)]
pub struct Files<'a> {
    // By number. An entry finds its file at once, whatever the order in which the numbers came.
    slots: Vec<Option<FileHave>>,
    // The paths of the files.
    paths: BTreeSet<&'a [u8]>,
    // How many spans all files have, and how many bytes they cover.
    spans: usize,
    bytes: u64,
}

impl<'a> Model for Files<'a> {
    ghost use Rattle.std.specs.Prelude.{List};
    ghost use Rattle.std.specs.BTreeSet.{contains_by};
    ghost use Rattle.std.specs.Cmp.Lexicographic.{slice_cmp};
    ghost use Rattle.std.specs.Ordering.{nat_cmp};
    ghost use Rattle.wdt_logfmt.specs.View.{NamedFile};
    ghost use Rattle.wdt_logfmt.specs.Slots.{files_in, IsKept};

    ghost Value = { List NamedFile };

    ghost view = { λ f. files_in 0 f.slots.items };

    ghost invariant = { λ f. IsKept f.slots.items (λ path. contains_by (λ k. slice_cmp nat_cmp path k.now) f.paths) f.spans f.bytes };
}

impl<'a> Files<'a> {
    pub fn none(alloc: Global) -> Files<'a>
        ensures { result ≡ [] }
    {
        Files {
            slots: Vec::new(alloc),
            paths: BTreeSet::new(alloc),
            spans: 0,
            bytes: 0,
        }
    }

    /// The files with one more, or None where it can't be named behind these.
    pub fn naming(
        mut self,
        number: u32,
        path: &'a [u8],
        size: u64,
        stamp: u64,
    ) -> Result<Option<Files<'a>>, NoMemory>
        ensures { IfOk result (λ after. after ≡ added 1 self.entry (LogEntry.File number path.now size stamp)) }
    {
        let alloc = *self.slots.allocator();
        let Some(name) = name_of(alloc, number, path, size)? else {
            return Ok(None);
        };
        if is_taken(&self.slots, number) {
            return Ok(None);
        }
        if !add_path(&mut self.paths, path)? {
            return Ok(None);
        }
        make_slot(&mut self.slots, number)?;
        self.slots[number as usize] = Some(FileHave {
            path: name,
            size,
            stamp,
            spans: Ranges::none(alloc),
        });
        Ok(Some(self))
    }

    /// The files with one more covered span, or None where it can't be covered in these.
    pub fn covering(
        mut self,
        number: u32,
        offset: u64,
        length: u32,
    ) -> Result<Option<Files<'a>>, NoMemory>
        ensures { IfOk result (λ after. after ≡ added 1 self.entry (LogEntry.Covered number offset length)) }
    {
        if length == 0 {
            return Ok(None);
        }
        if length > MAX_BLOCK {
            return Ok(None);
        }
        let Some(file) = take_file(&mut self.slots, number) else {
            return Ok(None);
        };
        let span = Span {
            offset,
            length: length as u64,
        };
        let covered = with_span(file, span, self.spans)?;
        let Some((file, spans)) = covered else {
            return Ok(None);
        };
        if spans > MAX_SPANS as usize {
            return Ok(None);
        }
        let bytes = self.bytes + span.length;
        if bytes > MAX_TOTAL {
            return Ok(None);
        }
        self.slots[number as usize] = Some(file);
        self.spans = spans;
        self.bytes = bytes;
        Ok(Some(self))
    }

    /// The files as a list that rises by number.
    pub fn into_list(self, alloc: Global) -> Result<Vec<LogFile>, NoMemory>
        ensures files { IfOk result (λ files. named_files files.items ≡ self.entry) }
        ensures view { OnOk result (IsTrue (is_view self.entry)) }
    {
        list_of(alloc, self.slots)
    }
}

// The files of the slots.
fn list_of(alloc: Global, mut slots: Vec<Option<FileHave>>) -> Result<Vec<LogFile>, NoMemory>
    requires { vec_len slots ≤ MAX_FILES }
    ensures { IfOk result (λ files. named_files files.items ≡ files_in 0 slots.items) }
{
    let mut files = Vec::new(alloc);
    for number in 0..slots.len() as u32 {
        let file = take_file(&mut slots, number);
        push_file(&mut files, number, file)?;
    }
    Ok(files)
}

// Appends the file of this number, if there is one.
fn push_file(files: &mut Vec<LogFile>, number: u32, file: Option<FileHave>) -> Result<(), NoMemory>
    ensures { OnOk result (named_files files.new.items ≡ named_files files.old.items ++ files_in number (file ∷ [])) }
{
    match file {
        Some(have) => push(files, LogFile { number, have }),
        None => Ok(()),
    }
}

fn push<T: Drop>(items: &mut Vec<T>, item: T) -> Result<(), NoMemory>
    ensures { OnOk result (items.new.items ≡ items.old.items ++ item ∷ []) }
{
    match items.push(item) {
        Ok(()) => Ok(()),
        Err(_) => Err(NoMemory),
    }
}

// The name of a file that a log can name, or None where it can't.
fn name_of(alloc: Global, number: u32, path: &[u8], size: u64) -> Result<Option<Name>, NoMemory>
    ensures nameable { IfOk result (λ name. is_some name ≡ is_nameable number path.now size) }
    ensures name { IfOk result (λ name. IfSome name (λ name. name ≡ path.now)) }
{
    if number >= MAX_FILES {
        return Ok(None);
    }
    if size > MAX_FILE_SIZE {
        return Ok(None);
    }
    if is_reserved(path) {
        return Ok(None);
    }
    match Name::read(alloc, path) {
        Ok(name) => Ok(Some(name)),
        Err(NameFail::Bad) => Ok(None),
        Err(NameFail::NoMemory) => Err(NoMemory),
    }
}

// Adds a path to a set of them, or answers false where it is there.
fn add_path<'a>(paths: &mut BTreeSet<&'a [u8]>, path: &'a [u8]) -> Result<bool, NoMemory>
    ensures added { IfOk result (λ added. added ≡ not (contains_by (λ k. slice_cmp nat_cmp path.now k.now) paths.old)) }
    ensures paths { OnOk result ((other : List ℕ)
        → contains_by (λ k. slice_cmp nat_cmp other k.now) paths.new ≡ (bytes_eq path.now other || contains_by (λ k. slice_cmp nat_cmp other k.now) paths.old)) }
{
    match paths.insert(path) {
        Ok(added) => Ok(added),
        Err(_) => Err(NoMemory),
    }
}

// Whether a file has this number.
fn is_taken(slots: &[Option<FileHave>], number: u32) -> bool
    ensures { result ≡ is_some (slot_of slots.now number) }
{
    if number as usize >= slots.len() {
        return false;
    }
    slots[number as usize].is_some()
}

// Makes the slot of this number, if it isn't there.
fn make_slot(slots: &mut Vec<Option<FileHave>>, number: u32) -> Result<(), NoMemory>
    requires number { number < MAX_FILES }
    requires few { vec_len slots.old ≤ MAX_FILES }
    ensures same { OnOk result (files_in 0 slots.new.items ≡ files_in 0 slots.old.items) }
    ensures there { OnOk result (number < vec_len slots.new) }
    ensures few { OnOk result (vec_len slots.new ≤ MAX_FILES) }
{
    for _ in slots.len()..number as usize + 1 {
        push(slots, None)?;
    }
    Ok(())
}

// Takes the file of this number out of its slot.
fn take_file(slots: &mut Vec<Option<FileHave>>, number: u32) -> Option<FileHave>
    ensures file { result ≡ slot_of slots.old.items number }
    ensures taken { slots.new.items ≡ slice_set slots.old.items number None }
{
    if number as usize >= slots.len() {
        return None;
    }
    slots[number as usize].take()
}

// The file with one more span, and how many spans all files have with it, of which there were so many
// before. None where the file has no room for the span.
fn with_span(
    mut file: FileHave,
    span: Span,
    spans: usize,
) -> Result<Option<(FileHave, usize)>, NoMemory>
    requires some { 0 < span.length }
    requires size { file.size ≤ MAX_FILE_SIZE }
    requires within { length file.spans ≤ spans }
    requires few { spans ≤ MAX_SPANS }
    ensures file { IfOk result (λ after. option_map (λ x. have_file x.0) after
        ≡ (if has_room (plain_span span) (have_file file) then Some (have_with (plain_span span) (have_file file)) else None)) }
    ensures spans { IfOk result (λ after. IfSome after (λ x. x.1 + length file.spans ≡ spans + length (x.0).spans)) }
{
    if span.offset > file.size || span.length > file.size - span.offset {
        return Ok(None);
    }
    let before = file.spans.count();
    match file.spans.add(span) {
        Ok(()) => {
            let now = file.spans.count();
            Ok(Some((file, spans - before + now)))
        }
        Err(AddFail::Overlap { .. }) => Ok(None),
        Err(AddFail::NoMemory) => Err(NoMemory),
    }
}
