//! The slots, numbers and counts of the files of a log.
ghost use Rattle.std.specs.Prelude.{◌≡◌, ℕ, ◌+◌, ◌-◌, ◌≤◌, List, [], ◌∷◌, ◌++◌, map, length, sum_by, true, if◌then◌else◌, IfOk, IsTrue, OnOk, Some};
ghost use Rattle.wdt_logfmt.specs.Beginning.{has_path, known_at, number_of, KnownFile};
ghost use Rattle.wdt_logfmt.specs.View.{bytes_in, is_view, named_files, spans_in};
ghost use Rattle.wdt_files.specs.PlainFiles.{files_of};
ghost use Rattle.wdt_files.specs.Slots.{blanks, known_in, number_in, plain_files, AreBare};

use crate::numbers::set_number;
use crate::slots::Slot;
use std::alloc::Global;
use std::collections::BTreeMap;
use wdt_logfmt::LogFile;
use wdt_ranges::FileHave;
use wdt_units::{MAX_FILES, NoMemory};

/// The slots of the files of a log.
pub fn slots_of(alloc: Global, files: &[LogFile]) -> Result<Vec<Option<Slot>>, NoMemory>
    requires { IsTrue (is_view (named_files files.now)) }
    ensures files { IfOk result (λ slots. plain_files slots.items ≡ files_of (named_files files.now)) }
    ensures bare { IfOk result (λ slots. AreBare slots.items) }
{
    let mut slots = Vec::new(alloc);
    for file in files {
        push_at(&mut slots, file.number, file.have.copy()?)?;
    }
    Ok(slots)
}

// Appends the named file of a number, behind free slots.
fn push_at(slots: &mut Vec<Option<Slot>>, number: u32, file: FileHave) -> Result<(), NoMemory>
    requires { length slots.old.items ≤ number }
    ensures { OnOk result (slots.new.items ≡ slots.old.items ++ blanks (number - length slots.old.items) ++ Some (record { file = file; is_named = true }) ∷ []) }
{
    for _ in slots.len()..number as usize {
        slots.push(None)?;
    }
    slots.push(Some(Slot {
        file,
        is_named: true,
    }))?;
    Ok(())
}

/// The numbers of the paths of known files, of which no path stands twice.
pub fn numbers_of(alloc: Global, slots: &[Option<Slot>]) -> Result<BTreeMap<String, u32>, NoMemory>
    requires once { (m n : ℕ) (f g : KnownFile) → known_at (map known_in slots.now) m ≡ Some f → known_at (map known_in slots.now) n ≡ Some g → f.path ≡ g.path → m ≡ n }
    requires few { length slots.now ≤ MAX_FILES }
    ensures { IfOk result (λ numbers. (path : List ℕ) → number_in numbers path ≡ number_of (map known_in slots.now) path) }
{
    let mut numbers = BTreeMap::new(alloc);
    for number in 0..slots.len() {
        add_number(&mut numbers, alloc, &slots[number], number as u32)?;
    }
    Ok(numbers)
}

// Gives the path of the file of a slot its number.
fn add_number(
    numbers: &mut BTreeMap<String, u32>,
    alloc: Global,
    slot: &Option<Slot>,
    number: u32,
) -> Result<(), NoMemory>
    ensures { OnOk result ((path : List ℕ)
        → number_in numbers.new path ≡ (if has_path path (known_in slot.now) then Some number else number_in numbers.old path)) }
{
    match slot {
        Some(slot) => set_number(numbers, alloc, &slot.file.path, number),
        None => Ok(()),
    }
}

/// How many spans the files of a log have.
pub fn spans_of(files: &[LogFile]) -> usize
    requires { IsTrue (is_view (named_files files.now)) }
    ensures { result ≡ sum_by spans_in (named_files files.now) }
{
    let mut spans = 0;
    for file in files {
        spans += file.have.spans.count();
    }
    spans
}

/// How many bytes of them are there.
pub fn bytes_of(files: &[LogFile]) -> u64
    requires { IsTrue (is_view (named_files files.now)) }
    ensures { result ≡ sum_by bytes_in (named_files files.now) }
{
    let mut bytes = 0;
    for file in files {
        bytes += file.have.spans.total();
    }
    bytes
}
