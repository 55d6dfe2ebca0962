//! The files that the entries of a batch touch, and how they are laid over all others.
//!
//! They are made apart, so that what can fail is done before the batch is written, and what is done
//! after it can't fail.
ghost use Rattle.std.specs.Prelude.{◌≡◌, ℕ, ◌+◌, ◌<◌, ◌≤◌, ◌==◌, if◌then◌else◌, false, length, map, option_map, vec_capacity, vec_len, IfErr, IfOk, IfSome, IsSome, IsTrue, None, OnErr, OnOk, Some};
ghost use Rattle.std.specs.List.{list_any};
ghost use Rattle.wdt_units.specs.Have.{HaveFile};
ghost use Rattle.wdt_ranges.specs.Files.{have_file};
ghost use Rattle.wdt_ranges.specs.Spans.{are_apart, is_span, plain_span};
ghost use Rattle.wdt_logfmt.specs.Adding.{have_with, put_by_number};
ghost use Rattle.wdt_logfmt.specs.Spelling.{written_version};
ghost use Rattle.wdt_logfmt.specs.View.{is_numbered, is_rising, is_view, named_file, named_files};
ghost use Rattle.wdt_log.specs.OpenLog.{Continues};
ghost use Rattle.wdt_log.specs.Places.{IsPlace, is_at};
ghost use Rattle.wdt_log.specs.Touched.{AreAdded, CanEnter, SameFiles, entered, laid, numbered};

use crate::fail::LogFail;
use std::alloc::Global;
use wdt_logfmt::{LogEntry, LogFile};
use wdt_ranges::{FileHave, Ranges, Span};

/// The files that a batch touches, as they are after its entries, which continue all files lawfully.
pub fn touched(
    alloc: Global,
    files: &[LogFile],
    batch: &[LogEntry],
) -> Result<Vec<LogFile>, LogFail>
    requires view { IsTrue (is_view (named_files files.now)) }
    requires continues { Continues written_version (named_files files.now) batch.now }
    ensures memory { IfErr result (λ fail. fail ≡ LogFail.NoMemory) }
    ensures rising { IfOk result (λ touched. IsTrue (is_rising (named_files touched.items))) }
    ensures files { IfOk result (λ touched. AreAdded written_version (named_files files.now) batch.now (laid (named_files touched.items) (named_files files.now))) }
{
    let mut touched = Vec::new(alloc);
    for entry in batch {
        touch(alloc, files, &mut touched, entry)?;
    }
    Ok(touched)
}

// Touches the file of an entry, which continues all files lawfully.
fn touch(
    alloc: Global,
    files: &[LogFile],
    touched: &mut Vec<LogFile>,
    entry: &LogEntry,
) -> Result<(), LogFail>
    requires view { IsTrue (is_view (named_files files.now)) }
    requires rising { IsTrue (is_rising (named_files touched.old.items)) }
    requires continues { CanEnter written_version (laid (named_files touched.old.items) (named_files files.now)) entry.now }
    ensures memory { IfErr result (λ fail. fail ≡ LogFail.NoMemory) }
    ensures rising { OnOk result (IsTrue (is_rising (named_files touched.new.items))) }
    ensures files { OnOk result (SameFiles (entered entry.now (laid (named_files touched.old.items) (named_files files.now))) (laid (named_files touched.new.items) (named_files files.now))) }
{
    match entry {
        LogEntry::File {
            number,
            path,
            size,
            stamp,
        } => {
            let have = FileHave {
                path: path.copy()?,
                size: *size,
                stamp: *stamp,
                spans: Ranges::none(alloc),
            };
            put(
                touched,
                LogFile {
                    number: *number,
                    have,
                },
            )
        }
        LogEntry::Covered {
            number,
            offset,
            length,
        } => {
            let span = Span {
                offset: *offset,
                length: *length as u64,
            };
            cover(files, touched, *number, span)
        }
    }
}

// Puts a file among those of other numbers.
fn put(files: &mut Vec<LogFile>, file: LogFile) -> Result<(), LogFail>
    requires rising { IsTrue (is_rising (named_files files.old.items)) }
    requires new { list_any (is_numbered file.number) (named_files files.old.items) ≡ false }
    ensures memory { IfErr result (λ fail. fail ≡ LogFail.NoMemory) }
    ensures files { OnOk result (named_files files.new.items ≡ put_by_number (named_file file) (named_files files.old.items)) }
{
    let at = place(files, file.number);
    files.insert(at, file)?;
    Ok(())
}

// Covers a span more of the file of this number, which is touched from then on.
fn cover(
    files: &[LogFile],
    touched: &mut Vec<LogFile>,
    number: u32,
    span: Span,
) -> Result<(), LogFail>
    requires rising_files { IsTrue (is_rising (named_files files.now)) }
    requires rising { IsTrue (is_rising (named_files touched.old.items)) }
    requires there { IsSome (laid (named_files touched.old.items) (named_files files.now) number) }
    requires apart { IfSome (laid (named_files touched.old.items) (named_files files.now) number) (λ f. IsTrue (are_apart f.spans)) }
    requires span { IsTrue (is_span (plain_span span)) }
    ensures memory { IfErr result (λ fail. fail ≡ LogFail.NoMemory) }
    ensures rising { OnOk result (IsTrue (is_rising (named_files touched.new.items))) }
    ensures files { OnOk result ((n : ℕ) → laid (named_files touched.new.items) (named_files files.now) n ≡ (if number == n
        then option_map (have_with (plain_span span)) (laid (named_files touched.old.items) (named_files files.now) n)
        else laid (named_files touched.old.items) (named_files files.now) n)) }
{
    let at = take_up(files, touched, number)?;
    cover_file(&mut touched[at], span)
}

// The place of the file of this number among the touched ones. It is copied there if it isn't one.
fn take_up(files: &[LogFile], touched: &mut Vec<LogFile>, number: u32) -> Result<usize, LogFail>
    requires rising_files { IsTrue (is_rising (named_files files.now)) }
    requires rising { IsTrue (is_rising (named_files touched.old.items)) }
    requires there { IsSome (laid (named_files touched.old.items) (named_files files.now) number) }
    ensures memory { IfErr result (λ fail. fail ≡ LogFail.NoMemory) }
    ensures rising { OnOk result (IsTrue (is_rising (named_files touched.new.items))) }
    ensures same { OnOk result (SameFiles (laid (named_files touched.old.items) (named_files files.now)) (laid (named_files touched.new.items) (named_files files.now))) }
    ensures at { IfOk result (λ at. IsTrue (is_at number at (named_files touched.new.items))) }
    ensures within { IfOk result (λ at. at < vec_len touched.new) }
{
    match find(touched, number) {
        Ok(at) => Ok(at),
        Err(at) => {
            let copy = copy_of(files, number)?;
            touched.insert(at, copy)?;
            Ok(at)
        }
    }
}

// The file of this number, in memory of its own.
fn copy_of(files: &[LogFile], number: u32) -> Result<LogFile, LogFail>
    requires rising { IsTrue (is_rising (named_files files.now)) }
    requires there { IsSome (numbered number (named_files files.now)) }
    ensures memory { IfErr result (λ fail. fail ≡ LogFail.NoMemory) }
    ensures number { IfOk result (λ file. file.number ≡ number) }
    ensures have { IfOk result (λ file. numbered number (named_files files.now) ≡ Some (have_file file.have)) }
{
    let at = place_there(files, number);
    let have = files[at].have.copy()?;
    Ok(LogFile { number, have })
}

fn cover_file(file: &mut LogFile, span: Span) -> Result<(), LogFail>
    requires span { IsTrue (is_span (plain_span span)) }
    requires apart { IsTrue (are_apart (file.old).have.spans) }
    ensures memory { IfErr result (λ fail. fail ≡ LogFail.NoMemory) }
    ensures number { (file.new).number ≡ (file.old).number }
    ensures have { OnOk result (have_file (file.new).have ≡ have_with (plain_span span) (have_file (file.old).have)) }
{
    let result = file.have.spans.add(span);
    know_apart(&file.have.spans);
    match result {
        Ok(()) => Ok(()),
        Err(_) => Err(LogFail::NoMemory),
    }
}

fn know_apart(spans: &Ranges)
    ensures { IsTrue (are_apart spans.now) }
{
    let _ = spans.count();
}

/// Lays touched files over all others: each in the place of the file of its number, if there is one.
/// There has to be room for all of them.
pub fn lay_all(files: &mut Vec<LogFile>, touched: Vec<LogFile>)
    requires rising { IsTrue (is_rising (named_files files.old.items)) }
    requires touched { IsTrue (is_rising (named_files touched.items)) }
    requires room { vec_len files.old + vec_len touched ≤ vec_capacity files.old }
    ensures rising { IsTrue (is_rising (named_files files.new.items)) }
    ensures files { SameFiles (laid (named_files touched.items) (named_files files.old.items)) (λ n. numbered n (named_files files.new.items)) }
{
    for file in touched {
        lay(files, file);
    }
}

// Lays a file over all others.
fn lay(files: &mut Vec<LogFile>, file: LogFile)
    requires rising { IsTrue (is_rising (named_files files.old.items)) }
    requires room { vec_len files.old < vec_capacity files.old }
    ensures rising { IsTrue (is_rising (named_files files.new.items)) }
    ensures files { (n : ℕ) → numbered n (named_files files.new.items) ≡ (if file.number == n then Some (have_file file.have) else numbered n (named_files files.old.items)) }
    ensures len { vec_len files.new ≤ vec_len files.old + 1 }
    ensures capacity { vec_capacity files.old ≤ vec_capacity files.new }
{
    match find(files, file.number) {
        Ok(at) => {
            files[at] = file;
        }
        Err(at) => {
            let _ = files.insert(at, file);
        }
    }
}

// The place of the file of this number, or the place where it would stand.
fn find(files: &[LogFile], number: u32) -> Result<usize, usize>
    requires { IsTrue (is_rising (named_files files.now)) }
    ensures found { IfOk result (λ at. IsTrue (is_at number at (named_files files.now))) }
    ensures within { IfOk result (λ at. at < length files.now) }
    ensures place { IfErr result (λ at. IsPlace number (named_files files.now) at) }
    ensures room { IfErr result (λ at. at ≤ length files.now) }
    ensures none { OnErr result (numbered number (named_files files.now) ≡ None) }
{
    let at = place(files, number);
    if at == files.len() {
        return Err(at);
    }
    if files[at].number != number {
        return Err(at);
    }
    Ok(at)
}

// The place of the file of this number, which is there.
fn place_there(files: &[LogFile], number: u32) -> usize
    requires rising { IsTrue (is_rising (named_files files.now)) }
    requires there { IsSome (numbered number (named_files files.now)) }
    ensures at { IsTrue (is_at number result (named_files files.now)) }
    ensures within { result < length files.now }
{
    place(files, number)
}

// How many files have a number below this one.
fn place(files: &[LogFile], number: u32) -> usize
    requires { IsTrue (is_rising (named_files files.now)) }
    ensures place { IsPlace number (named_files files.now) result }
    ensures within { result ≤ length files.now }
{
    files.partition_point(|file| file.number < number)
}
