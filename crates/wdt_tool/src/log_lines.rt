//! The lines of a log.
ghost use Rattle.std.specs.Prelude.{◌≡◌, ◌++◌, codes, IfOk, OnOk, None, Some};
ghost use Rattle.std.specs.List.{flat_map};
ghost use Rattle.std.specs.Fmt.{decimal};
ghost use Rattle.wdt_ranges.specs.Files.{have_file};
ghost use Rattle.wdt_ranges.specs.Spans.{plain_span};
ghost use Rattle.wdt_logfmt.specs.View.{meaning_of, named_file, named_files};
ghost use Rattle.wdt_tool.specs.LogLines.{file_line, file_lines, log_text, range_line};

use crate::report::push_printed;
use std::alloc::{AllocError, Global};
use wdt_logfmt::{LogFile, LogView};
use wdt_ranges::{FileHave, Span, Spans};

/// The lines of a log.
pub fn log_text(alloc: Global, view: &LogView) -> Result<Vec<u8>, AllocError>
    ensures { IfOk result (λ text. text.items ≡ log_text (Some (meaning_of view.now))) }
{
    let mut text = Vec::new(alloc);
    push_files(alloc, &mut text, &view.files)?;
    push_end(alloc, &mut text, view.end)?;
    Ok(text)
}

/// The lines where there is no log.
pub fn no_log_text(alloc: Global) -> Result<Vec<u8>, AllocError>
    ensures { IfOk result (λ text. text.items ≡ log_text None) }
{
    Ok(Vec::from_slice(alloc, b"no log\n")?)
}

fn push_files(alloc: Global, text: &mut Vec<u8>, files: &[LogFile]) -> Result<(), AllocError>
    ensures { OnOk result (text.new.items ≡ text.old.items ++ flat_map file_lines (named_files files.now)) }
{
    for file in files {
        push_file(alloc, text, file)?;
    }
    Ok(())
}

fn push_file(alloc: Global, text: &mut Vec<u8>, file: &LogFile) -> Result<(), AllocError>
    ensures { OnOk result (text.new.items ≡ text.old.items ++ file_lines (named_file file.now)) }
{
    push_name(alloc, text, file.number, &file.have)?;
    push_spans(alloc, text, file.have.spans.spans())
}

// Appends the line of a file.
fn push_name(
    alloc: Global,
    text: &mut Vec<u8>,
    number: u32,
    file: &FileHave,
) -> Result<(), AllocError>
    ensures { OnOk result (text.new.items ≡ text.old.items ++ file_line number (have_file file.now)) }
{
    let size = file.size;
    let stamp = file.stamp;
    let front = format!(in alloc; "file {number} {size} {stamp} ")?;
    text.extend_from_slice(front.as_bytes())?;
    push_printed(text, file.path.bytes())?;
    text.extend_from_slice(b"\n")?;
    Ok(())
}

fn push_spans(alloc: Global, text: &mut Vec<u8>, spans: Spans<'_>) -> Result<(), AllocError>
    ensures { OnOk result (text.new.items ≡ text.old.items ++ flat_map range_line spans.entry) }
{
    for span in spans {
        push_span(alloc, text, span)?;
    }
    Ok(())
}

fn push_span(alloc: Global, text: &mut Vec<u8>, span: Span) -> Result<(), AllocError>
    ensures { OnOk result (text.new.items ≡ text.old.items ++ range_line (plain_span span)) }
{
    let Span { offset, length } = span;
    let line = format!(in alloc; "range {offset} {length}\n")?;
    text.extend_from_slice(line.as_bytes())?;
    Ok(())
}

// Appends where the log ends.
fn push_end(alloc: Global, text: &mut Vec<u8>, end: u64) -> Result<(), AllocError>
    ensures { OnOk result (text.new.items ≡ text.old.items ++ (codes "end " ++ decimal end ++ codes "\n")) }
{
    let line = format!(in alloc; "end {end}\n")?;
    text.extend_from_slice(line.as_bytes())?;
    Ok(())
}
