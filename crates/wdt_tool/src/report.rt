//! The lines of a run.
ghost use Rattle.std.specs.Prelude.{◌≡◌, ◌++◌, IfOk, OnOk, codes, string_bytes};
ghost use Rattle.wdt_tool.specs.Lines.{last_line, printed, refusal_line, report_lines};

use crate::status::Status;
use std::alloc::{AllocError, Global};
use wdt_rehearsal::Report;
use wdt_sender_fsm::RefusedKind;

/// The lines of a report.
pub fn report_lines(alloc: Global, report: &Report) -> Result<String, AllocError>
    ensures { IfOk result (λ text. string_bytes text ≡ report_lines report.now) }
{
    let Report {
        files,
        blocks,
        bytes,
    } = *report;
    let text = format!(in alloc;
        "files {files}\nblocks {blocks}\nbytes {bytes}\nconnections 1\nrequeued 0\nclosed 0\nsessions 1\n"
    )?;
    Ok(text)
}

/// The last line of a run.
pub fn last_line(alloc: Global, status: &Status) -> Result<Vec<u8>, AllocError>
    ensures { IfOk result (λ line. line.items ≡ last_line status.now) }
{
    match status {
        Status::Refused(kind) => refusal_line(alloc, kind),
        Status::Aborted(code) => Ok(format!(in alloc; "aborted {code}\n")?.into_bytes()),
        other => Ok(Vec::from_slice(alloc, other.line())?),
    }
}

/// The last line of a run that is refused.
pub fn refusal_line(alloc: Global, kind: &RefusedKind) -> Result<Vec<u8>, AllocError>
    ensures { IfOk result (λ line. line.items ≡ refusal_line kind.now) }
{
    let line = match kind {
        RefusedKind::BadScript { line } => format!(in alloc; "refused: bad script line {line}\n"),
        RefusedKind::BadPath { at } => format!(in alloc; "refused: bad path {at}\n"),
        RefusedKind::Reserved { at } => format!(in alloc; "refused: reserved {at}\n"),
        RefusedKind::Twice { at } => format!(in alloc; "refused: twice {at}\n"),
        RefusedKind::TooMany { count } => format!(in alloc; "refused: too many files {count}\n"),
        RefusedKind::TooLarge { at } => format!(in alloc; "refused: too large {at}\n"),
        RefusedKind::TooManyBlocks { count } => format!(in alloc;
            "refused: too many blocks {count}\n"
        ),
        RefusedKind::Stale { path, .. } => return stale_line(alloc, path.bytes()),
        RefusedKind::BadLog { at } => format!(in alloc; "refused: bad log {at}\n"),
    };
    Ok(line?.into_bytes())
}

// The line of a run that is refused for a file of the destination.
fn stale_line(alloc: Global, path: &[u8]) -> Result<Vec<u8>, AllocError>
    ensures { IfOk result (λ line. line.items ≡ codes "refused: stale " ++ printed path.now ++ codes "\n") }
{
    let mut line = Vec::new(alloc);
    line.extend_from_slice(b"refused: stale ")?;
    push_printed(&mut line, path)?;
    line.extend_from_slice(b"\n")?;
    Ok(line)
}

/// Appends a path on one line: a backslash is printed as two, and a line feed as a backslash and an n.
pub fn push_printed(line: &mut Vec<u8>, path: &[u8]) -> Result<(), AllocError>
    ensures { OnOk result (line.new.items ≡ line.old.items ++ printed path.now) }
{
    for byte in path {
        match *byte {
            b'\\' => line.extend_from_slice(b"\\\\")?,
            b'\n' => line.extend_from_slice(b"\\n")?,
            other => line.push(other)?,
        }
    }
    Ok(())
}
