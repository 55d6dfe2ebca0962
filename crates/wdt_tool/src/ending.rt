//! How a run ends: its last line, and the one call that puts its lines to the sink.
ghost use Rattle.std.specs.Prelude.{◌≡◌, ◌++◌};
ghost use Rattle.wdt_tool.specs.Causes.{IsFailureEnd, IsRefusalEnd, IsTextEnd};
ghost use Rattle.wdt_tool.specs.Lines.{last_line, Got, GotMost, HasFixedLine, PrintsLine};

use crate::fail::CommandFail;
use crate::report::refusal_line;
use crate::status::Status;
use std::alloc::Global;
use wdt_sender_fsm::RefusedKind;
use wdt_units::Sink;

// Puts the lines of a command that is done, and the last line, in one call.
pub fn put<O: Sink>(lines: Vec<u8>, out: &mut O) -> Status
    ensures end { IsTextEnd result (O.faults out.old) (O.faults out.new) }
    ensures got { result ≡ Status.Done → Got (lines.items ++ last_line Status.Done) (O.written out.old) (O.written out.new) }
    ensures most { result ≡ Status.OutFault → GotMost (lines.items ++ last_line Status.Done) (O.faults out.old) (O.faults out.new) (O.written out.old) (O.written out.new) }
{
    let mut text = lines;
    if text.extend_from_slice(Status::Done.line()).is_err() {
        return Status::NoMemory;
    }
    match out.put(&text) {
        Ok(()) => Status::Done,
        Err(_) => Status::OutFault,
    }
}

/// Ends with the status and the line of a failure.
pub fn end_failed<O: Sink>(alloc: Global, failure: CommandFail, out: &mut O) -> Status
    ensures end { IsFailureEnd failure result }
    ensures line { PrintsLine result (O.faults out.old) (O.faults out.new) (O.written out.old) (O.written out.new) }
{
    match failure {
        CommandFail::Source => end_with(Status::SourceFault, out),
        CommandFail::Disk => end_with(Status::DiskFault, out),
        CommandFail::Refused(kind) => refuse(alloc, kind, out),
        CommandFail::NoMemory => Status::NoMemory,
    }
}

// Ends with a refusal and its line.
fn refuse<O: Sink>(alloc: Global, kind: RefusedKind, out: &mut O) -> Status
    ensures end { IsRefusalEnd kind result }
    ensures line { PrintsLine result (O.faults out.old) (O.faults out.new) (O.written out.old) (O.written out.new) }
{
    match refusal_line(alloc, &kind) {
        Ok(line) => close(Status::Refused(kind), &line, out),
        Err(_) => Status::NoMemory,
    }
}

/// Ends with a status and its last line.
pub fn end_with<O: Sink>(status: Status, out: &mut O) -> Status
    requires { HasFixedLine status }
    ensures status { result ≡ status }
    ensures line { GotMost (last_line status) (O.faults out.old) (O.faults out.new) (O.written out.old) (O.written out.new) }
{
    let line = status.line();
    close(status, line, out)
}

// Ends with a status and its line. A line that can't be put changes no status but Done.
fn close<O: Sink>(status: Status, line: &[u8], out: &mut O) -> Status
    ensures status { result ≡ status }
    ensures line { GotMost line.now (O.faults out.old) (O.faults out.new) (O.written out.old) (O.written out.new) }
{
    let _ = out.put(line);
    status
}
