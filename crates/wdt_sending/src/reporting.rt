//! The report of a run over connections, and its last line.
ghost use Rattle.std.specs.Prelude.{◌≡◌, ◌≢◌, ◌++◌, IfOk, OnErr, map};
ghost use Rattle.wdt_report.specs.Lines.{copy_text, recv_text, send_text};
ghost use Rattle.wdt_tool.specs.Lines.{last_line};
ghost use Rattle.wdt_sending.specs.Printed.{IsPut, PrintsRun, PrintsText, report_text};

use crate::carried::Carried;
use std::alloc::{AllocError, Global};
use wdt_receiver_fsm::RecvEvent;
use wdt_report::{Lines, copy_lines, recv_lines, send_lines};
use wdt_sender_fsm::SendEvent;
use wdt_tool::{Status, last_line};
use wdt_units::Sink;

/// What a report is of.
#[derive(Clone, Copy)]
pub enum Report {
    /// Both ends of a copy of so many files.
    Copy(u32),
    /// A sending end of so many files.
    Send(u32),
    /// A receiving end.
    Recv,
}

/// Puts the report and the last line of a run, in one call. Where memory ran out nothing is put.
pub fn put_report<S, D, C, A, O: Sink>(
    alloc: Global,
    report: Report,
    carried: Carried<S, D, C, A>,
    out: &mut O,
) -> Carried<S, D, C, A>
    requires { carried.status ≢ Status.OutFault }
    ensures status { IsPut carried.status result.status (O.faults out.old) (O.faults out.new) }
    ensures prints { PrintsRun report result.sender.items result.receiver.items result.status (O.faults out.old) (O.faults out.new) (O.written out.old) (O.written out.new) }
    ensures sender { result.sender ≡ carried.sender }
    ensures receiver { result.receiver ≡ carried.receiver }
    ensures sources { result.sources ≡ carried.sources }
    ensures depot { result.depot ≡ carried.depot }
    ensures dialers { result.dialers ≡ carried.dialers }
    ensures acceptors { result.acceptors ≡ carried.acceptors }
{
    let Carried {
        status,
        sender,
        receiver,
        sources,
        depot,
        dialers,
        acceptors,
    } = carried;
    let Reported {
        text,
        sender,
        receiver,
    } = report_of(alloc, report, sender, receiver, &status);
    let status = put_text(text, status, out);
    Carried {
        status,
        sender,
        receiver,
        sources,
        depot,
        dialers,
        acceptors,
    }
}

// What is to be put, where there was memory for it, and the histories of which it tells.
struct Reported {
    text: Result<Vec<u8>, AllocError>,
    sender: Vec<SendEvent>,
    receiver: Vec<RecvEvent>,
}

// The report and the last line.
fn report_of(
    alloc: Global,
    report: Report,
    sender: Vec<SendEvent>,
    receiver: Vec<RecvEvent>,
    status: &Status,
) -> Reported
    ensures text { IfOk result.text (λ text. text.items ≡ report_text report sender.items receiver.items status.now) }
    ensures sender { result.sender ≡ sender }
    ensures receiver { result.receiver ≡ receiver }
{
    match report {
        Report::Copy(files) => copy_report(alloc, files, sender, receiver, status),
        Report::Send(files) => Reported {
            text: send_text(alloc, files, &sender, status),
            sender,
            receiver,
        },
        Report::Recv => Reported {
            text: recv_text(alloc, &receiver, status),
            sender,
            receiver,
        },
    }
}

// Those of a copy, which has one session.
fn copy_report(
    alloc: Global,
    files: u32,
    sender: Vec<SendEvent>,
    receiver: Vec<RecvEvent>,
    status: &Status,
) -> Reported
    ensures text { IfOk result.text (λ text. text.items ≡ report_text (Report.Copy files) sender.items receiver.items status.now) }
    ensures sender { result.sender ≡ sender }
    ensures receiver { result.receiver ≡ receiver }
{
    let sent = [sender];
    let received = [receiver];
    let text = copy_text(alloc, files, &sent, &received, status);
    let [sender] = sent;
    let [receiver] = received;
    Reported {
        text,
        sender,
        receiver,
    }
}

fn copy_text(
    alloc: Global,
    files: u32,
    sent: &[Vec<SendEvent>; 1],
    received: &[Vec<RecvEvent>; 1],
    status: &Status,
) -> Result<Vec<u8>, AllocError>
    ensures { IfOk result (λ text. text.items ≡ copy_text files (map (λ h. h.items) sent.now) (map (λ g. g.items) received.now) ++ last_line status.now) }
{
    let Ok(lines) = copy_lines(alloc, files, sent, received) else {
        return Err(AllocError);
    };
    with_last(alloc, lines, status)
}

fn send_text(
    alloc: Global,
    files: u32,
    sent: &[SendEvent],
    status: &Status,
) -> Result<Vec<u8>, AllocError>
    ensures { IfOk result (λ text. text.items ≡ send_text files sent.now ++ last_line status.now) }
{
    let Ok(lines) = send_lines(alloc, files, sent) else {
        return Err(AllocError);
    };
    with_last(alloc, lines, status)
}

fn recv_text(alloc: Global, received: &[RecvEvent], status: &Status) -> Result<Vec<u8>, AllocError>
    ensures { IfOk result (λ text. text.items ≡ recv_text received.now ++ last_line status.now) }
{
    let Ok(lines) = recv_lines(alloc, received) else {
        return Err(AllocError);
    };
    with_last(alloc, lines, status)
}

// The lines of a report, and the last line behind them.
fn with_last(alloc: Global, lines: Lines, status: &Status) -> Result<Vec<u8>, AllocError>
    ensures { IfOk result (λ text. text.items ≡ lines ++ last_line status.now) }
{
    let mut text = lines.into_bytes();
    let last = last_line(alloc, status)?;
    text.extend_from_slice(&last)?;
    Ok(text)
}

// Puts the lines, where there was memory for them. A run that went well and can't say so has its own
// status; every other status stays.
fn put_text<O: Sink>(text: Result<Vec<u8>, AllocError>, status: Status, out: &mut O) -> Status
    requires { status ≢ Status.OutFault }
    ensures status { IsPut status result (O.faults out.old) (O.faults out.new) }
    ensures prints { IfOk text (λ bytes. PrintsText bytes.items result (O.faults out.old) (O.faults out.new) (O.written out.old) (O.written out.new)) }
    ensures starved { OnErr text (result ≡ Status.NoMemory) }
{
    let Ok(text) = text else {
        return Status::NoMemory;
    };
    match (status, out.put(&text)) {
        (Status::Done, Err(_)) => Status::OutFault,
        (status, _) => status,
    }
}
