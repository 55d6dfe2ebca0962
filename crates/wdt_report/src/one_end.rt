//! The reports of a sender and of a receiver alone.
ghost use Rattle.std.specs.Prelude.{◌≡◌, string_bytes, IfOk};
ghost use Rattle.wdt_report.specs.Lines.{five_lines, four_lines, recv_text, send_text};

use crate::kept::{Sure, count_sure};
use crate::lines::Lines;
use crate::received::{Received, count_received, count_takes};
use crate::sent::{Sent, count_sent};
use std::alloc::{AllocError, Global};
use wdt_receiver_fsm::RecvEvent;
use wdt_sender_fsm::SendEvent;
use wdt_units::NoMemory;

/// The report of a sender of so many files, by its history.
pub fn send_lines(alloc: Global, files: u32, sent: &[SendEvent]) -> Result<Lines, NoMemory>
    ensures { IfOk result (λ lines. lines ≡ send_text files sent.now) }
{
    let sure = count_sure(alloc, sent)?;
    let made = count_sent(sent);
    match five_lines(alloc, files, &sure, &made) {
        Ok(text) => Ok(Lines::of(text)),
        Err(_) => Err(NoMemory),
    }
}

// The lines of the five numbers.
#[tactic(auto, unfolding(crate::specs::Lines::five_lines))]
fn five_lines(alloc: Global, files: u32, sure: &Sure, made: &Sent) -> Result<String, AllocError>
    ensures { IfOk result (λ text. string_bytes text ≡ five_lines files sure.now.blocks sure.now.bytes made.now.connections made.now.requeued) }
{
    let Sure { blocks, bytes } = *sure;
    let Sent {
        connections,
        requeued,
    } = *made;
    let text = format!(in alloc;
        "files {files}\nblocks {blocks}\nbytes {bytes}\nconnections {connections}\nrequeued {requeued}\n"
    )?;
    Ok(text)
}

/// The report of a receiver, by its history.
pub fn recv_lines(alloc: Global, received: &[RecvEvent]) -> Result<Lines, NoMemory>
    ensures { IfOk result (λ lines. lines ≡ recv_text received.now) }
{
    let landed = count_received(received);
    match four_lines(alloc, &landed, count_takes(received)) {
        Ok(text) => Ok(Lines::of(text)),
        Err(_) => Err(NoMemory),
    }
}

// The lines of the four numbers.
#[tactic(auto, unfolding(crate::specs::Lines::four_lines))]
fn four_lines(alloc: Global, landed: &Received, connections: u64) -> Result<String, AllocError>
    ensures { IfOk result (λ text. string_bytes text ≡ four_lines landed.now.blocks landed.now.bytes connections landed.now.closed) }
{
    let Received {
        blocks,
        bytes,
        closed,
    } = *landed;
    let text = format!(in alloc;
        "blocks {blocks}\nbytes {bytes}\nconnections {connections}\nclosed {closed}\n"
    )?;
    Ok(text)
}
