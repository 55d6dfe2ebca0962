//! The lines of a report.
ghost use Rattle.std.specs.Prelude.{◌≡◌, ◌≤◌, ◌<◌, ◌^◌, ℕ, length, map, string_bytes, sum_by, IfOk};
ghost use Rattle.wdt_report.specs.Lines.{copy_text, seven_lines};
ghost use Rattle.wdt_report.specs.Received.{blocks_in, bytes_in, closed_in};
ghost use Rattle.wdt_report.specs.Sent.{connections_in, requeued_in};

use crate::received::count_received;
use crate::sent::count_sent;
use std::alloc::{AllocError, Global};
use std::marker::Model;
use wdt_receiver_fsm::RecvEvent;
use wdt_sender_fsm::SendEvent;
use wdt_units::NoMemory;

/// The lines of a report. Contracts see them as a list of bytes.
#[derive(Debug, Drop)]
pub struct Lines {
    text: String,
}

impl Model for Lines {
    ghost use Rattle.std.specs.Prelude.{ℕ, List, string_bytes};

    ghost Value = { List ℕ };

    ghost view = { λ lines. string_bytes lines.text };

    ghost invariant = { λ _. Unit {0} };
}

impl Lines {
    /// Lines of this text.
    pub(crate) fn of(text: String) -> Lines
        ensures { result ≡ string_bytes text }
    {
        Lines { text }
    }

    /// The bytes of the lines, taken out.
    pub fn into_bytes(self) -> Vec<u8>
        ensures { result.items ≡ self }
    {
        self.text.into_bytes()
    }
}

// What the histories of some senders tell together.
#[derive(Clone, Copy)]
struct SentSums {
    connections: u128,
    requeued: u128,
}

// What the histories of some receivers tell together.
#[derive(Clone, Copy)]
struct ReceivedSums {
    blocks: u128,
    bytes: u128,
    closed: u128,
}

/// The report of a copy of so many files, by the histories of both ends, of which there is one for each
/// session: at most 65,537.
pub fn copy_lines(
    alloc: Global,
    files: u32,
    sent: &[Vec<SendEvent>],
    received: &[Vec<RecvEvent>],
) -> Result<Lines, NoMemory>
    requires few_sent { length sent.now ≤ 65537 }
    requires few_received { length received.now ≤ 65537 }
    ensures { IfOk result (λ lines. lines ≡ copy_text files (map (λ h. h.items) sent.now) (map (λ g. g.items) received.now)) }
{
    let made = sum_sent(sent);
    let landed = sum_received(received);
    match seven_lines(alloc, files, &landed, &made, sent.len()) {
        Ok(text) => Ok(Lines::of(text)),
        Err(_) => Err(NoMemory),
    }
}

// The lines of the seven numbers.
#[tactic(auto, unfolding(crate::specs::Lines::seven_lines))]
fn seven_lines(
    alloc: Global,
    files: u32,
    landed: &ReceivedSums,
    made: &SentSums,
    sessions: usize,
) -> Result<String, AllocError>
    ensures { IfOk result (λ text. string_bytes text ≡ seven_lines files landed.now.blocks landed.now.bytes made.now.connections made.now.requeued landed.now.closed sessions) }
{
    let ReceivedSums {
        blocks,
        bytes,
        closed,
    } = *landed;
    let SentSums {
        connections,
        requeued,
    } = *made;
    let text = format!(in alloc;
        "files {files}\nblocks {blocks}\nbytes {bytes}\nconnections {connections}\nrequeued {requeued}\nclosed {closed}\nsessions {sessions}\n"
    )?;
    Ok(text)
}

fn sum_sent(histories: &[Vec<SendEvent>]) -> SentSums
    requires { length histories.now ≤ 65537 }
    ensures connections { result.connections ≡ sum_by connections_in (map (λ h. h.items) histories.now) }
    ensures requeued { result.requeued ≡ sum_by requeued_in (map (λ h. h.items) histories.now) }
{
    let mut sums = SentSums {
        connections: 0,
        requeued: 0,
    };
    for history in histories {
        let sent = count_sent(history);
        sums.connections += u128::from(sent.connections);
        sums.requeued += u128::from(sent.requeued);
    }
    sums
}

fn sum_received(histories: &[Vec<RecvEvent>]) -> ReceivedSums
    requires { length histories.now ≤ 65537 }
    ensures blocks { result.blocks ≡ sum_by blocks_in (map (λ g. g.items) histories.now) }
    ensures bytes { result.bytes ≡ sum_by bytes_in (map (λ g. g.items) histories.now) }
    ensures closed { result.closed ≡ sum_by closed_in (map (λ g. g.items) histories.now) }
{
    let mut sums = ReceivedSums {
        blocks: 0,
        bytes: 0,
        closed: 0,
    };
    for history in histories {
        let received = count_received(history);
        sums.blocks += u128::from(received.blocks);
        sums.bytes += received.bytes;
        sums.closed += u128::from(received.closed);
    }
    sums
}
