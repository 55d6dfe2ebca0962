//! How a copy over connections ends, by how its two ends ended.
ghost use Rattle.std.specs.Prelude.{◌≡◌};
ghost use Rattle.wdt_sending.specs.Judging.{first_of, has_some, if_met, met_fault, rank, status_of};

use wdt_sender_fsm::{EndAnswer, PeerKind};
use wdt_tool::Status;
use wdt_units::LaneSet;

/// The status that an end's answer comes to. What its lanes didn't meet can't have failed the end: there
/// memory ran out, and so it did where some lane still had something to do, since no thread ran.
pub fn status_of(answer: EndAnswer, lost: LaneSet, cut: LaneSet, alarmed: LaneSet) -> Status
    ensures { result ≡ status_of (has_some lost) (has_some cut) (has_some alarmed) answer }
{
    match answer {
        EndAnswer::Done => Status::Done,
        EndAnswer::Source => if_met(lost, Status::SourceFault),
        EndAnswer::Disk => Status::DiskFault,
        EndAnswer::Link => if_met(cut, Status::LinkFault),
        EndAnswer::Peer(kind) => peer_fault(alarmed, kind),
        EndAnswer::Aborted(code) => if_met(alarmed, Status::Aborted(code)),
        EndAnswer::Refused(kind) => Status::Refused(kind),
        EndAnswer::Going | EndAnswer::NoMemory => Status::NoMemory,
    }
}

// What the other end said that it may not say. Bytes without a frame alarm the lane.
fn peer_fault(alarmed: LaneSet, kind: PeerKind) -> Status
    ensures { result ≡ met_fault (has_some alarmed) kind }
{
    match kind {
        PeerKind::BadFrame { .. } => if_met(alarmed, Status::Peer(kind)),
        _ => Status::Peer(kind),
    }
}

// The status where some lane met what it comes of.
fn if_met(lanes: LaneSet, status: Status) -> Status
    ensures { result ≡ if_met (has_some lanes) status }
{
    if has_some(lanes) {
        return status;
    }
    Status::NoMemory
}

// Whether there is a lane in the set.
fn has_some(lanes: LaneSet) -> bool
    ensures { result ≡ has_some lanes }
{
    lanes.lanes().next().is_some()
}

/// The status of a copy: the first of its ends' two in the order of `rank`, and the sender's where both
/// are of one kind.
pub fn first_of(sender: Status, receiver: Status) -> Status
    ensures { result ≡ first_of sender receiver }
{
    if rank(&receiver) < rank(&sender) {
        return receiver;
    }
    sender
}

// The place of an end's status in the order in which they are told.
fn rank(status: &Status) -> u8
    ensures { result ≡ rank status.now }
{
    match status {
        Status::NoMemory => 0,
        Status::SourceFault => 1,
        Status::DiskFault => 2,
        Status::Refused(_) => 3,
        Status::Peer(_) => 4,
        Status::LinkFault => 5,
        Status::Aborted(_) => 6,
        Status::Done | Status::Usage | Status::OutFault => 7,
    }
}
