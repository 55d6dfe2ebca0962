//! What a receiver's history is made of.
use wdt_codec::Settings;
use wdt_sender_fsm::PeerKind;
use wdt_units::{Block, Conn, Lane, LaneSet};

/// An entry of a receiver's history. The first lane is the one whose step it was; the finish has none.
#[derive(Clone, Copy, Debug, PartialEq, Eq)]
pub enum RecvEvent {
    /// The lane took its connection of this number, from 1.
    Take(Lane, Conn),
    /// No connection could be taken.
    NoLink(Lane),
    /// The first settings that were read at this end.
    Met(Lane, Settings),
    /// What is sent in all, as it was first read: so many files, and so many bytes.
    Sized(Lane, u32, u64),
    /// The lane read the header of this block. Its file is the receiver's number.
    Begin(Lane, Block),
    /// The block that was begun on the lane has come whole.
    Land(Lane),
    /// The lane's connection is lost, and with it the block that was begun.
    Dropped(Lane),
    /// The lane read that nothing more is to come.
    Idle(Lane),
    /// The lane tells of these closed lanes.
    Told(Lane, LaneSet),
    /// The lane is given up before the finish.
    Close(Lane),
    /// Everything has landed and is logged.
    Finish,
    /// The lane read the answer to the last word.
    Acked(Lane),
    /// The lane is given up after the finish.
    Quit(Lane),
    /// The lane read that the sender has failed, with this code.
    Abort(Lane, u8),
    /// The lane read what no sender may say.
    Peer(Lane, PeerKind),
}

const _: () = prove!(size_of::<RecvEvent>() <= 48);
