//! What a sender's history is made of.
use crate::peers::PeerKind;
use wdt_units::{Block, Conn, Lane};

/// An entry of a sender's history. The first lane is the one whose step it was.
#[derive(Clone, Copy, Debug, PartialEq, Eq)]
pub enum SendEvent {
    /// The lane's connection of this number stands.
    Linked(Lane, Conn),
    /// A connection couldn't be made.
    NoLink(Lane),
    /// The lane's connection is lost.
    Lost(Lane),
    /// The receiver told how many of the lane's blocks it has.
    Greet(Lane, u32),
    /// The lane read what the destination has.
    Chunks(Lane),
    /// The lane took this block to send it.
    Claim(Lane, Block),
    /// The lane's last block is written.
    Sent(Lane),
    /// The lane wrote that nothing more is to come.
    Done(Lane),
    /// The first lane read that the receiver has closed the second, of whose blocks it has so many.
    Global(Lane, Lane, u32),
    /// The lane read the receiver's last word: everything has landed.
    Finish(Lane),
    /// The lane answered the receiver's last word.
    Acked(Lane),
    /// The lane is given up.
    Quit(Lane),
    /// The lane read that the receiver has failed, with this code.
    Abort(Lane, u8),
    /// The lane read what no receiver may say.
    Peer(Lane, PeerKind),
}

const _: () = prove!(size_of::<SendEvent>() <= 48);
