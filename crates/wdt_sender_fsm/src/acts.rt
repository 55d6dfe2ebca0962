//! What an end gives its lane to do.
use wdt_codec::Frame;
use wdt_units::{Conn, Header};

/// What a sender's lane does next. `Dial` and `Stop` hang up a connection that is held.
#[derive(Debug, Drop)]
pub enum SendAct {
    /// Make the connection of this number.
    Dial(Conn),
    /// Write this frame.
    Write(Frame),
    /// Write this block: the header, and the source's bytes.
    SendBlock(Header),
    /// Read a frame.
    Read,
    /// Do nothing more.
    Stop,
}
