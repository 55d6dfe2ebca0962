//! What an end gives its lane to do.
use wdt_codec::Frame;

/// What a receiver's lane does next. `Accept` and `Stop` hang up a connection that is held.
#[derive(Debug, Drop)]
pub enum RecvAct {
    /// Take the next connection of this lane.
    Accept,
    /// Write this frame.
    Write(Frame),
    /// Read a frame.
    Read,
    /// Take so many bytes of the block that is begun, 1 to 65,536.
    TakePiece(u32),
    /// Wait until something has changed at this end.
    Park,
    /// Do nothing more.
    Stop,
}
