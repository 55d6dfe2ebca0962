//! What a receiver's lane hands to its end.
use wdt_codec::Frame;

/// What became of a receiver's last act. The bytes of a block are handed in by a call of their own.
#[derive(Debug, Drop)]
pub enum RecvIn {
    /// The lane begins.
    Start,
    /// There is a connection.
    Linked,
    /// No connection could be taken.
    NoLink,
    /// What was to be written was written.
    Wrote,
    /// The connection is lost.
    Lost,
    /// This frame was read.
    Got(Frame),
    /// The bytes that were read have no frame: the one at this place, counted from 0, is bad.
    Bad(u32),
    /// Something has changed at this end.
    Woken,
    /// Memory ran out.
    Starved,
    /// What came isn't what was asked for: other bytes than the wanted ones, or a frame of which it
    /// isn't known where it is from. It belongs to no state.
    Odd,
}
