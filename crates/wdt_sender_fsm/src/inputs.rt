//! What a sender's lane hands to its end.
use wdt_codec::Frame;

/// What became of a sender's last act.
#[derive(Debug, Drop)]
pub enum SendIn {
    /// The lane begins.
    Start,
    /// There is a connection.
    Linked,
    /// No connection could be made.
    NoLink,
    /// What was to be written was written.
    Wrote,
    /// The connection is lost.
    Lost,
    /// This frame was read.
    Got(Frame),
    /// The bytes that were read have no frame: the one at this place, counted from 0, is bad.
    Bad(u32),
    /// The source failed while a block was read; whether nothing of the block was written yet.
    SourceLost(bool),
    /// Memory ran out.
    Starved,
}
