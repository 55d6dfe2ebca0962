//! What an end finds when it reads.
use wdt_codec::Frame;

/// What an end finds when it reads.
#[derive(Debug, Drop)]
pub enum Taken {
    /// The frame at the front.
    Frame(Frame),
    /// So many bytes of a block as were asked for.
    Piece(Vec<u8>),
    /// Nothing whole is there yet.
    Nothing,
    /// Nothing whole is there, and nothing more will come.
    Lost,
}
