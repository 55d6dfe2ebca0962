//! What a receiver's lane hears.
use wdt_link::Said;
use wdt_receiver_fsm::RecvIn;
use wdt_tree::Run;

/// What became of a receiver's act. What came over the connection is as the link gave it, so its type says
/// that it is of the run.
#[derive(Drop)]
pub enum Heard<N: Run> {
    /// What isn't read of a connection. A frame in it is of no known origin.
    Put(RecvIn),
    /// A frame that was received.
    Frame(Said<N>),
    /// Bytes of a block that were received.
    Piece(Said<N>),
}
