//! How a lane comes to the choice of an idle lane.

/// How a lane comes to the choice of an idle lane.
#[derive(Clone, Copy, Debug, PartialEq, Eq)]
pub enum Idling {
    /// The sender said that nothing more is to come.
    Done,
    /// It is written that the sender is to wait.
    WaitWritten,
    /// Something has changed at the end.
    Woken,
}
