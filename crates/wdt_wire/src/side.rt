//! The two directions of a connection.

/// A direction of a connection.
#[derive(Clone, Copy, Debug, PartialEq, Eq)]
pub enum Side {
    /// From the sender to the receiver.
    Down,
    /// From the receiver to the sender.
    Up,
}
