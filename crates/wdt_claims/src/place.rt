//! Places of blocks.

/// Where a block of the plan stands.
#[derive(Clone, Copy, Debug, PartialEq, Eq)]
pub enum Place {
    /// In no lane's list.
    Queued,
    /// The last of its lane's list, and still being written.
    Held,
    /// In a lane's list, and no longer being written, but not known to have landed.
    Unconfirmed,
    /// Among the sure blocks of its lane.
    Confirmed,
}
