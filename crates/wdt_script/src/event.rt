//! What a line of a script asks for.
use wdt_units::Lane;

/// An event of a rehearsal.
#[derive(Clone, Copy, Debug, PartialEq, Eq)]
pub enum Event {
    /// The sender's lane takes so many steps, 1 to 1,000,000.
    S(Lane, u32),
    /// The receiver's lane takes so many steps, 1 to 1,000,000.
    R(Lane, u32),
    /// The lane's last connection is cut: so many bytes can still be taken down and up, each up to
    /// 4,294,967,295.
    Cut(Lane, u64, u64),
    /// The lane's next dial fails.
    Deny(Lane),
    /// The lane's next accept fails.
    Refuse(Lane),
    /// The receiver stops at so many calls of its disk from here, 1 to 1,000,000. The image that is
    /// left is that of the pick, up to 4,294,967,295.
    Stop(u32, u64),
    /// The lanes take steps in turn until nothing changes.
    Settle,
    /// A new session begins on what the receiver's disk has.
    Resume,
}
