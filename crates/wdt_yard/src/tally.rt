//! What is counted of a lane.
ghost use Rattle.std.specs.Prelude.{◌≡◌, ◌||◌, nat_le};

/// What is counted of a lane.
#[derive(Clone, Copy, Debug, PartialEq, Eq)]
pub struct Tally {
    /// How many connections it had.
    pub connections: u16,
    /// How often no connection could be made.
    pub failed_tries: u64,
    /// Whether it answered the receiver's last word.
    pub acknowledged: bool,
}

impl Tally {
    /// The tally of a lane that begins.
    pub const NEW: Tally = Tally {
        connections: 0,
        failed_tries: 0,
        acknowledged: false,
    };

    /// Whether the lane had as many connections as it may have, or as many tries that failed.
    pub fn is_used_up(self) -> bool
        ensures { result ≡ (nat_le 8 self.connections || nat_le 8 self.failed_tries) }
    {
        self.connections >= 8 || self.failed_tries >= 8
    }
}
