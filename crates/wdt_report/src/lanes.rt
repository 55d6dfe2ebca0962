//! Tables with a place for each lane.

/// How many lanes there can be by the width of a lane's number.
pub const ALL_LANES: usize = 256;
