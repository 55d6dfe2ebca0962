//! How long is waited for the other end.
use std::time::Duration;

// Seconds that a read or a write may wait. A host that vanishes is so noticed within two minutes, and a
// receiver that syncs what has landed has that long for it.
const SILENCE: u64 = 110;

// Seconds that one address may take to answer, so that a name's addresses take less than two minutes
// together.
const ANSWER: u64 = 20;

/// How many addresses of a name are tried.
pub(crate) const MOST_ADDRESSES: usize = 4;

/// The pauses between the tries of one dial, in milliseconds: about ten seconds in all. They grow, so
/// that a receiver that is just being started is met soon, and one that isn't is seldom asked.
pub(crate) const PAUSES: [u64; 7] = [100, 200, 400, 800, 1_500, 3_000, 4_000];

// Milliseconds between two looks for a connection: short beside what a transfer takes, and long beside
// what a look costs.
const LOOK: u64 = 20;

/// After how many looks an accept that nobody joins fails, once any lane has had a connection: about 15
/// seconds, longer than a dial goes on trying.
pub(crate) const LOOKS: u32 = 750;

/// How long a read or a write may wait.
pub(crate) fn silence() -> Duration {
    Duration::from_secs(SILENCE)
}

/// How long one address may take to answer.
pub(crate) fn answer() -> Duration {
    Duration::from_secs(ANSWER)
}

/// The time between two looks for a connection.
pub(crate) fn look() -> Duration {
    Duration::from_millis(LOOK)
}
