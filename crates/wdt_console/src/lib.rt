//! What a person meets at the terminal: the help, what was wrong with words or went wrong in a run, and
//! how far a transfer is.
//!
//! `explain` writes one line on standard error for what failed: what was being done, to which path or
//! address, and the system's reason; where a word is wrong it says which, and how its command is used.
//! `run` runs the words of a command that waits for nobody, on real folders.
//!
//! What a transfer needs before it begins stands here, too: whether its folders lie apart, a lock on its
//! destination, and the line that tells how far it is. Nothing here knows of connections.
#![tactic(auto)]

mod apart;
mod explaining;
mod help;
mod holding;
mod misreading;
mod running;
mod watching;

pub use apart::lie_apart;
pub use explaining::{Failed, explain, explain_out};
pub use help::{HELP, VERSION};
pub use holding::{Hold, take_hold};
pub use misreading::explain_words;
pub use running::run;
pub use watching::{shared_progress, watched, watched_arrival};
