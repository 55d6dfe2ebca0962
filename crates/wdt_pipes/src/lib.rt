//! Connections between the threads of one process.
//!
//! `pipe_ends` makes a dialer and an acceptor for each lane. Their links carry `Said` values over
//! bounded channels: a frame or a piece is moved from one thread to the other and is never spelled, so
//! a pipe tells no bytes. What comes out is of the run that the type names, since whatever went in is.
//!
//! An end that hangs up drops its link's two channels, and the other end's calls fail from then on, once
//! what waits there is taken. A lane that retires drops its door, the channel over which a dialer hands
//! the far end of a new connection to the acceptor: an acceptor whose dialer has retired fails where no
//! connection waits, and a dialer whose acceptor has retired fails, with all that waited there.
#![tactic(auto)]

mod accept;
mod dial;
mod end;
mod ends;
mod fresh;
mod pipe;

pub use accept::PipeAccept;
pub use dial::PipeDial;
pub use ends::pipe_ends;
pub use pipe::PipeLink;

#[cfg(test)]
mod tests;
