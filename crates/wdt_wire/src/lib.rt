//! A connection of a rehearsal: bytes on their way between a sender and a receiver in memory, which can
//! be cut at any byte.
//!
//! What one end writes is held until the other end takes it, frame by frame and piece by piece, and is
//! then let go. A cut says how many more bytes arrive in each direction. Behind a cut, or once an end
//! has left, what arrives is still taken whole; then the connection is lost.
#![tactic(auto)]

mod laws;
mod side;
mod taken;
mod untaken;
mod way;
mod wire;

pub use laws::ways_are_of_connections;
pub use side::Side;
pub use taken::Taken;
pub use wire::Wire;
