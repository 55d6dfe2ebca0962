//! A sender's end, a receiver's end and their connections, in one object and in one thread.
//!
//! What happens in it is what happens in a world by messages (`wdt_pact`): each call says that whatever
//! world it showed before, it shows behind it the one that follows. `specs/Said` says what a sender says
//! with its bytes, `specs/Shown` when a wire shows a connection, and `specs/Finding` what is found there.
//! `specs/Lines` has the connections of a lane in bytes, and `specs/Pairing` says when they are those of a
//! pair. A lane performs an act (`specs/Acting`, of a block `specs/Blocks`) or hands in what came of it
//! (`specs/Turning`), and that is an event of its world (`specs/Stepping`).
#![tactic(auto)]

mod acting;
mod hands;
mod hearing;
mod laws;
mod lines;
mod sending;
mod speaking;
mod stepping;
mod turning;

pub use laws::wires_show_connections;
