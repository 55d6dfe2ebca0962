//! The frames of a connection: how they are spelled, and how they are read.
//!
//! `encode` appends a frame's one spelling. `read_frame` reads a frame from the front of the bytes,
//! or says that more are wanted, or names the first byte after which no frame begins so. A `Reader`
//! takes a stream in pieces, cut anywhere, and gives its frames and the raw bytes of its blocks.
//!
//! The grammar is one reading for each frame, made of combinators (`specs/Reading.antt`). Each is
//! exact: it reads what is spelled, waits only at a front of a spelling, and stops at the first byte
//! with which none begins. A new frame is a new alternative.
#![tactic(auto)]

mod append;
mod chunks;
mod counts;
mod fails;
mod files;
mod frames;
mod headers;
mod laws;
mod marks;
mod numbers;
mod paths;
mod reader;
mod reading;
mod settings;
mod spans;
mod stop;
mod writing;
mod writing_chunks;

pub use fails::{NextFail, PieceFail};
pub use frames::{Frame, Mark, Settings};
pub use laws::streams_have_one_reading;
pub use marks::Marks;
pub use reader::Reader;
pub use reading::read_frame;
pub use writing::encode;

#[cfg(test)]
mod tests;
