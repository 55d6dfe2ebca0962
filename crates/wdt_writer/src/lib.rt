//! Blocks into files, over any depot.
//!
//! A `Writer` knows files by number, and takes the blocks of several lanes into them: a block begins where
//! nothing stands in its way (`specs/Beginning` of `wdt_logfmt`), its bytes are written piece by piece, and
//! once it has landed it is to be logged. From its begin on a block is on its way (`specs/OnWay.antt`), and
//! whichever of these blocks lands next, the log can say so, and the others stay on their way.
//! `specs/PlainWriter.antt` says what a writer is seen as and what its calls make of it.
//!
//! The block that landed last isn't laid over the spans of its file before the next one begins or lands, so
//! that a landing is taken back without memory.
#![tactic(auto)]

mod beginning;
mod fail;
mod faults;
mod landing;
mod laws;
mod parts;
mod writer;
mod writing;

pub use fail::WriteFail;
pub use laws::{a_block_that_may_begin_is_on_its_way, blocks_on_their_way_land_in_any_order};
pub use parts::Part;
pub use writer::Writer;

#[cfg(test)]
mod tests;
