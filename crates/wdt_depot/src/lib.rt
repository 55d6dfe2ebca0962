//! Where files go, and what a crash may leave of them.
//!
//! `Depot` is the trait of everything that files are written to: a file is made, entered, written and
//! synced. `Crash` adds a stop at any changing call and a reopening after it. A real folder tells
//! nothing of its disk and is the trusted edge; a depot in memory tells its disk at each moment.
//!
//! The disk model: between two syncs of a file that succeed, each range written since the first, and
//! what lies past the length at that sync, may hold any bytes after a crash, and the length is any
//! from the synced one to the greatest written. All other bytes stay.
//!
//! A depot counts its faults, and apart from them its own faults, which no stop made. One that tells
//! its disk also counts slips: what no caller may ask for. So no caller can make a depot's faults.
#![tactic(auto)]

mod crash;
mod depot;
mod failure;
mod health;
mod laws;
mod memory;
mod reading;
mod spots;
#[cfg(test)]
mod tests;

pub use crash::Crash;
pub use depot::{Depot, MAX_END};
pub use failure::DepotFail;
pub use health::Health;
pub use laws::{
    a_changing_call_is_done_or_not, a_made_file_changes_no_other, a_part_of_a_write,
    a_sync_leaves_what_is_read, a_write_stays_in_its_range, what_all_images_have_stays,
    what_holds_since_holds_at_the_last, what_is_read_may_be_left,
};
pub use memory::MemDepot;
pub use reading::read_whole;
pub use spots::{Entered, drop_spot, path_at, push_spot};
