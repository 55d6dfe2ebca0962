//! Trees: what a source lists, what a manifest keeps of it, and what is still to be sent of it.
//!
//! `Manifest::check` accepts exactly the listings of lawful trees and names the first fault of every
//! other. `specs/Listing` says which listing is refused and why, `specs/Rest` what is still to be
//! sent of a tree to a destination that has a part of it, `specs/Told` what a run tells.
#![tactic(auto)]

mod entry;
mod laws;
mod manifest;
mod run;
#[cfg(test)]
mod tests;

pub use entry::{Entry, Plain, RawEntry};
pub use laws::{cuts_are_the_rest, the_rest_is_one_list};
pub use manifest::{Manifest, ManifestFail};
pub use run::{Run, Untold};
