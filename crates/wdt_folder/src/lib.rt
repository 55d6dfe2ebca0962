//! Real folders.
//!
//! `FolderSource` lists the regular files of a folder and reads them. `FolderDepot` makes, writes and
//! syncs files below a folder, and can be stopped at any changing call, from which on it makes no call
//! of the system. Both are the trusted edge: they tell nothing of what they hold, so nothing is proved
//! of that. They are proved to keep their traits: a call fails only where the count of faults rose, and
//! a stop strikes the call that it was armed for.
//!
//! What went wrong is kept in words for a person: what was being done, to which path, and the
//! system's reason. Want of memory is no fault and keeps its own answer.
#![tactic(auto)]

mod depot;
mod files;
mod folder;
mod folders;
mod handle;
mod handles;
mod names;
mod paths;
mod settling;
mod source;
mod stops;
mod syncs;
mod trouble;

pub use depot::FolderDepot;
pub use handle::Handle;
pub use source::FolderSource;
pub use syncs::{InThreads, OneByOne, Syncs};
pub use trouble::{Fault, OneLine};
