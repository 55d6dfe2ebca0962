//! When an image of a disk is good: its log names only files of the tree and covers only positions
//! that hold the tree's bytes, and it names and covers all that was logged before.
//!
//! `specs/Good.antt` says this of one image, `specs/Logged.antt` of all images of a disk and of each
//! moment of a call. `specs/LogState.antt` says what a log at rest is, and when a disk is ready for a
//! batch; `specs/Calls.antt` has the programs of the log's calls. `specs/Leading.antt` is of a log
//! that leads from some files to others, `specs/Changing.antt` of changes of files beside it, and
//! `specs/Sweeping.antt` of the syncs before a batch.
//!
//! Most functions are laws and do nothing: what is said in their contracts is proved, and the log, the
//! writer and the dock stand on it. `make_beside`, `write_beside` and `sync_beside` are calls on any depot
//! that keep what the laws are of.
#![tactic(auto)]

mod beside;
mod laws;

pub use beside::{make_beside, sync_beside, write_beside};
pub use laws::{
    a_batch_is_in_what_it_leads_to, a_call_of_a_good_change_is_good,
    a_disk_with_no_new_image_stays_good, a_file_made_beside_the_named_is_good,
    a_log_at_rest_says_what_is_logged, a_log_that_leads_on_is_good,
    a_sync_beside_the_log_keeps_all, a_write_beside_what_is_covered_is_good,
    files_beside_the_log_may_change, good_images_join, what_fits_is_good,
    what_is_among_files_is_named, what_is_good_keeps_what_was_logged, what_is_synced_is_ready,
};
