//! The laws: each function does nothing when it runs, and its contract is a law.
mod builds;
mod files;
mod installs;

pub use builds::{
    builds_are_by_their_jobs, compactions_give, delta_merges_give, jobs_tell_what_was_built,
    merges_give, splits_give,
};
pub use files::{
    compacted_segments_stay_good, flushed_segments_stay_good, repacked_files_keep_counts,
    repacked_segments_stay_good,
};
pub use installs::{
    compactions_install, delta_merges_install, flushes_install, merges_install, splits_install,
};
