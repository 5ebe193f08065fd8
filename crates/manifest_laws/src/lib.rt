//! What edits in the middle of a manifest's segments give. The functions do nothing when they run:
//! their contracts are laws.
#![tactic(auto)]

mod installs;
mod runs;

pub use installs::{
    checkpoints_name_all, segments_change, segments_change_in_place, segments_merge, segments_split,
};
pub use runs::{
    edits_take_a_run, ids_stay_different, new_numbers_are_free, other_edits_leave_segments,
};
