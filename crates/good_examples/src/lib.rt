//! For tests: small replicas, and whether they are good, computed; and that laws of good replicas
//! are false where a premise is left out. The functions do nothing when they run; their contracts
//! are proved by computing.
#![tactic(auto)]

mod runs;
mod weakened;

pub use runs::{
    checkpoints_stay_good, crash_keeps_mark, puts_stay_good, removals_stay_good,
    segments_stay_good, wrong_replicas_are_refused,
};
pub use weakened::{
    checks_need_their_handles, collections_need_the_safe_point, fronts_need_the_mark,
    lone_deletes_need_none_older, merges_need_clipping, merges_need_order,
};
