//! What a replica has in memory: when it is good for its log, how a later state follows an earlier
//! one, and that its steps keep it good. The functions do nothing when they run; each function's
//! contract is a law, which callers may use.
#![tactic(auto)]

mod laws;
mod reads;

pub use laws::{
    applies_keep_good, checkpoints_keep_good, flushes_keep_good, safe_points_keep_good,
    states_follow,
};
pub use reads::{reads_of_good_states_are_right, works_of_good_states_read};
