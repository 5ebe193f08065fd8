//! What an install does to the segments: what was built takes the place of the segments that it was
//! built of, below what came to them since.
#![tactic(auto)]

mod laws;
mod made;
mod part;
mod planned;
mod rest;
mod staleness;

pub use laws::{
    builds_can_be_installed, compacted_slots_say_the_run, half_slots_say_their_part,
    installs_keep_good, installs_keep_order, joined_slots_say_both, merged_slots_say_the_rest,
};
pub use part::{Files, Part};
pub use planned::{Install, numbers_for, plan, put};
pub use staleness::stale;

/// Memory ran out.
#[derive(Clone, Copy, Debug, PartialEq, Eq)]
pub struct Memory;
