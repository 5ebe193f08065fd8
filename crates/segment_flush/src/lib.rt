//! Flushes of a replica's segments: their plans, what the manifest is to name for them, and how they
//! are put once that is committed. It knows no disk.
#![tactic(auto)]

mod laws;
mod names;
mod plans;
mod puts;

pub use laws::{flushed_slots_are_renewed, one_slot_is_flushed};
pub use names::stored;
pub use plans::{Plan, has_more, plan_all};
pub use puts::{append_segments, put_all};
