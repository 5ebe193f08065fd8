//! The segments of a replica, with what of each is named and when its files came.
#![tactic(auto)]

mod clip;
mod flush;
mod gathered;
mod laws;
mod list;
mod moving;
mod naming;
mod segments;
mod slot;

pub use clip::{can_speak, clipped, kept};
pub use flush::{Flush, is_tiny};
pub use gathered::Gathering;
pub use laws::{
    absorbed_lists_say_the_entry, absorbed_slots_say_the_entry, absorbed_slots_stay_in_order,
    clipped_files_say_their_part, covered_handles_have_a_slot, flushed_files_are_repacked,
    flushed_slots_are_in_order, gathered_files_say_their_part, one_slot_has_a_handle,
};
pub use segments::SegmentList;
pub use slot::Slot;

/// Memory ran out.
#[derive(Clone, Copy, Debug, PartialEq, Eq)]
pub struct Memory;
