//! Splits a segment: chooses the handle in the middle of its versions, and builds the two segments
//! that take its place. Both read the segment's snapshot alone, and change nothing.
#![tactic(auto)]

mod halves;
mod laws;
mod middle;

pub use halves::{build, halves_part};
pub use laws::splits_are_read_again;
pub use middle::choose;
