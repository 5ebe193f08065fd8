//! What is told of each segment of a replica, and which work on them is due first.
#![tactic(auto)]

mod info;
mod laws;
mod works;

pub use info::{SegInfo, info_at};
pub use laws::longest_runs_are_longest;
pub use works::{Due, first_due};

#[cfg(test)]
mod tests;
