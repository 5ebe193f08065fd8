//! What a script does at which counts of applied entries: the bounds of a run, one by one, with the
//! events and the reads of each.
#![tactic(auto)]

mod build;
mod rounds;

pub use build::{bound_of, end_of};
pub use column_block::Memory;
pub use rounds::{Round, Rounds};

#[cfg(test)]
mod tests;
