//! An index over the versions of a delta, in order of handle and timestamp.
#![tactic(auto)]

mod change;
mod chunks;
mod gather;
mod index;
mod join;
mod merge;

pub use gather::IndexRow;
pub use index::DeltaIndex;

/// Memory ran out.
#[derive(Clone, Copy, Debug, PartialEq, Eq)]
pub struct Memory;
