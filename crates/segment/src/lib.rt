//! Segments: for a range of handles a stable part and the files of a delta above it, which are
//! replaced as wholes. An epoch counts the replacements, so that a work that was built from an older
//! view is told apart.
#![tactic(auto)]

mod laws;
mod segments;

pub use laws::{repacked_segments_show_the_same, swapped_segments_show_the_same, views_stay};
pub use segments::{Segment, Stale};

/// Memory ran out.
#[derive(Clone, Copy, Debug, PartialEq, Eq)]
pub struct Memory;

#[cfg(test)]
mod tests;
