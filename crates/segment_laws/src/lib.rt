//! What flushes, compactions, delta merges, splits and merges make of concrete segments keeps a
//! replica's segments good at each count; and that what was built is what its job makes.
#![tactic(auto)]

pub mod laws;
