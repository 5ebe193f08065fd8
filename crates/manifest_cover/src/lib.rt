//! The cover of all handles by a manifest's segments is that by a replica's segments with the same
//! ranges. The function does nothing when it runs: its contract is a law.
#![tactic(auto)]

mod covers;

pub use covers::covers_agree;
