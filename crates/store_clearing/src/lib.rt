//! The removal of the files of a store's disk that nothing needs; all files that it needs stay.
#![tactic(auto)]

mod clearing;

pub use clearing::clear;
