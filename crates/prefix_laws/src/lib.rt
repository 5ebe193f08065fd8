//! What is there of a replica's segments at each count of applied entries is good for the entries up
//! to it, whatever is applied, flushed, merged or split: so a crash leaves what is good.
#![tactic(auto)]

pub mod laws;
