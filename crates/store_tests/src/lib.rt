//! Tests of a store's manifest, on a disk in memory that fails and crashes.
#![tactic(auto)]

#[cfg(test)]
mod journal;
#[cfg(test)]
mod opening;
