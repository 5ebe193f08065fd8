//! Tests of rows that tell from the range of a column's numbers that no row of a pack passes, so
//! that the pack can be left unread.
#![tactic(auto)]

mod sieve;

pub use sieve::Sieve;

#[cfg(test)]
mod tests;
