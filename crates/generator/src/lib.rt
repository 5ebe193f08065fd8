//! The generated log: a lawful log of any length, made from a number. Its definition stands in
//! `specs/Generated.antt`.
#![tactic(auto)]

mod entries;
pub mod examples;
mod generate;
pub mod laws;
mod ops;
mod random;
mod values;

pub use generate::{GenerateError, MOST_TRANSACTIONS, generated};
