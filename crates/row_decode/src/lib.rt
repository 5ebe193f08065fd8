//! The cells of a row under a schema.
#![tactic(auto)]

mod decode;
mod known;
mod laws;

pub use decode::{DecodeError, cells};
pub use known::{unknown_column, wrong_width};
pub use laws::cells_suit;

#[cfg(test)]
mod tests;
