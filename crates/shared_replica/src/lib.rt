//! A replica that threads share: each call takes the turn, does one step of the replica and gives it
//! back. What a seat has seen is true of the value that was held, and grows from there on.
#![tactic(auto)]

mod fault;
mod laws;
mod shared;
mod steps;
mod turned;
mod works;

pub use fault::{SharedError, WorkError};
pub use laws::what_was_seen_stays;
pub use shared::{ReplicaSeat, Shared};
pub use turned::Turned;
