//! A replica of one table on a disk: what it has in memory, and the store that it commits to.
#![tactic(auto)]

mod checkpoint;
mod edits;
mod fault;
mod flush;
mod laws;
mod purge;
mod reads;
mod replica;
mod retired;

pub use fault::{SafeError, StepError};
pub use laws::replicas_follow;
pub use replica::Replica;
pub use retired::Retired;
