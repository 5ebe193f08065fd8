//! Restart: a replica of a log on a disk, as it was when its store was last committed, or a new one
//! where nothing was ever committed.
#![tactic(auto)]

mod opening;
mod reading;
mod refusal;

pub use opening::open;
pub use refusal::OpenError;
