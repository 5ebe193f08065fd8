//! What a replica has in memory: its segments, its regions, and which entries of the log are
//! applied. It knows no disk.
#![tactic(auto)]

mod apply;
mod asks;
mod changes;
mod installs;
mod laws;
mod numbers;
mod opening;
mod queries;
mod reads;
mod state;
mod works;

pub use apply::Applied;
pub use asks::ReadRefusal;
pub use laws::{applied_states_keep_sets, installed_slots_are_in_order};
pub use numbers::Numbers;
pub use state::State;
pub use works::{Task, build};

/// Memory ran out.
#[derive(Clone, Copy, Debug, PartialEq, Eq)]
pub struct Memory;
