//! What an entry of the committed log says to a replica that applies it: its keys and records read,
//! and without the ops that change nothing.
#![tactic(auto)]

mod command;
mod examples;
mod ops;
mod parsing;

pub use command::{Command, FamilyOps, Parsed};
pub use examples::each_kind_is_said;
pub use parsing::parse;
