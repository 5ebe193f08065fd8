//! The commands over a log, from bytes to bytes.
#![tactic(auto)]

mod check;
mod refuse;
mod run;
mod script;
mod show;
mod status;
mod write;

pub use run::replay;
