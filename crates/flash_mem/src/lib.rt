//! The outside in memory: sources and sinks that tell what they hold, and fail at chosen calls.
#![tactic(auto)]

mod calls;
mod contents;
mod crash;
mod disk;
mod failing;
mod history;
mod made;
mod memory;
mod sink;
mod source;

pub use disk::{MemDisk, MemGrip, MemReader};
pub use memory::Memory;
pub use sink::MemSink;
pub use source::MemSource;

#[cfg(test)]
mod tests;
