//! The outside over std's files: sources, sinks and a disk in a directory. Nothing here tells what
//! it holds, and each error is counted.
#![tactic(auto)]

mod directory;
mod disk;
mod opened;
mod part;
mod paths;
mod place;
mod reader;
mod standing;
mod stream;

pub use disk::HostDisk;
pub use reader::{HostGrip, HostReader};
pub use stream::{HostSink, HostSource};

#[cfg(test)]
mod tests;
