//! The outside as the store sees it: sources, sinks and disks, whose failures are counted, and what
//! a crash may leave of a disk.
#![tactic(auto)]

mod counts;
mod disk;
mod fault;
mod file;
mod pause;
mod read;
mod reader;
mod stream;
mod words;
mod write;

pub use counts::{retired_rises_are_handed_on, rises_add_up};
pub use disk::{Disk, FileId};
pub use fault::DiskFault;
pub use file::read_file;
pub use pause::{Free, Pause, Point};
pub use read::{IntoError, read_to_limit};
pub use reader::{Gripped, Reader};
pub use stream::{Failed, Sink, Source};
pub use words::{Word, WordList};
pub use write::write_all;
