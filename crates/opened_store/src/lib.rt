//! What a disk has as it is opened for a log: the manifest of its store, or of one that is made where
//! nothing was ever committed; the table of its regions; and its segments. Or the cause why it can't
//! be opened.
#![tactic(auto)]

mod fault;
mod finding;
mod parts;
mod regions;

pub use fault::OpenCause;
pub use finding::found;
pub use parts::{Parts, parts_of};
pub use regions::table_of;
