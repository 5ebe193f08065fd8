//! A disk with the manifest of its store: the only code that meets what a crash may leave.
//!
//! Each call says what it leaves of the disk's images at every moment (`LeavesAlways`), and that what
//! the manifest has still stands in each image (`NamesNothing`, `IsCommitted`). A store whose disk has
//! failed is wrecked: it isn't written again, and a new opening finds what was committed.
#![tactic(auto)]

mod reading;
mod shown;
mod store;
mod strays;
mod writing;

pub use store::{MOST_NEXT, Store};
