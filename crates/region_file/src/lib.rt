//! The form of a region file: the regions that a replica has, with what TiKV's default and lock
//! families have for their handles. A checkpoint writes it, and an opening reads it.
//!
//! `FLRG`, the number of regions in 8 bytes, and per region, their ids rising: the id in 4 bytes,
//! its state in 1 (1 live, 2 prepared, 3 gone), its last index in 8; unless it is gone the epoch's
//! two numbers in 8 bytes each, and the range: its low end in 8, and the byte 0, or the byte 1 and
//! its high end in 8; where it is prepared the target in 4; the number of default values in 8, and
//! for each the handle and the start in 8 bytes each, its length in 8, and its bytes; the number of
//! locks in 8, and for each the handle in 8, the byte of its kind as in a lock record, and the start
//! in 8. Numbers are big-endian. Default values rise by handle and start, locks by handle, and both
//! lie in their region's range; no handle lies in two ranges.
#![tactic(auto)]

mod entry;
mod families;
mod fault;
mod field;
mod laws;
mod put;
mod reading;
mod same;
mod taken;

pub use entry::{Entries, Entry};
pub use fault::TableError;
pub use laws::files_are_read_again;
pub use put::write_regions;
pub use reading::read_regions;
pub use same::same_regions;
