//! Stable files: the versions of a segment, sorted by handle and timestamp, in packs that are
//! written together and read one by one.
#![tactic(auto)]

mod counts;
mod fault;
mod file;
mod footer;
mod laws;
mod pack;
mod ranges;
mod read;
mod versions;
mod write;

pub use column_block::is_before;
pub use fault::ReadError;
pub use file::{StableFile, attach};
pub use laws::{
    built_footers_are_read_again, built_packs_are_read_again, footers_have_one_spelling,
    ranges_tell_of_rows, tails_tell_the_whole,
};
pub use pack::Pack;
pub use read::{open, read_pack};
pub use versions::{pack_of, rise};
pub use write::build;
