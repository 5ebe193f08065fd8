//! Files that are written before a commit names them: the blocks in memory of segments that are
//! flushed, as tiny files. Whatever a call answers, all files below the first number are as they were
//! in each image, at each moment.
#![tactic(auto)]

mod files;
mod laws;
mod slots;

pub use files::stage_layer;
pub use laws::{flushed_slots_are_named, flushed_slots_are_read};
pub use slots::{stage_all, stage_checkpoint};
