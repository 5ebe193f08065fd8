//! What a read sees of a replica's segments: a snapshot that shares those that it needs, and the
//! law that a scan of it gives the log's rows.
#![tactic(auto)]

mod laws;
mod snapshots;

pub use laws::{
    columns_tell_a_bound, footers_tell_each_column, good_segments_give_right_scans,
    scans_by_a_function,
};
pub use snapshots::{Memory, snapshot_of};
