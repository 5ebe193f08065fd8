//! Reads of a learner replica: snapshots, and scans of the rows that they show at a timestamp.
#![tactic(auto)]

mod laws;
mod packs;
mod part;
mod pieces;
mod rows;
mod scan_laws;
mod scans;
mod snapshot;
mod state;

pub use laws::shown_rows_are_the_read_rule;
pub use pieces::is_needed;
pub use rows::shown;
pub use scan_laws::{scans_are_the_read_rule, scans_follow, well_scans_are_whole};
pub use scans::{RowScan, scan, scan_pieces};
pub use snapshot::Snapshot;
