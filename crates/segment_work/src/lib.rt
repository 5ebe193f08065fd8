//! Works on segments, done in the background: one is begun on the list of a replica's segments, and
//! built of what was there then.
#![tactic(auto)]

mod builds;
mod compact;
mod runs;
mod work;

pub use builds::build;
pub use runs::first_run;
pub use work::{Work, begin};
