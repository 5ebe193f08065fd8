//! Logs from their files: a source is read to its end, or to the most bytes that a log may have, its
//! header and frames are read, and the entries admitted. What has none of these is refused, with the
//! line that says why.
#![tactic(auto)]

mod cause;
mod log;
mod read;
mod value;

pub use cause::{Cause, Refusal, push_refusal};
pub use log::{LogError, log_of};
pub use read::{MOST_LOG, read_log};
